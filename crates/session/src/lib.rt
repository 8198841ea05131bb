// The session with a card (document 01): open, command, answer, verdict, field and stamp, and the preview (document 02,
// request 6). It knows the card's language only through what crate `card` states.
#![tactic(auto)]

mod answer;
pub mod arrays;
mod command;
mod field;
pub mod figures;
mod judge;
pub mod open;
mod preview;
mod progress;
mod range;
mod stamp;
pub mod state;
mod tables;
mod verdict;
