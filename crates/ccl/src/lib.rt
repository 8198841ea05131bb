// Cancelled card lists: the text of a list, and its keys (document 01, "List text and the gate program", "List read",
// "List write"); two lists of keys made one (document 02, request 4); the number on the back of a card, and the visual
// list of such numbers (document 02, request 2).
#![tactic(auto)]

pub mod cin;
pub mod line;
pub mod list;
pub mod merge;
pub mod visual;
