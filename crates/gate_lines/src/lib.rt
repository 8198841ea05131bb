// The gate program as a library (document 01, "List text and the gate program"): its lines, what each does to the
// program's state and prints, the cutting of its input into lines, and what it prints at the end. The program itself
// only reads and writes.
#![tactic(auto)]

pub mod input;
pub mod line;
pub mod reply;
pub mod run;
pub mod state;
