// The reader core for hosts in C and Rust (include/gate.h): a session is its image, a fixed number of bytes, and each
// call takes slices, arrays and numbers, and gives the papers' number. Crate host_c exports the calls to C.
#![tactic(auto)]

mod answer;
pub mod cards;
pub mod image;
pub mod lists;
mod number;
pub mod sessions;
