// The calls of include/gate.h: what C and Rust link, as the static library libhost.a. Each export is the call of the
// same name of crate host and states its clauses again. A session is its image, a fixed number of bytes; a slice is
// passed as a pointer and then a length, an array and a number to be written as a pointer. A crate of its own, since a
// crate is a library or a static library; no one has to read two contracts.
#![tactic(auto)]

mod cards;
mod lists;
mod sessions;
