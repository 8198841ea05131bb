// What all crates share: the notions of lists, numbers and refusals that their contracts cite, and bytes compared,
// found and stored.
#![tactic(auto)]

pub mod refusal;
pub mod slice;
