// The card's language (document 01): the FASC-N, TLVs, the SELECT answer's template, data objects, dates and commands.
#![tactic(auto)]

pub mod command;
pub mod date;
pub mod fascn;
pub mod object;
pub mod template;
pub mod tlv;
