// Text as the list files and the gate program have it: bytes in hexadecimal and strings in which digits stand at given
// places.
#![tactic(auto)]

pub mod form;
pub mod hex;
