// The counts of a FASC-N (document 01, section FASC-N): its bytes, characters and digits, the place of its check
// character, counted from 0, and the digits of its key. In the definitions they are `fascn_bytes`, `fascn_characters`,
// `fascn_digits`, `check_place` and `key_length`.
pub const FASCN_BYTES: usize = 25;

pub const CHARACTERS: usize = 40;

pub const DIGITS: usize = 32;

pub const CHECK_PLACE: usize = 39;

pub const KEY_DIGITS: usize = 16;
