// The FASC-N of a card: 25 bytes unpacked to 32 digits, packed from them, and compared; and its key, which is looked up
// in a list of keys (document 01, section FASC-N).
mod characters;
pub mod counts;
mod order;

ghost use Rattle.std.specs.Prelude.{◌≡◌};
ghost use Rattle.common.specs.Lists.{is_in, same_bytes};
ghost use Rattle.card.specs.Fascn.{unpack_number, pack_number, unpack_never_zero, pack_never_zero, unpacked, packed, unpack_of, pack_of, key_of};

use crate::fascn::counts::{CHECK_PLACE, DIGITS, FASCN_BYTES, KEY_DIGITS};
use common::refusal::Numbered;
use common::slice;

// The first fault of bytes that are no FASC-N, by document 01's numbers.
#[derive(Clone, Copy, Debug, PartialEq, Eq)]
pub enum UnpackError {
    // not 25 bytes
    WrongLength = 15,
    // a character with an even count of ones
    WrongParity = 16,
    // a mark or a digit out of place
    OutOfPlace = 17,
    // a check character that is not the exclusive or of the values before it
    WrongCheck = 18,
}

impl Numbered for UnpackError {
    ghost number_of = { unpack_number };

    ghost never_zero = { unpack_never_zero };

    fn number(self) -> u8 {
        self as u8
    }
}

// Document 01's number of a digit above 9; `above_nine` in the definitions.
const ABOVE_NINE: u8 = 19;

// A digit to be packed is above 9.
#[derive(Clone, Copy, Debug, PartialEq, Eq)]
pub struct AboveNine;

impl Numbered for AboveNine {
    ghost number_of = { pack_number };

    ghost never_zero = { pack_never_zero };

    fn number(self) -> u8 {
        ABOVE_NINE
    }
}

// Document 01's key of a card: its first 16 digits as one whole number. A type of its own, so that no other number is
// taken for one.
#[derive(Clone, Copy, Debug, PartialEq, Eq)]
pub struct Key(pub u64);

impl Key {
    // Whether the key stands anywhere in the list. Every place is looked at: there is no early exit.
    pub fn listed(self, cancelled: &[u64]) -> bool
        ensures { result ≡ is_in self.0 cancelled.now }
    {
        let wanted = self.0;
        cancelled
            .iter()
            .fold(false, |found, key| found | (wanted == *key))
    }
}

// The 32 digits of a FASC-N, or the first fault of the bytes.
pub fn unpack(s: &[u8]) -> Result<[u8; DIGITS], UnpackError>
    ensures { unpacked result ≡ unpack_of s.now }
{
    let Ok(bytes) = <[u8; FASCN_BYTES]>::try_from(s) else {
        return Err(UnpackError::WrongLength);
    };
    let c = characters::characters_in(&bytes);
    let v = characters::values_in(&c);
    let d = order::digits_in(&v);
    if !characters::all_odd(&c) {
        Err(UnpackError::WrongParity)
    } else if !(order::marks_in(&v) & order::all_decimal(&d)) {
        Err(UnpackError::OutOfPlace)
    } else if v[CHECK_PLACE] != order::check_value(&d) {
        Err(UnpackError::WrongCheck)
    } else {
        Ok(d)
    }
}

// The 25 bytes of the FASC-N with the digits d, or that one of them is above 9.
pub fn pack(d: [u8; DIGITS]) -> Result<[u8; FASCN_BYTES], AboveNine>
    ensures { packed result ≡ pack_of d }
{
    if !order::all_decimal(&d) {
        return Err(AboveNine);
    }
    let c = order::characters_of(&d);
    Ok(characters::bytes_of(&c))
}

// The key whose 16 digits are d.
pub fn key_from(d: &[u8; KEY_DIGITS]) -> Key
    ensures { result.0 ≡ key_of d.now }
{
    // a loop and no fold: a fold's closure would have to be called with any sum, and some overflow
    let mut n = 0u64;
    for digit in d {
        n = n * 10 + u64::from(*digit);
    }
    Key(n)
}

// The key of the card whose 32 digits are d. A function and no `From`: its contract is what the laws cite by name.
pub fn key_of(d: [u8; DIGITS]) -> Key
    ensures { result.0 ≡ key_of d }
{
    let mut first = [0u8; KEY_DIGITS];
    first.copy_from_slice(&d[..KEY_DIGITS]);
    key_from(&first)
}

// Two FASC-Ns are equal where all their bytes are. `same` under a name of its own: who compares FASC-Ns goes by what
// this crate states of them.
pub fn equal(a: &[u8], b: &[u8]) -> bool
    ensures { result ≡ same_bytes a.now b.now }
{
    slice::same(a, b)
}
