// The order of a FASC-N: where its digits and marks stand among the 40 characters, and the check value.
ghost use Rattle.std.specs.Prelude.{◌≡◌, get_or};
ghost use Rattle.common.specs.Lists.{list_of, all};
ghost use Rattle.card.specs.Fascn.{start_value, separator_value, end_value, fascn_digits, digits_in, marks_in, decimal_at};
ghost use Rattle.card.specs.FascnCode.{char_of, in_order, check_digits, chars_of};

use crate::fascn::characters;
use crate::fascn::counts::{CHARACTERS, CHECK_PLACE, DIGITS};

// The values of the start sentinel, the field separator and the end sentinel; `start_value`, `separator_value` and
// `end_value` in the definitions.
const SS: u8 = 11;

const FS: u8 = 13;

const ES: u8 = 15;

// The digits among the 40 values.
pub(crate) fn digits_in(v: &[u8; CHARACTERS]) -> [u8; DIGITS]
    ensures { result ≡ digits_in v.now }
{
    let mut d = [0u8; DIGITS];
    // agency, system, credential, series, issue; then person, category, organisation and association, with no mark
    // between
    d[..4].copy_from_slice(&v[1..5]);
    d[4..8].copy_from_slice(&v[6..10]);
    d[8..14].copy_from_slice(&v[11..17]);
    d[14] = v[18];
    d[15] = v[20];
    d[16..].copy_from_slice(&v[22..38]);
    d
}

// Every mark stands in its place among the 40 values.
pub(crate) fn marks_in(v: &[u8; CHARACTERS]) -> bool
    ensures { result ≡ marks_in v.now }
{
    (v[0] == SS)
        & (v[5] == FS)
        & (v[10] == FS)
        & (v[17] == FS)
        & (v[19] == FS)
        & (v[21] == FS)
        & (v[38] == ES)
}

// No digit is above 9.
pub(crate) fn all_decimal(d: &[u8; DIGITS]) -> bool
    ensures { result ≡ all fascn_digits (decimal_at d.now) }
{
    d.iter().fold(true, |ok, x| ok & (*x <= 9))
}

// The exclusive or of the marks and the digits.
pub(crate) fn check_value(d: &[u8; DIGITS]) -> u8
    ensures { result ≡ check_digits d.now }
{
    let marks = SS ^ FS ^ FS ^ FS ^ FS ^ FS ^ ES;
    d.iter().fold(marks, |x, digit| x ^ digit)
}

// The characters of the digits.
fn digit_characters(d: &[u8; DIGITS]) -> [u8; DIGITS]
    ensures { result ≡ list_of fascn_digits (λ k. char_of (get_or d.now k 0)) }
{
    let mut c = [0u8; DIGITS];
    // one after another, not by `map`: see values_in
    for (k, o) in c.iter_mut().enumerate() {
        *o = characters::character_of(d[k]);
    }
    c
}

// 40 characters in order: the digits' characters e, the marks' between them, and the check character last.
fn in_order(e: &[u8; DIGITS], check: u8) -> [u8; CHARACTERS]
    ensures { result ≡ in_order e.now (char_of start_value) (char_of separator_value) (char_of end_value) check }
{
    let mut c = [characters::character_of(FS); CHARACTERS];
    c[0] = characters::character_of(SS);
    // the runs of digits_in, the other way
    c[1..5].copy_from_slice(&e[..4]);
    c[6..10].copy_from_slice(&e[4..8]);
    c[11..17].copy_from_slice(&e[8..14]);
    c[18] = e[14];
    c[20] = e[15];
    c[22..38].copy_from_slice(&e[16..]);
    c[38] = characters::character_of(ES);
    c[CHECK_PLACE] = check;
    c
}

// The 40 characters of the FASC-N with the digits d.
pub(crate) fn characters_of(d: &[u8; DIGITS]) -> [u8; CHARACTERS]
    ensures { result ≡ chars_of d.now }
{
    let e = digit_characters(d);
    let check = characters::character_of(check_value(d));
    in_order(&e, check)
}
