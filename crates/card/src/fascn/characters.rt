// 25 bytes as 40 characters of 5 bits, and back. Five bytes are eight characters: each way goes by numbers of 40 bits.
// A character is kept as one number, the bit sent first highest.
ghost use Rattle.std.specs.Prelude.{◌≡◌, ◌+◌, ◌-◌, ◌*◌, ◌%◌, ◌/◌, ◌^◌, ◌≤◌, ◌<◌, length, get_or};
ghost use Rattle.common.specs.Lists.{list_of, all, number};
ghost use Rattle.card.specs.Fascn.{fascn_characters};
ghost use Rattle.card.specs.FascnCode.{odd_char, value_char, char_of, chars_in, bytes_of_chars};

use crate::fascn::counts::{CHARACTERS, FASCN_BYTES};

// The numbers of s as the digits of one number, each of so many bits, the first highest.
fn number_in(s: &[u8], bits: usize) -> u64
    requires { (bits ≤ 8) × (bits * length s.now < 64) }
    ensures { result ≡ number (2 ^ bits) (length s.now) (λ j. get_or s.now j 0 % 2 ^ bits) }
{
    let base = 1u64 << bits;
    let mut w = 0;
    for x in s {
        w = w * base + u64::from(*x) % base;
    }
    w
}

// The digits of w, each of so many bits, the highest first, as many as out has places.
fn put_digits(out: &mut [u8], w: u64, bits: usize)
    requires { (bits ≤ 8) × (bits * length out.old < 64) }
    ensures { out.new ≡ list_of (length out.old) (λ j. w / 2 ^ (bits * (length out.old - 1 - j)) % 2 ^ bits) }
{
    let n = out.len();
    let base = 1u64 << bits;
    for (j, o) in out.iter_mut().enumerate() {
        *o = ((w >> (bits * (n - 1 - j))) % base) as u8;
    }
}

// The 40 characters of 25 bytes.
pub(crate) fn characters_in(s: &[u8; FASCN_BYTES]) -> [u8; CHARACTERS]
    ensures { result ≡ chars_in s.now }
{
    let mut c = [0u8; CHARACTERS];
    // by the place of each group: what is written through `chunks_exact_mut` comes back to no proof
    for g in 0..5 {
        let w = number_in(&s[5 * g..5 * g + 5], 8);
        put_digits(&mut c[8 * g..8 * g + 8], w, 5);
    }
    c
}

// The 25 bytes of 40 characters.
pub(crate) fn bytes_of(c: &[u8; CHARACTERS]) -> [u8; FASCN_BYTES]
    ensures { result ≡ bytes_of_chars c.now }
{
    let mut s = [0u8; FASCN_BYTES];
    // by the place of each group, as in characters_in
    for g in 0..5 {
        let w = number_in(&c[8 * g..8 * g + 8], 5);
        put_digits(&mut s[5 * g..5 * g + 5], w, 8);
    }
    s
}

// The count of ones of a character is odd.
fn odd(c: u8) -> bool
    ensures { result ≡ odd_char c }
{
    (c % 32).count_ones() % 2 == 1
}

// The value of a character: its first four bits, lowest first.
fn value(c: u8) -> u8
    ensures { result ≡ value_char c }
{
    c / 16 % 2 + 2 * (c / 8 % 2) + 4 * (c / 4 % 2) + 8 * (c / 2 % 2)
}

// The character of a value: its four bits, lowest first, and a bit that makes the count of ones odd.
pub(crate) fn character_of(x: u8) -> u8
    ensures { result ≡ char_of x }
{
    16 * (x % 2)
        + 8 * (x / 2 % 2)
        + 4 * (x / 4 % 2)
        + 2 * (x / 8 % 2)
        + (1 + x % 2 + x / 2 % 2 + x / 4 % 2 + x / 8 % 2) % 2
}

// Every character has an odd count of ones.
pub(crate) fn all_odd(c: &[u8; CHARACTERS]) -> bool
    ensures { result ≡ all fascn_characters (λ i. odd_char (get_or c.now i 0)) }
{
    c.iter().fold(true, |ok, x| ok & odd(*x))
}

// The values of the characters.
pub(crate) fn values_in(c: &[u8; CHARACTERS]) -> [u8; CHARACTERS]
    ensures { result ≡ list_of fascn_characters (λ i. value_char (get_or c.now i 0)) }
{
    let mut v = [0u8; CHARACTERS];
    // one after another: with the array's `map`, here and in digit_characters, pack took 1,648 instructions for 337
    for (i, o) in v.iter_mut().enumerate() {
        *o = value(c[i]);
    }
    v
}
