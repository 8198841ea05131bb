// Text in a buffer: bytes, hexadecimal digits, and numbers in decimal, added one after another. The buffer is any slice
// that is lent (`add`, `add_hex`, `add_decimal`), or a `Text`'s own, which counts its bytes itself.
#![tactic(auto)]

ghost use Rattle.std.specs.Prelude.{◌≡◌, List, [], ◌++◌, ℕ, ◌-◌, ◌≤◌, ◌<◌, eqb, length, take, drop, replicate};
ghost use Rattle.text.specs.Hex.{hex_of};
ghost use Rattle.append.specs.Append.{added, Added, Blank, number_text};

use common::slice;
use std::marker::Model;
use text::hex;

// The bytes s, after the first `at` bytes of out, as far as there is room; how many bytes stand there then.
pub fn add(out: &mut [u8], at: usize, s: &[u8]) -> usize
    ensures { Added out.old at out.new result s.now }
{
    if out.len() <= at {
        return out.len();
    }
    let n = s.len().min(out.len() - at);
    slice::store(out, at, &s[..n]);
    at + n
}

// The digits that spell the bytes s.
pub fn add_hex(out: &mut [u8], at: usize, s: &[u8]) -> usize
    ensures { Added out.old at out.new result (hex_of s.now) }
{
    if out.len() <= at {
        return out.len();
    }
    let n = hex::write(s, &mut out[at..]);
    at + n
}

// The most decimal digits of a number of 64 bits.
const DECIMAL: usize = 20;

// The digits of n in decimal, stored at the end of out; the place where they begin. Not by `write!`: the clauses of
// `fmt::Write` say what was written where it answers Ok, and not that it does. A loop, and one text of all digits: a
// digit after another took five times as long, for 20 digits.
fn put_decimal(n: u64, out: &mut [u8; DECIMAL]) -> usize
    ensures inside { result < 20 }
    ensures stores { drop result out.new ≡ number_text n }
{
    let mut k = DECIMAL - 1;
    let mut rest = n;
    while rest >= 10 {
        out[k] = b'0' + (rest % 10) as u8;
        rest /= 10;
        k -= 1;
    }
    out[k] = b'0' + rest as u8;
    k
}

// The number n in decimal.
pub fn add_decimal(out: &mut [u8], at: usize, n: u64) -> usize
    ensures { Added out.old at out.new result (number_text n) }
{
    let mut digits = [0u8; DECIMAL];
    let k = put_decimal(n, &mut digits);
    add(out, at, &digits[k..])
}

// At most `N` bytes of text. What is added past that is cut off; a text of fewer than `N` bytes is whole. Clone and Copy
// alone: whoever compares or prints a text takes its bytes.
#[derive(Clone, Copy)]
pub struct Text<const N: usize> {
    bytes: [u8; N],
    len: usize,
}

// Clauses see the bytes of the text.
impl<const N: usize> Model for Text<N> {
    ghost Value = { List ℕ };

    ghost view = { λ t. take t.len t.bytes };

    // zeros stand behind the text, so that it says what every byte of the buffer is: a `Copy` struct has to
    ghost invariant = { λ t. Blank N t.len t.bytes };

    ghost inverse = { λ v. record { bytes = v ++ replicate (N - length v) 0; len = length v } };
}

impl<const N: usize> Text<N> {
    // No text.
    pub fn new() -> Self
        ensures { result ≡ [] }
    {
        Text {
            bytes: [0; N],
            len: 0,
        }
    }

    // How many bytes the text has.
    pub fn len(&self) -> usize
        ensures is { result ≡ length self.now }
        ensures within { result ≤ N }
    {
        self.len
    }

    // The text has no byte.
    pub fn is_empty(&self) -> bool
        ensures { result ≡ eqb (length self.now) 0 }
    {
        self.len == 0
    }

    // Nothing more fits, so that the text may be cut.
    pub fn is_full(&self) -> bool
        ensures is { result ≡ eqb (length self.now) N }
        ensures within { length self.now ≤ N }
    {
        self.len == N
    }

    // The bytes of the text, and none of those after it in the buffer.
    pub fn as_bytes(&self) -> &[u8]
        ensures { result.now ≡ self.now }
    {
        &self.bytes[..self.len]
    }

    // No text again.
    pub fn clear(&mut self)
        ensures { self.new ≡ [] }
    {
        // the whole first: the borrow checker covers no part of an array whose length is a parameter
        let all = &mut self.bytes[..];
        all[0..self.len].fill(0);
        self.len = 0;
    }

    // The bytes s.
    pub fn add(&mut self, s: &[u8])
        ensures { self.new ≡ added N self.old s.now }
    {
        self.len = add(&mut self.bytes, self.len, s);
    }

    // The digits that spell the bytes s.
    pub fn add_hex(&mut self, s: &[u8])
        ensures { self.new ≡ added N self.old (hex_of s.now) }
    {
        self.len = add_hex(&mut self.bytes, self.len, s);
    }

    // The number n in decimal.
    pub fn add_decimal(&mut self, n: u64)
        ensures { self.new ≡ added N self.old (number_text n) }
    {
        self.len = add_decimal(&mut self.bytes, self.len, n);
    }
}
