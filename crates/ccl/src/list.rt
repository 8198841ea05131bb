// A list as text, a line to a key, and as keys.
ghost use Rattle.std.specs.Prelude.{◌≡◌, ◌*◌, ◌/◌, ◌≤◌, length};
ghost use Rattle.common.specs.Lists.{over_front, written};
ghost use Rattle.ccl.specs.ListText.{line_size, good_lines, key_at, read_number, read_never_zero, read_answer, read_of, keys_after, small_keys, lines_of, write_number, write_never_zero, write_answer, write_of, text_after};

use crate::line;
use crate::line::{KEY_LIMIT, LINE};
use card::fascn::Key;
use common::refusal::Numbered;
use common::slice;

// Why a text is not read.
#[derive(Clone, Copy, Debug, PartialEq, Eq)]
pub enum ReadError {
    // the number of the first malformed line, counted from 1
    Malformed(usize),
    // the places are fewer than the keys
    TooFewPlaces,
}

impl Numbered for ReadError {
    ghost number_of = { read_number };

    ghost never_zero = { read_never_zero };

    fn number(self) -> u8 {
        match self {
            ReadError::Malformed(_) => 20,
            ReadError::TooFewPlaces => 21,
        }
    }
}

// Why keys are not written.
#[derive(Clone, Copy, Debug, PartialEq, Eq)]
pub enum WriteError {
    // the buffer has under 32 bytes a key
    ShortBuffer = 21,
    // a key has more than 16 digits
    KeyTooLarge = 22,
}

impl Numbered for WriteError {
    ghost number_of = { write_number };

    ghost never_zero = { write_never_zero };

    fn number(self) -> u8 {
        self as u8
    }
}

// How many good lines the text begins with.
fn good_lines(text: &[u8]) -> usize
    ensures value { result ≡ good_lines text.now }
    ensures inside { line_size * result ≤ length text.now }
{
    // `chunks_exact` with a constant: the compiler then knows that a line has as many bytes as the two strings
    text.chunks_exact(LINE)
        .take_while(|line| line::good_line(line))
        .count()
}

// The keys of the text's whole lines, stored at the front of keys.
fn put_keys(text: &[u8], keys: &mut [u64])
    requires { length text.now / line_size ≤ length keys.old }
    ensures { keys.new ≡ written keys.old 0 (length text.now / line_size) (key_at text.now) }
{
    // the places go by an index: of a slice that `zip` lends mutably, the library promises nothing afterwards
    for (i, line) in text.chunks_exact(LINE).enumerate() {
        keys[i] = line::line_key(line).0;
    }
}

// The keys of a list's text, in its order, stored at the front of keys. The whole text is judged first.
#[tactic(auto, unfolding(crate::specs::ListText::read_of, crate::specs::ListText::keys_after, crate::specs::ListText::read_refusal, crate::specs::ListText::well_formed))]
pub fn read(text: &[u8], keys: &mut [u64]) -> Result<usize, ReadError>
    ensures result_value { read_answer result ≡ read_of text.now (length keys.old) }
    ensures keys_after { keys.new ≡ keys_after text.now keys.old }
{
    let n = good_lines(text);
    if LINE * n != text.len() {
        return Err(ReadError::Malformed(n + 1));
    }
    if keys.len() < n {
        return Err(ReadError::TooFewPlaces);
    }
    put_keys(text, keys);
    Ok(n)
}

// Whether every key has at most 16 digits. Every key is looked at: there is no early exit.
fn small_keys(keys: &[u64]) -> bool
    ensures { result ≡ small_keys keys.now }
{
    keys.iter().fold(true, |ok, key| ok & (*key < KEY_LIMIT))
}

// The lines of the keys, stored at the front of out.
fn put_lines(keys: &[u64], out: &mut [u8])
    requires { length keys.now ≤ length out.old / line_size }
    ensures { out.new ≡ over_front (lines_of keys.now) out.old }
{
    // by an index, as in put_keys
    for (i, key) in keys.iter().enumerate() {
        slice::store(out, LINE * i, &line::line_of(Key(*key)));
    }
}

// The text of a list of keys, stored at the front of out.
#[tactic(auto, unfolding(crate::specs::ListText::write_of, crate::specs::ListText::text_after, crate::specs::ListText::write_refusal))]
pub fn write(keys: &[u64], out: &mut [u8]) -> Result<usize, WriteError>
    ensures result_value { write_answer result ≡ write_of keys.now (length out.old) }
    ensures out_after { out.new ≡ text_after keys.now out.old }
{
    if !small_keys(keys) {
        return Err(WriteError::KeyTooLarge);
    }
    if out.len() / LINE < keys.len() {
        return Err(WriteError::ShortBuffer);
    }
    put_lines(keys, out);
    Ok(keys.len())
}
