// The Visual Cancelled Card List as text, lines `(cin (12345678))` each ended by 0A, and the yes or no for a typed
// number (document 02, request 2).
ghost use Rattle.std.specs.Prelude.{◌≡◌, ◌<◌, MatchOption};
ghost use Rattle.ccl.specs.Visual.{lookup_number, lookup_never_zero, lookup_answer, lookup_of, typed_number, typed_never_zero, typed_answer, typed_of};
ghost use Rattle.ccl.specs.VisualCode.{front_size, front_number};
ghost use Rattle.ccl.specs.declared.visual.LookUpError.TheVariants as look-up-errors;

use crate::cin;
use crate::cin::{BAD_ENTRY, BadEntry, Cin, Digits, LONGEST_CIN};
use common::refusal::Numbered;
use common::slice;

// Document 02's number of a malformed line; `malformed_visual` in the definitions.
pub const MALFORMED_VISUAL: u8 = 24;

// A line of the visual list is malformed: the number of the first such line, counted from 1. A type of its own, as
// BadEntry is.
#[derive(Clone, Copy, Debug, PartialEq, Eq)]
pub struct MalformedLine(pub usize);

impl Numbered for MalformedLine {
    ghost number_of = { lookup_number };

    ghost never_zero = { lookup_never_zero };

    fn number(self) -> u8 {
        MALFORMED_VISUAL
    }
}

// Why a typed number is not looked up.
#[derive(Clone, Copy, Debug, PartialEq, Eq)]
pub enum LookUpError {
    // the entry is no CIN
    BadEntry,
    // the number of the first malformed line, counted from 1
    Malformed(usize),
}

impl Numbered for LookUpError {
    ghost number_of = { typed_number };

    ghost never_zero = { typed_never_zero };

    fn number(self) -> u8 {
        match self {
            LookUpError::BadEntry => BAD_ENTRY,
            LookUpError::Malformed(_) => MALFORMED_VISUAL,
        }
    }
}

impl From<BadEntry> for LookUpError {
    ghost from_gives = { λ _ e. e ≡ look-up-errors.BadEntry };

    fn from(_e: BadEntry) -> LookUpError {
        LookUpError::BadEntry
    }
}

impl From<MalformedLine> for LookUpError {
    ghost from_gives = { λ line e. e ≡ look-up-errors.Malformed line.0 };

    fn from(line: MalformedLine) -> LookUpError {
        LookUpError::Malformed(line.0)
    }
}

// How many bytes open a line, `(cin (`, and close it, `))` and 0A; `opening_size` and `closing_size` in the
// definitions.
const OPENING: usize = 6;

const CLOSING: usize = 3;

// The good line that a text begins with: its count of bytes, and the number that its digits spell.
#[derive(Clone, Copy, Debug, PartialEq, Eq)]
struct FrontLine {
    size: usize,
    number: u64,
}

// The good line that the bytes begin with.
fn front_line(s: &[u8]) -> Option<FrontLine>
    ensures { MatchOption result (front_size s.now ≡ 0) (λ line. (line.size ≡ front_size s.now) × (line.number ≡ front_number s.now) × (0 < line.size)) }
{
    let Digits { count, number } = cin::leading_digits(slice::after(s, OPENING));
    let closed = slice::after(s, OPENING + count).starts_with(b"))\n");
    // the bounds by hand, as in read_entry
    if s.starts_with(b"(cin (") & (1 <= count) & (count <= LONGEST_CIN) & closed {
        Some(FrontLine {
            size: OPENING + count + CLOSING,
            number,
        })
    } else {
        None
    }
}

impl Cin {
    // Whether the number is in the visual list. The text is gone through once, to its end or to the first malformed
    // line.
    pub fn listed(self, text: &[u8]) -> Result<bool, MalformedLine>
        ensures { lookup_answer result ≡ lookup_of self.0 text.now }
    {
        let mut met = false;
        // by hand: a line is cut by what was read of it, and the count is the number of the malformed line
        let mut lines: usize = 0;
        let mut rest = text;
        while !rest.is_empty() {
            let Some(line) = front_line(rest) else {
                return Err(MalformedLine(lines + 1));
            };
            met |= self.0 == line.number;
            lines += 1;
            rest = slice::after(rest, line.size);
        }
        Ok(met)
    }
}

// Whether the number that a guard typed is in the visual list.
pub fn look_up(typed: &[u8], text: &[u8]) -> Result<bool, LookUpError>
    ensures { typed_answer result ≡ typed_of typed.now text.now }
{
    let cin = cin::read_entry(typed)?;
    Ok(cin.listed(text)?)
}
