// A line of the input, without its 0A.
ghost use Rattle.std.specs.Prelude.{◌≡◌, true, false, ◌+◌, ◌≤◌, ◌<◌, length, drop, MatchOption};
ghost use Rattle.common.specs.Decimal.{spelled};
ghost use Rattle.gate_lines.specs.Line.{longest, open_head, hex_from, headed, call_in, line_in};
ghost use Rattle.gate_lines.specs.LineCode.{line_by, Fits};

use card::fascn::Key;
use ccl::line;
use text::{form, hex};

// The most bytes of a line, its 0A not counted; `longest` in the definitions.
pub(crate) const LONGEST: usize = 1024;

// What a line of one of the forms is. HEX is given as its digits, which spell the bytes of the AID, of the answer and
// of the FASC-N. `line_by` gives the whole value, and `Fits` where the digits stand in the line. MODE, KIND and YES
// stay numbers: any digit may come, and the session refuses those that it has no use for.
#[derive(Clone, Copy, Debug, PartialEq, Eq)]
pub enum Line<'a> {
    // a card, by its key
    Card(Key),
    // `(open MODE DATE AID)`
    Open { mode: u8, date: u32, aid: &'a [u8] },
    // `(answer HEX)`
    Answer(&'a [u8]),
    // `(verdict KIND YES HEX)`
    Verdict { kind: u8, yes: u8, fascn: &'a [u8] },
}

// The digits of HEX where the line is a head of the form of the two strings, then HEX, then `)`.
#[tactic(auto, unfolding(crate::specs::Line::headed, crate::specs::Line::hex_from))]
fn headed<'a>(lowest: &[u8], highest: &[u8], s: &'a [u8]) -> Option<&'a [u8]>
    requires { length lowest.now ≤ open_head }
    ensures { MatchOption result (headed lowest.now highest.now s.now ≡ false) (λ hex. (headed lowest.now highest.now s.now ≡ true) × (hex.now ≡ hex_from (length lowest.now) s.now) × (length lowest.now + 3 ≤ length s.now) × (length hex.now ≤ length s.now)) }
{
    let n = lowest.len();
    if s.len() < n + 3 || !form::between(lowest, highest, &s[..n]) {
        return None;
    }
    let end = s.len() - 1;
    let digits = &s[n..end];
    if hex::is_hex(digits) && s[end] == b')' {
        Some(digits)
    } else {
        None
    }
}

// The number that the eight digits from place 8 on spell.
fn date_in(s: &[u8]) -> u32
    requires { 16 ≤ length s.now }
    ensures { result ≡ spelled 8 (drop 8 s.now) }
{
    // a loop and not `fold`: that the product fits rests on a bound that lasts from one digit to the next
    let mut n: u32 = 0;
    for x in &s[8..16] {
        n = n * 10 + (*x % 16) as u32;
    }
    n
}

// The number that the digit at place i spells.
fn digit_in(s: &[u8], i: usize) -> u8
    requires { i < length s.now }
    ensures { result ≡ spelled 1 (drop i s.now) }
{
    s[i] % 16
}

// What a line is that is no card.
#[tactic(auto, unfolding(crate::specs::Line::call_in))]
fn call_line(s: &[u8]) -> Option<Line>
    requires { length s.now ≤ longest }
    ensures is { line_by result ≡ call_in s.now }
    ensures fits { Fits result s.now }
{
    if let Some(aid) = headed(b"(open 0 00000000 ", b"(open 9 99999999 ", s) {
        return Some(Line::Open {
            mode: digit_in(s, 6),
            date: date_in(s),
            aid,
        });
    }
    if let Some(answer) = headed(b"(answer ", b"(answer ", s) {
        return Some(Line::Answer(answer));
    }
    if let Some(fascn) = headed(b"(verdict 0 0 ", b"(verdict 9 9 ", s) {
        return Some(Line::Verdict {
            kind: digit_in(s, 9),
            yes: digit_in(s, 11),
            fascn,
        });
    }
    None
}

// What a line is; a longer line is of no form.
#[tactic(auto, unfolding(crate::specs::Line::line_in, ccl::specs::Line::card_of))]
pub fn read(s: &[u8]) -> Option<Line>
    ensures is { line_by result ≡ line_in s.now }
    ensures fits { Fits result s.now }
{
    if LONGEST < s.len() {
        return None;
    }
    match line::card_key(s) {
        Some(key) => Some(Line::Card(key)),
        None => call_line(s),
    }
}
