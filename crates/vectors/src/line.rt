// The parts of a line `PLACE: CALL HEX`, and the text that it gives.
#![tactic(auto, using(append::proofs::AppendLaws::texts), unfolding(crate::specs::Line::line_text, crate::specs::Line::answer_of_line, crate::specs::Line::call_text, crate::specs::Answer::named_text))]

ghost use Rattle.std.specs.Prelude.{◌≡◌, ◌*◌, ◌≤◌, length};
ghost use Rattle.text.specs.Hex.{bytes_in};
ghost use Rattle.vectors.specs.Answer.{call_named, named_text};
ghost use Rattle.vectors.specs.Line.{most_bytes, call_text, answer_of_line, line_text};
ghost use Rattle.vectors.specs.Out.{with_text};

use crate::{Out, answer, refusal};
use common::slice;
use text::hex;

// More bytes than a line of the program's block spells; `most_bytes` in the definitions.
const BYTES: usize = 65536;

// The answer of the call of that name for the bytes that the digits spell, pairs of digits and not too many.
fn add_spelled(out: &mut Out, name: &[u8], digits: &[u8])
    requires { length digits.now ≤ 2 * most_bytes }
    ensures { out.new ≡ with_text out.old (named_text (call_named name.now) (bytes_in digits.now)) }
{
    let mut b = [0u8; BYTES];
    let n = hex::read(digits, &mut b);
    match answer::call_of(name) {
        Some(call) => answer::answer(out, call, &b[..n]),
        None => refusal::add_no_vector(out),
    }
}

// The answer of the call of that name for the bytes that the digits spell.
fn add_call(out: &mut Out, name: &[u8], digits: &[u8])
    ensures { out.new ≡ with_text out.old (call_text name.now digits.now) }
{
    if hex::is_hex(digits) && digits.len() <= 2 * BYTES {
        add_spelled(out, name, digits);
    } else {
        refusal::add_no_vector(out);
    }
}

// The answer of a line.
fn add_answer_of(out: &mut Out, s: &[u8])
    ensures { out.new ≡ with_text out.old (answer_of_line s.now) }
{
    let named = slice::after(s, slice::before_first(s, b':') + 2);
    let n = slice::before_first(named, b' ');
    add_call(out, slice::front(named, n), slice::after(named, n + 1));
}

// A line, and what its call says.
pub(crate) fn add_line(out: &mut Out, s: &[u8])
    ensures { out.new ≡ with_text out.old (line_text s.now) }
{
    out.add(s);
    out.add(b" gives ");
    add_answer_of(out, s);
    out.add(b"\n");
}
