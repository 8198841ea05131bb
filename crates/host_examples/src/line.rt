// The text of a line: a word, numbers in decimal and bytes in hexadecimal, each after a space.
#![tactic(auto, using(append::proofs::AppendLaws::texts), unfolding(crate::specs::LineText::number_part, crate::specs::LineText::bytes_part, crate::specs::LineText::line_text))]

ghost use Rattle.std.specs.Prelude.{◌≡◌, [], ◌∷◌, ◌++◌};
ghost use Rattle.append.specs.Append.{added};
ghost use Rattle.host_examples.specs.LineText.{line_most, number_part, numbers_part, bytes_part, line_text};

use crate::LINE_MOST;
use append::Text;

// A number.
fn add_number(out: &mut Text<LINE_MOST>, n: u64)
    ensures { out.new ≡ added line_most out.old (number_part n) }
{
    out.add(b" ");
    out.add_decimal(n);
}

// A word, and numbers, one after another.
fn add_numbers(out: &mut Text<LINE_MOST>, word: &[u8], numbers: &[u64])
    ensures { out.new ≡ added line_most out.old (word.now ++ numbers_part numbers.now) }
{
    out.add(word);
    for n in numbers {
        add_number(out, *n);
    }
}

// Bytes; nothing where there are none. The line ends.
fn add_bytes(out: &mut Text<LINE_MOST>, bytes: &[u8])
    ensures { out.new ≡ added line_most out.old (bytes_part bytes.now ++ (0x0A ∷ [])) }
{
    if !bytes.is_empty() {
        out.add(b" ");
        out.add_hex(bytes);
    }
    out.add(b"\n");
}

// The line, after what stands in the buffer.
pub(crate) fn add_line(out: &mut Text<LINE_MOST>, word: &[u8], numbers: &[u64], bytes: &[u8])
    ensures { out.new ≡ added line_most out.old (line_text word.now numbers.now bytes.now) }
{
    add_numbers(out, word, numbers);
    add_bytes(out, bytes);
}
