// The text of what the look-up of a typed number in a visual list says.
#![tactic(auto, using(append::proofs::AppendLaws::texts), unfolding(crate::specs::VisualText::malformed_text, crate::specs::VisualText::text_of_lookup, crate::specs::VisualText::looked_up_text))]

ghost use Rattle.std.specs.Prelude.{◌≡◌};
ghost use Rattle.ccl.specs.Visual.{typed_answer};
ghost use Rattle.vectors.specs.Out.{with_text};
ghost use Rattle.vectors.specs.VisualText.{malformed_text, text_of_lookup, looked_up_text};

use crate::{Out, refusal};
use ccl::visual;
use ccl::visual::LookUpError;
use common::slice;

// The text of a refused look-up: its number, and beside refusal 24 the number of the malformed line.
fn add_error(out: &mut Out, error: LookUpError)
    ensures { out.new ≡ with_text out.old (text_of_lookup (typed_answer (Err error))) }
{
    refusal::add_refused(out, error);
    if let LookUpError::Malformed(line) = error {
        out.add(b" line ");
        out.add_decimal(line as u64);
    }
}

// What look_up says; the line spells the entry, 00, and the text of the list.
pub(crate) fn add_looked_up(out: &mut Out, s: &[u8])
    ensures { out.new ≡ with_text out.old (looked_up_text s.now) }
{
    let n = slice::before_first(s, 0);
    match visual::look_up(slice::front(s, n), slice::after(s, n + 1)) {
        Ok(true) => out.add(b"yes"),
        Ok(false) => out.add(b"no"),
        Err(error) => add_error(out, error),
    }
}
