// The answers that more than one call gives: `refused N`, `cause N` and `no vector`.
#![tactic(auto, using(append::proofs::AppendLaws::texts), unfolding(crate::specs::RefusalText::refusal_text, crate::specs::RefusalText::cause_text, crate::specs::RefusalText::no_vector))]

ghost use Rattle.std.specs.Prelude.{◌≡◌};
ghost use Rattle.vectors.specs.Out.{with_text};
ghost use Rattle.vectors.specs.RefusalText.{refusal_text, cause_text, no_vector};

use crate::Out;
use common::refusal::Numbered;

// `refused N`. It differs from `add_cause` in a word alone: two functions, so that no caller spells the word.
pub(crate) fn add_refused<E: Numbered>(out: &mut Out, error: E)
    ensures { out.new ≡ with_text out.old (refusal_text (E.number_of error)) }
{
    out.add(b"refused ");
    out.add_decimal(u64::from(error.number()));
}

// `cause N`.
pub(crate) fn add_cause<E: Numbered>(out: &mut Out, error: E)
    ensures { out.new ≡ with_text out.old (cause_text (E.number_of error)) }
{
    out.add(b"cause ");
    out.add_decimal(u64::from(error.number()));
}

// `no vector`.
pub(crate) fn add_no_vector(out: &mut Out)
    ensures { out.new ≡ with_text out.old no_vector }
{
    out.add(b"no vector");
}
