// What a call gives through a pointer: a value, where the call is accepted.
ghost use Rattle.std.specs.Prelude.{◌≡◌};
ghost use Rattle.common.specs.Refusal.{number_in, value_in};

use common::refusal::Numbered;

// The number of an answer; its value, where it has one, is written to `out`.
pub(crate) fn write_value<T: Copy, E: Numbered>(answer: Result<T, E>, out: &mut T) -> u8
    ensures number { result ≡ number_in E.number_of answer }
    ensures is { out.new ≡ value_in out.old answer }
{
    match answer {
        Ok(value) => {
            *out = value;
            0
        }
        Err(e) => e.number(),
    }
}
