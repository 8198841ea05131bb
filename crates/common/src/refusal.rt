// Why a call declines: the errors of all crates, each of which has a number of the papers.
ghost use Rattle.std.specs.Prelude.{◌≡◌, ℕ, false, eqb};
ghost use Rattle.common.specs.Refusal.{number_in};

// An error with the papers' number: that of a refusal, or of a cause. 0 is no error's number: it stands for an accepted
// call. Errors that differ in their number alone are types of their own all the same: `From` and `?` tell them apart.
pub trait Numbered: Copy {
    ghost number_of: { Self → ℕ };

    ghost never_zero: { (e : Self) → eqb (number_of e) 0 ≡ false };

    fn number(self) -> u8
        ensures { result ≡ number_of self };
}

// The number of an answer, 0 where the call is accepted.
pub fn number<T, E: Numbered>(answer: &Result<T, E>) -> u8
    ensures { result ≡ number_in E.number_of answer.now }
{
    match answer {
        Ok(_) => 0,
        Err(e) => e.number(),
    }
}
