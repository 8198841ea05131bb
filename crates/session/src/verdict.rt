// Verdict: the host's verdict on a check.
ghost use Rattle.std.specs.Prelude.{◌≡◌};
ghost use Rattle.common.specs.Refusal.{number_in};
ghost use Rattle.session.specs.Tables.{outcome_number, verdict_outcome};
ghost use Rattle.session.specs.Operation.{refusal_number, given, verdict_refusal, verdict_taken_session, verdict_of};
ghost use Rattle.session.specs.Promise.{VerdictPromise};

use crate::figures::Outcome;
use crate::state::{Answered, Refusal, Session};
use crate::tables;
use card::fascn;

// 3 for a no; 2 for a yes on the card's own bytes, 4 for a yes on others.
#[tactic(auto, unfolding(crate::specs::Tables::verdict_outcome))]
fn verdict_outcome(own: &[u8], yes: u8, fascn: &[u8]) -> Outcome
    ensures { outcome_number result ≡ verdict_outcome own.now yes fascn.now }
{
    if yes == 0 {
        Outcome::Failed
    } else if fascn::equal(fascn, own) {
        Outcome::Passed
    } else {
        Outcome::OtherCard
    }
}

// kind and yes are u8, and no enums: any byte may come from the host, and 10 and 11 refuse it. They stand beside the
// FASC-N as the call gives them: a struct would be built here only to be taken apart.
impl Session {
    #[tactic(auto, using(crate::proofs::CallLaws::unpack_test), unfolding(crate::specs::Operation::verdict_refusal))]
    pub(crate) fn verdict_refusal(&self, kind: u8, yes: u8, fascn: &[u8]) -> Result<(), Refusal>
        ensures { number_in refusal_number result ≡ verdict_refusal self.now kind yes fascn.now }
    {
        let check = tables::check_served(kind);
        if self.out_of_range() {
            Err(Refusal::OutOfRange)
        } else if self.progress.step != 3 {
            Err(Refusal::NotAllRead)
        } else if !tables::good_kind(kind) {
            Err(Refusal::UnknownKind)
        } else if 1 < yes {
            Err(Refusal::UnknownVerdict)
        } else if fascn::unpack(fascn).is_err() {
            Err(Refusal::WrongFascn)
        } else if !tables::needs(self.opening.mode, check) {
            Err(Refusal::NotNeeded)
        } else if tables::outcome_of(self.outcomes, check) != Outcome::Awaited as u8 {
            Err(Refusal::AlreadyGiven)
        } else {
            Ok(())
        }
    }

    // The outcome of the verdict's check is set.
    #[tactic(auto, unfolding(crate::specs::Operation::verdict_taken_session))]
    pub(crate) fn take_verdict(self, kind: u8, yes: u8, fascn: &[u8]) -> Session
        ensures { result ≡ verdict_taken_session self kind yes fascn.now }
    {
        let outcome = verdict_outcome(&self.card.fascn, yes, fascn);
        let check = tables::check_served(kind);
        Session {
            outcomes: tables::with_outcome(self.outcomes, check, outcome),
            ..self
        }
    }

    // The host's verdict: kind 1 to 5, no (0) or yes (1), and the 25 bytes of the FASC-N that it is on.
    pub fn verdict(self, kind: u8, yes: u8, fascn: &[u8]) -> Answered<()>
        ensures result_value { given result ≡ verdict_of self kind yes fascn.now }
        ensures for_every_list { VerdictPromise self kind yes fascn.now (number_in refusal_number result.reply) result.session }
    {
        match self.verdict_refusal(kind, yes, fascn) {
            Ok(()) => Answered::accepted(self.take_verdict(kind, yes, fascn), ()),
            Err(refusal) => Answered::refused(self, refusal),
        }
    }
}
