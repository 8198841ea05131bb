// The joined data of a step, judged once 90 00 has come: its cause, or the next step. joined and cancelled are what an
// answer lends: no struct keeps them.
ghost use Rattle.std.specs.Prelude.{◌≡◌, ◌+◌};
ghost use Rattle.common.specs.Refusal.{answer_in};
ghost use Rattle.card.specs.Object.{object_of, field_value};
ghost use Rattle.session.specs.Tables.{outcome_number, expiry_outcome, list_outcome, with_outcome};
ghost use Rattle.session.specs.Operation.{cause_number, good_end_of, judged_session};

use crate::figures::{CHECKS, Outcome};
use crate::state::{Card, Cause, Session};
use crate::{arrays, field, progress, tables};
use card::fascn::Key;
use card::object::{BIOMETRIC_TAG, EXPIRY_TAG, FASCN_TAG, FIELDS, Kind, Part};
use card::{date, fascn, object, template};
use common::refusal::Numbered;

#[tactic(auto, unfolding(crate::specs::Tables::expiry_outcome))]
fn expiry_outcome(date: u32, expiry: u32) -> Outcome
    ensures { outcome_number result ≡ expiry_outcome date expiry }
{
    if date <= expiry {
        Outcome::Passed
    } else {
        Outcome::Failed
    }
}

#[tactic(auto, unfolding(crate::specs::Tables::list_outcome))]
fn list_outcome(key: Key, cancelled: &[u64]) -> Outcome
    ensures { outcome_number result ≡ list_outcome key.0 cancelled.now }
{
    if key.listed(cancelled) {
        Outcome::Failed
    } else {
        Outcome::Passed
    }
}

// The value of a field of the object s, whose parts are given.
fn field_value<'a>(kind: Kind, parts: [Part; FIELDS], s: &'a [u8], tag: u8) -> &'a [u8]
    requires { (object_of kind s.now).1 ≡ parts }
    ensures { result.now ≡ field_value kind tag s.now }
{
    field::cut(s, object::part_of(kind, parts, tag))
}

// Checks 3 and 4 are set, by expiry and key.
fn judged_outcomes(
    o: [u8; CHECKS],
    date: u32,
    expiry: u32,
    key: Key,
    cancelled: &[u64],
) -> [u8; CHECKS]
    ensures { result ≡ with_outcome (with_outcome o 3 (expiry_outcome date expiry)) 4 (list_outcome key.0 cancelled.now) }
{
    let in_time = expiry_outcome(date, expiry);
    let clear = list_outcome(key, cancelled);
    let dated = tables::with_outcome(o, 3, in_time);
    tables::with_outcome(dated, 4, clear)
}

impl Session {
    // Step 0's data is a template: step 1 begins. `cancelled` is there for the clause, which all three ends share.
    fn step0_end(self, joined: &[u8], cancelled: &[u64]) -> Result<Session, Cause>
        requires { self.progress.step ≡ 0 }
        ensures { answer_in cause_number self result ≡ good_end_of self joined.now cancelled.now }
    {
        template::template(joined)?;
        Ok(Session {
            progress: progress::at_step(1),
            ..self
        })
    }

    // Step 1's object is good, and so are its FASC-N and its date: checks 3 and 4 are set.
    fn step1_end(self, joined: &[u8], cancelled: &[u64]) -> Result<Session, Cause>
        requires { self.progress.step ≡ 1 }
        ensures { answer_in cause_number self result ≡ good_end_of self joined.now cancelled.now }
    {
        let opening = self.opening;
        let kind = tables::kind_at(opening.mode, 1);
        let step1 = object::parse(kind, joined)?;
        let bytes = field_value(kind, step1, joined, FASCN_TAG);
        let digits = fascn::unpack(bytes)?;
        let expiry = date::read(field_value(kind, step1, joined, EXPIRY_TAG))?;
        let key = fascn::key_of(digits);
        let outcomes = judged_outcomes(self.outcomes, opening.date, expiry, key, cancelled);
        let progress = progress::at_step(tables::step_after(opening.mode, 1));
        let fascn = arrays::array(bytes);
        let card = Card {
            fascn,
            expiry,
            step1,
            ..self.card
        };
        Ok(Session {
            opening,
            progress,
            outcomes,
            card,
        })
    }

    // Step 2's object is good: where its field BC lies is kept. `cancelled` is there for the clause, as in step0_end.
    fn step2_end(self, joined: &[u8], cancelled: &[u64]) -> Result<Session, Cause>
        requires { (self.progress.step ≡ 0 → ⊥) × (self.progress.step ≡ 1 → ⊥) }
        ensures { answer_in cause_number self result ≡ good_end_of self joined.now cancelled.now }
    {
        let kind = tables::kind_at(self.opening.mode, self.progress.step);
        let parts = object::parse(kind, joined)?;
        let card = Card {
            step2: object::part_of(kind, parts, BIOMETRIC_TAG),
            ..self.card
        };
        Ok(Session {
            progress: progress::at_step(3),
            card,
            ..self
        })
    }

    // The good end of the step, or the cause of its joined data. A match: the three ends share no step that a closure
    // could be given.
    fn good_end(self, joined: &[u8], cancelled: &[u64]) -> Result<Session, Cause>
        ensures { answer_in cause_number self result ≡ good_end_of self joined.now cancelled.now }
    {
        match self.progress.step {
            0 => self.step0_end(joined, cancelled),
            1 => self.step1_end(joined, cancelled),
            _ => self.step2_end(joined, cancelled),
        }
    }

    // The step's joined data is judged.
    pub(crate) fn judge(self, joined: &[u8], cancelled: &[u64]) -> Session
        ensures { result ≡ judged_session self joined.now cancelled.now }
    {
        match self.good_end(joined, cancelled) {
            Ok(session) => session,
            Err(cause) => self.stopped(joined.len(), cause.number(), 0, 0),
        }
    }
}
