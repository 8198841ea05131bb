// The ranges of a session's values: exactly those that document 01 lists.
ghost use Rattle.std.specs.Prelude.{◌≡◌, not, ◌||◌, ◌≤◌, eqb};
ghost use Rattle.card.specs.Date.{real_date};
ghost use Rattle.session.specs.Tables.{object_size};
ghost use Rattle.session.specs.Ranges.{outcomes_in_range, part_inside, parts_inside, values_in_range, ranged_values, out_of_range};

use crate::figures::{CHECKS, OBJECT, Outcome};
use crate::state::Session;
use crate::tables;
use card::command::good_aid;
use card::date;
use card::object::{FIELDS, Part};

fn outcomes_in_range(o: [u8; CHECKS]) -> bool
    ensures { result ≡ outcomes_in_range o }
{
    o.iter().all(|outcome| *outcome <= Outcome::OtherCard as u8)
}

// Whether a part of a step's data, which begins at `base`, lies inside the object buffer.
fn part_inside(base: usize, p: Part) -> bool
    requires { base ≤ object_size }
    ensures { result ≡ part_inside base p }
{
    base + (p.start as usize) + (p.len as usize) <= OBJECT
}

fn parts_inside(base: usize, parts: [Part; FIELDS]) -> bool
    requires { base ≤ object_size }
    ensures { result ≡ parts_inside base parts }
{
    parts.iter().all(|p| part_inside(base, *p))
}

fn expiry_in_range(n: u32) -> bool
    ensures { result ≡ eqb n 0 || real_date n }
{
    (n == 0) || date::real(n)
}

// The values that have ranges; `inside` says that the field parts are inside. A call tests these few values: the
// definition `ranged_values` speaks of them, and the law of the ranges stands on it.
#[derive(Clone, Copy, Debug, PartialEq, Eq)]
pub(crate) struct Values {
    pub date: u32,
    pub expiry: u32,
    pub aid_len: usize,
    pub filled: usize,
    pub mode: u8,
    pub step: u8,
    pub cause: u8,
    pub outstanding: bool,
    pub inside: bool,
    pub outcomes: [u8; CHECKS],
}

impl Values {
    // Whether the session that they are of is dead or out of range.
    pub(crate) fn out_of_range(self) -> bool
        ensures { result ≡ not (values_in_range self) }
    {
        let o = self.outcomes;
        let opening = (tables::mode_in_range(self.mode) & date::real(self.date))
            & good_aid(self.aid_len);
        let cause = (self.cause == 0) | tables::ends(self.cause);
        let step = (self.step <= 3) & (!(self.step == 2) | tables::has_step2(self.mode));
        let sent = !self.outstanding | ((self.step <= 2) & (self.cause == 0));
        let progress = (step & (self.filled <= tables::capacity(self.mode, self.step)))
            & (cause & sent);
        let card = expiry_in_range(self.expiry) & self.inside;
        !((opening & progress) & (outcomes_in_range(o) & card))
    }
}

impl Session {
    pub(crate) fn values(self) -> Values
        ensures { result ≡ ranged_values self }
    {
        let inside = parts_inside(tables::base_of(1), self.card.step1)
            & part_inside(tables::base_of(2), self.card.step2);
        // A variable, since the kit proves no literal with another struct's array in it.
        let outcomes = self.outcomes;
        Values {
            date: self.opening.date,
            expiry: self.card.expiry,
            aid_len: self.opening.aid_len,
            filled: self.progress.filled,
            mode: self.opening.mode,
            step: self.progress.step,
            cause: self.progress.cause,
            outstanding: self.progress.outstanding,
            inside,
            outcomes,
        }
    }

    // Whether the session is dead or out of range.
    #[tactic(auto, unfolding(crate::specs::Ranges::in_range))]
    pub(crate) fn out_of_range(&self) -> bool
        ensures { result ≡ out_of_range self.now }
    {
        self.values().out_of_range()
    }
}
