// Open: a session from mode, date and AID. They go on as the call gives them: a struct would be built only to be taken
// apart.
ghost use Rattle.std.specs.Prelude.{◌≡◌, ◌≤◌, length};
ghost use Rattle.card.specs.Command.{aid_most};
ghost use Rattle.common.specs.Refusal.{number_in};
ghost use Rattle.session.specs.Operation.{refusal_number, given, no_card, dead, opened, open_refusal, open_of};
ghost use Rattle.session.specs.Promise.{OpenPromise};

use crate::figures::CHECKS;
use crate::state::{Answered, Card, Refusal, Session, SessionOpening};
use crate::{arrays, progress, tables};
use card::command::{AID_MOST, good_aid};
use card::date;
use card::fascn::counts::FASCN_BYTES;
use card::object::{EMPTY, FIELDS};

// What a card has given before it is read.
fn no_card() -> Card
    ensures { result ≡ no_card }
{
    Card {
        fascn: [0; FASCN_BYTES],
        expiry: 0,
        step1: [EMPTY; FIELDS],
        step2: EMPTY,
    }
}

// The dead session, all zeros: no session is open.
pub fn dead_session() -> Session
    ensures { result ≡ dead }
{
    Session {
        opening: SessionOpening {
            mode: 0,
            date: 0,
            aid: [0; AID_MOST],
            aid_len: 0,
        },
        progress: progress::at_step(0),
        outcomes: [0; CHECKS],
        card: no_card(),
    }
}

#[tactic(auto, unfolding(crate::specs::Operation::open_refusal))]
fn open_refusal(mode: u8, date: u32, aid: &[u8]) -> Result<(), Refusal>
    ensures { number_in refusal_number result ≡ open_refusal mode date aid.now }
{
    if !tables::mode_opens(mode) {
        Err(Refusal::WrongMode)
    } else if !date::real(date) {
        Err(Refusal::UnrealDate)
    } else if !good_aid(aid.len()) {
        Err(Refusal::WrongAid)
    } else {
        Ok(())
    }
}

#[tactic(auto, unfolding(crate::specs::Operation::opened))]
fn opened(mode: u8, date: u32, aid: &[u8]) -> Session
    requires { length aid.now ≤ aid_most }
    ensures { result ≡ opened mode date aid.now }
{
    Session {
        opening: SessionOpening {
            mode,
            date,
            aid: arrays::array(aid),
            aid_len: aid.len(),
        },
        progress: progress::at_step(0),
        outcomes: tables::needed_outcomes(mode),
        card: no_card(),
    }
}

// A session freshly opened; the dead session where the opening is refused.
pub fn open(mode: u8, date: u32, aid: &[u8]) -> Answered<()>
    ensures result_value { given result ≡ open_of mode date aid.now }
    ensures for_every_list { OpenPromise mode date aid.now (number_in refusal_number result.reply) result.session }
{
    match open_refusal(mode, date, aid) {
        Ok(()) => Answered::accepted(opened(mode, date, aid), ()),
        Err(refusal) => Answered::refused(dead_session(), refusal),
    }
}
