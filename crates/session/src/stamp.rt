// Stamp: 46 bytes that say what was found.
ghost use Rattle.std.specs.Prelude.{◌≡◌, ◌≤◌, length};
ghost use Rattle.common.specs.Lists.{over_front};
ghost use Rattle.common.specs.Refusal.{refusal_of, number_in};
ghost use Rattle.session.specs.Tables.{since, status_shown, stamp_size};
ghost use Rattle.session.specs.Condition.{stamp_conditions};
ghost use Rattle.session.specs.Operation.{refusal_number, given, stamp_refusal, stamp_head, stamp_in, stamp_answer, stamp_buffer};
ghost use Rattle.session.specs.Promise.{StampPromise};

use crate::figures::{DATE_AT, EXPIRY_AT, FASCN_AT, HEAD, OUTCOMES_AT, STAMP};
use crate::state::{Answered, Cause, Refusal, Session};
use crate::{arrays, tables};
use common::slice;

// A byte of the status word, 00 unless the cause is 16.
pub(crate) fn status_shown(cause: u8, sw: u8) -> u8
    ensures { result ≡ status_shown cause sw }
{
    if cause == Cause::Status as u8 { sw } else { 0 }
}

// Whether a buffer of so many bytes has room for the stamp: 6 where it has not.
#[tactic(auto, unfolding(crate::specs::Tables::stamp_size))]
pub(crate) fn room_refusal(room: usize) -> Result<(), Refusal>
    ensures { number_in refusal_number result ≡ refusal_of (stamp_conditions since room) }
{
    if room < STAMP {
        Err(Refusal::ShortBuffer)
    } else {
        Ok(())
    }
}

impl Session {
    #[tactic(auto, unfolding(crate::specs::Operation::stamp_refusal))]
    fn stamp_refusal(&self, room: usize) -> Result<(), Refusal>
        ensures { number_in refusal_number result ≡ stamp_refusal self.now room }
    {
        if self.out_of_range() {
            Err(Refusal::OutOfRange)
        } else {
            room_refusal(room)
        }
    }

    // Mode, standing, cause, status word and step.
    #[tactic(auto, unfolding(crate::specs::Operation::stamp_head))]
    fn stamp_head(&self) -> [u8; HEAD]
        ensures { result ≡ stamp_head self.now }
    {
        let mode = self.opening.mode;
        let p = self.progress;
        let cause = tables::cause_of(p.cause, self.outcomes);
        let standing = tables::standing_of(mode, p.step, cause, self.outcomes).number();
        let sw1 = status_shown(p.cause, p.sw1);
        let sw2 = status_shown(p.cause, p.sw2);
        [mode, standing, cause, sw1, sw2, p.step]
    }

    pub(crate) fn write_stamp(&self, out: &mut [u8])
        requires { stamp_size since ≤ length out.old }
        ensures { out.new ≡ over_front (stamp_in self.now) out.old }
    {
        let head = self.stamp_head();
        let date = self.opening.date.to_be_bytes();
        let expiry = self.card.expiry.to_be_bytes();
        arrays::sized(self.outcomes);
        arrays::sized(self.card.fascn);
        slice::store(out, 0, &head);
        slice::store(out, OUTCOMES_AT, &self.outcomes);
        slice::store(out, DATE_AT, &date);
        slice::store(out, FASCN_AT, &self.card.fascn);
        slice::store(out, EXPIRY_AT, &expiry);
    }

    // The stamp, written to the first 46 bytes of out. The session is handed back as it was.
    pub fn stamp(self, out: &mut [u8]) -> Answered<()>
        ensures result_value { given result ≡ stamp_answer self (length out.old) }
        ensures out_after { out.new ≡ stamp_buffer self out.old }
        ensures for_every_list { StampPromise self out.old out.new (number_in refusal_number result.reply) result.session }
    {
        match self.stamp_refusal(out.len()) {
            Ok(()) => {
                self.write_stamp(out);
                Answered::accepted(self, ())
            }
            Err(refusal) => Answered::refused(self, refusal),
        }
    }
}
