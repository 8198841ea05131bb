// Answer: the card's answer to the outstanding command.
ghost use Rattle.std.specs.Prelude.{◌≡◌, ◌+◌, ◌≤◌, ◌<◌, ◌^◌, length, None};
ghost use Rattle.common.specs.Refusal.{number_in, answer_in};
ghost use Rattle.session.specs.Tables.{capacity, object_size, status_size, answer_most};
ghost use Rattle.session.specs.Operation.{refusal_number, cause_number, given, answer_refusal, rules_of, answer_taken_session, answer_taken_buffer, answer_of, answer_buffer};
ghost use Rattle.session.specs.Promise.{AnswerPromise};

use crate::figures::{ANSWER_MOST, OBJECT, STATUS};
use crate::state::{Answered, Cause, Next, Refusal, Session};
use crate::{progress, stamp, tables};
use card::command;
use card::command::Status;
use common::refusal::Numbered;
use common::slice;

impl Session {
    #[tactic(auto, unfolding(crate::specs::Operation::answer_refusal, crate::specs::Tables::object_size))]
    fn answer_refusal(&self, size: usize, n: usize) -> Result<(), Refusal>
        ensures { number_in refusal_number result ≡ answer_refusal self.now size n }
    {
        if self.out_of_range() {
            Err(Refusal::OutOfRange)
        } else if !self.progress.outstanding {
            Err(Refusal::OutOfTurn)
        } else if size != OBJECT {
            Err(Refusal::WrongObjectBuffer)
        } else if !(STATUS..=ANSWER_MOST).contains(&n) {
            Err(Refusal::WrongAnswerLength)
        } else {
            Ok(())
        }
    }

    // Rules 1 to 3 of an answer with n bytes of data, the first that fits: its cause; or, where none does, the command
    // that is next: after 61 GET RESPONSE, after 6C the same command again, after 90 00 none, as the step's data is
    // complete.
    fn next_after(self, status: Status, n: usize) -> Result<Option<Next>, Cause>
        requires { self.progress.filled + n < 2 ^ 64 }
        ensures { answer_in cause_number None result ≡ rules_of self status n }
    {
        let next = self.progress.next;
        let after = match status {
            Status::Done => None,
            Status::More(_) if (n == 0) & next.is_response() => return Err(Cause::Empty),
            Status::More(second) => Some(Next::GetResponse(second)),
            Status::Again(_) if next.is_sent_again() | (n != 0) => return Err(Cause::Status),
            Status::Again(last) => Some(progress::sent_again(next, last)),
            Status::Other => return Err(Cause::Status),
        };
        if tables::capacity(self.opening.mode, self.progress.step) < self.progress.filled + n {
            return Err(Cause::Full);
        }
        Ok(after)
    }

    // An answer that is accepted. The part of the object buffer from the step's base plus filled on is lent on for
    // appending; where no command is next the step's joined data is judged.
    fn take_answer(
        self,
        object: &mut [u8],
        bytes: &[u8],
        status: &[u8],
        cancelled: &[u64],
    ) -> Session
        requires { (length object.old ≡ object_size) × (length bytes.now ≤ answer_most) × (length status.now ≡ status_size) × (self.progress.filled ≤ capacity self.opening.mode self.progress.step) }
        ensures value { result ≡ answer_taken_session self object.old bytes.now status.now cancelled.now }
        ensures object_after { object.new ≡ answer_taken_buffer self object.old bytes.now status.now }
    {
        let n = bytes.len();
        let filled = self.progress.filled;
        match self.next_after(command::status_of(status), n) {
            Ok(after) => {
                let base = tables::base_of(self.progress.step);
                let at = base + filled;
                slice::store(object, at, bytes);
                match after {
                    Some(next) => self.continued(n, next),
                    None => self.judge(&object[base..at + n], cancelled),
                }
            }
            Err(cause) => {
                let cause = cause.number();
                let sw1 = stamp::status_shown(cause, status[0]);
                let sw2 = stamp::status_shown(cause, status[1]);
                self.stopped(filled, cause, sw1, sw2)
            }
        }
    }

    // The answer's data is appended in the object buffer, and judged where it is the step's last.
    pub fn answer(self, object: &mut [u8], answer: &[u8], cancelled: &[u64]) -> Answered<()>
        ensures result_value { given result ≡ answer_of self object.old answer.now cancelled.now }
        ensures object_after { object.new ≡ answer_buffer self object.old answer.now }
        ensures for_every_list { AnswerPromise self object.old answer.now cancelled.now object.new (number_in refusal_number result.reply) result.session }
    {
        match self.answer_refusal(object.len(), answer.len()) {
            Ok(()) => {
                let (bytes, status) = answer.split_at(answer.len() - STATUS);
                Answered::accepted(self.take_answer(object, bytes, status, cancelled), ())
            }
            Err(refusal) => Answered::refused(self, refusal),
        }
    }
}
