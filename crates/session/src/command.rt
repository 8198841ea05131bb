// Command: the next command's bytes.
ghost use Rattle.std.specs.Prelude.{◌≡◌, true, cond, eqb, length};
ghost use Rattle.common.specs.Refusal.{number_in, value_in};
ghost use Rattle.card.specs.Command as card-command;
ghost use Rattle.session.specs.Condition.{nothing_to_send};
ghost use Rattle.session.specs.Ranges.{in_range};
ghost use Rattle.session.specs.Operation.{refusal_number, command_given, initial_in, command_in, progress_sending, with_session_progress, command_of, command_buffer};
ghost use Rattle.session.specs.Promise.{CommandPromise};

use crate::state::{Answered, Next, Refusal, Session};
use crate::{arrays, tables};
use card::command;
use card::command::{CommandError, FIRST_LE};

impl Session {
    // Whether there is nothing to send: step 3, a cause of 16 to 22, or a command outstanding.
    fn nothing_to_send(&self) -> bool
        ensures { result ≡ nothing_to_send self.now.progress.step self.now.progress.cause self.now.progress.outstanding }
    {
        ((self.progress.step == 3) | tables::ends(self.progress.cause)) | self.progress.outstanding
    }

    // The step's command, SELECT or GET DATA, with a last byte, written to the front of out where it fits.
    fn write_initial(&self, last: u8, out: &mut [u8]) -> Result<usize, CommandError>
        requires { in_range self.now ≡ true }
        ensures { (card-command.command_answer result, out.new) ≡ card-command.command_into (card-command.with_last (initial_in self.now) last) out.old }
    {
        let step = self.progress.step;
        if step == 0 {
            arrays::sized(self.opening.aid);
            command::select(&self.opening.aid[..self.opening.aid_len], last, out)
        } else {
            command::get_data(tables::kind_at(self.opening.mode, step), last, out)
        }
    }

    // The next command, written to the front of out where it fits.
    fn write_command(&self, out: &mut [u8]) -> Result<usize, CommandError>
        requires { in_range self.now ≡ true }
        ensures { (card-command.command_answer result, out.new) ≡ card-command.command_into (command_in self.now) out.old }
    {
        match self.progress.next {
            Next::Initial => self.write_initial(FIRST_LE, out),
            Next::GetResponse(second) => command::get_response(second, out),
            Next::InitialAgain(last) => self.write_initial(last, out),
            Next::GetResponseAgain(last) => command::get_response(last, out),
        }
    }

    // The next command, written to the front of out; the count of its bytes.
    fn command_sent(&self, out: &mut [u8]) -> Result<usize, Refusal>
        ensures number { number_in refusal_number result ≡ (command_of self.now (length out.old)).0 }
        ensures count { value_in 0 result ≡ (command_of self.now (length out.old)).1 }
        ensures out_after { out.new ≡ command_buffer self.now out.old }
    {
        if self.out_of_range() {
            return Err(Refusal::OutOfRange);
        }
        if self.nothing_to_send() {
            return Err(Refusal::OutOfTurn);
        }
        let count = self.write_command(out)?;
        Ok(count)
    }

    // The next command is written to the front of out, and is outstanding.
    pub fn command(self, out: &mut [u8]) -> Answered<usize>
        ensures result_value { command_given result ≡ command_of self (length out.old) }
        ensures out_after { out.new ≡ command_buffer self out.old }
        ensures for_every_list { CommandPromise self out.old out.new (number_in refusal_number result.reply) (value_in 0 result.reply) result.session }
    {
        match self.command_sent(out) {
            Ok(count) => {
                let mut session = self;
                session.progress.outstanding = true;
                Answered::accepted(session, count)
            }
            Err(refusal) => Answered::refused(self, refusal),
        }
    }
}
