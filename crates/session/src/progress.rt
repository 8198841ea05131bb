// A session's progress: a step begins, it goes on with a command next, a cause ends the reading.
ghost use Rattle.std.specs.Prelude.{◌≡◌, ◌+◌, ◌<◌, ◌^◌};
ghost use Rattle.session.specs.Operation.{sent_again, with_session_progress, progress_at_step, progress_stopped, progress_continued};

use crate::state::{Next, Session, SessionProgress};

// A step begins.
pub(crate) fn at_step(step: u8) -> SessionProgress
    ensures { result ≡ progress_at_step step }
{
    SessionProgress {
        step,
        filled: 0,
        outstanding: false,
        next: Next::Initial,
        cause: 0,
        sw1: 0,
        sw2: 0,
    }
}

// The same command, to be sent again with another last byte. InitialAgain and GetResponseAgain do not arise as `next`:
// a 6C to a command that was sent again is cause 16.
pub(crate) fn sent_again(next: Next, last: u8) -> Next
    ensures { result ≡ sent_again next last }
{
    match next {
        Next::Initial | Next::InitialAgain(_) => Next::InitialAgain(last),
        Next::GetResponse(_) | Next::GetResponseAgain(_) => Next::GetResponseAgain(last),
    }
}

impl Session {
    // sw1 and sw2 are two bytes, as the stamp and an image have them.
    // A cause ends the reading, with so many bytes of the step's data in the object buffer.
    pub(crate) fn stopped(self, filled: usize, cause: u8, sw1: u8, sw2: u8) -> Self
        ensures { result ≡ with_session_progress self (progress_stopped self.progress filled cause sw1 sw2) }
    {
        Self {
            progress: SessionProgress {
                filled,
                outstanding: false,
                cause,
                sw1,
                sw2,
                ..self.progress
            },
            ..self
        }
    }

    // The step goes on, n bytes being appended, with this command next.
    pub(crate) fn continued(self, n: usize, next: Next) -> Self
        requires { self.progress.filled + n < 2 ^ 64 }
        ensures { result ≡ with_session_progress self (progress_continued self.progress n next) }
    {
        let filled = self.progress.filled + n;
        Self {
            progress: SessionProgress {
                filled,
                next,
                ..at_step(self.progress.step)
            },
            ..self
        }
    }
}
