// The session's values, by groups, and why its calls are refused.
ghost use Rattle.std.specs.Prelude.{◌≡◌, Ok, Err};
ghost use Rattle.card.specs.Command.{command_number};
ghost use Rattle.session.specs.declared.state.Cause.TheVariants as causes;
ghost use Rattle.session.specs.Tables.{is_response, is_sent_again};
ghost use Rattle.session.specs.Operation.{refusal_number, refusal_never_zero, cause_number, cause_never_zero, next_of};

use crate::figures::CHECKS;
use card::command::{AID_MOST, CommandError};
use card::date::UnrealDate;
use card::fascn::UnpackError;
use card::fascn::counts::FASCN_BYTES;
use card::object::{FIELDS, MalformedObject, Part};
use card::template::MalformedTemplate;
use common::refusal::Numbered;

// The command that is sent next: that of the step, SELECT or GET DATA; GET RESPONSE with the second status byte of the
// answer just taken; or one of the two again, after a 6C, with the last byte that the card asked for.
#[derive(Clone, Copy, Debug, PartialEq, Eq)]
pub enum Next {
    Initial,
    GetResponse(u8),
    InitialAgain(u8),
    GetResponseAgain(u8),
}

impl Next {
    // Whether it is GET RESPONSE, with whatever last byte.
    pub(crate) fn is_response(self) -> bool
        ensures { result ≡ is_response (next_of self) }
    {
        matches!(self, Next::GetResponse(_) | Next::GetResponseAgain(_))
    }

    // Whether it is a command that is sent again.
    pub(crate) fn is_sent_again(self) -> bool
        ensures { result ≡ is_sent_again (next_of self) }
    {
        matches!(self, Next::InitialAgain(_) | Next::GetResponseAgain(_))
    }
}

// What the opening gave: mode, date as the number YYYYMMDD, and the AID, the first `aid_len` bytes. aid and aid_len
// stand apart: any length may stand there, and refusal 4 speaks of it; an image keeps both.
#[derive(Clone, Copy, Debug, PartialEq, Eq)]
pub struct SessionOpening {
    pub mode: u8,
    pub date: u32,
    pub aid: [u8; AID_MOST],
    pub aid_len: usize,
}

// Where the reading of the card stands: the step, how many bytes of its data are in the object buffer, whether a
// command is outstanding, the next command, and the cause (16 to 22, or 0) with the status word of the answer that gave
// cause 16. filled is a count: the object buffer is the host's, lent anew with each answer.
#[derive(Clone, Copy, Debug, PartialEq, Eq)]
pub struct SessionProgress {
    pub step: u8,
    pub filled: usize,
    pub outstanding: bool,
    pub next: Next,
    pub cause: u8,
    pub sw1: u8,
    pub sw2: u8,
}

// What steps 1 and 2 gave: FASC-N and expiry (0 before step 1's good end), and where fields lie in their step's data:
// those of step 1's object, in the order of its rows, and of step 2's the one that can be asked for, BC. Zeros and no
// Option: an expiry in range is a real date or 0, and an image keeps any number (load_save).
#[derive(Clone, Copy, Debug, PartialEq, Eq)]
pub struct Card {
    pub fascn: [u8; FASCN_BYTES],
    pub expiry: u32,
    pub step1: [Part; FIELDS],
    pub step2: Part,
}

// A session. Outcomes stand in the order of the checks: 0 unneeded, 1 awaited, 2 passed, 3 failed, 4 other card.
#[derive(Clone, Copy, Debug, PartialEq, Eq)]
pub struct Session {
    pub opening: SessionOpening,
    pub progress: SessionProgress,
    pub outcomes: [u8; CHECKS],
    pub card: Card,
}

// Why a call is refused, with document 01's number of each.
#[derive(Clone, Copy, Debug, PartialEq, Eq)]
pub enum Refusal {
    // open: mode not 1 to 6
    WrongMode = 1,
    // open: date not real
    UnrealDate = 2,
    // open: AID not 5 to 16 bytes
    WrongAid = 3,
    // session dead or out of range
    OutOfRange = 4,
    // command: nothing to send, that is step 3, a cause of 16 to 22, or a command outstanding; answer: no command
    // outstanding
    OutOfTurn = 5,
    // command, stamp, preview: buffer too short
    ShortBuffer = 6,
    // answer: object buffer not 20,480 bytes
    WrongObjectBuffer = 7,
    // answer: under 2 or over 258 bytes
    WrongAnswerLength = 8,
    // verdict, preview: step not 3
    NotAllRead = 9,
    // verdict, preview: kind not 1 to 5
    UnknownKind = 10,
    // verdict, preview: neither 0 nor 1
    UnknownVerdict = 11,
    // verdict, preview: not 25 bytes, or ill-formed
    WrongFascn = 12,
    // verdict, preview: the mode does not need it
    NotNeeded = 13,
    // verdict, preview: of a kind that was given already
    AlreadyGiven = 14,
}

impl Numbered for Refusal {
    ghost number_of = { refusal_number };

    ghost never_zero = { refusal_never_zero };

    fn number(self) -> u8 {
        self as u8
    }
}

// A session handed back, and the answer: of a command call the count of bytes that it wrote, of the others no value. A
// refused call hands back the session as it was, and a refused opening the dead one: "A session goes in by value and the
// new one is handed back", and so the calls take no `&mut self`.
#[derive(Clone, Copy, Debug, PartialEq, Eq)]
pub struct Answered<T> {
    pub session: Session,
    pub reply: Result<T, Refusal>,
}

impl<T> Answered<T> {
    // An accepted call gives this session and this value.
    pub(crate) fn accepted(session: Session, value: T) -> Answered<T>
        ensures { result ≡ record { session = session; reply = Ok value } }
    {
        Answered {
            session,
            reply: Ok(value),
        }
    }

    // A refused call hands this session back.
    pub(crate) fn refused(session: Session, refusal: Refusal) -> Answered<T>
        ensures { result ≡ record { session = session; reply = Err refusal } }
    {
        Answered {
            session,
            reply: Err(refusal),
        }
    }
}

impl From<CommandError> for Refusal {
    ghost from_gives = { λ e r. refusal_number r ≡ command_number e };

    fn from(e: CommandError) -> Refusal {
        match e {
            CommandError::WrongAid => Refusal::WrongAid,
            CommandError::ShortBuffer => Refusal::ShortBuffer,
        }
    }
}

// Why a reading ends, with document 01's number of each: `status_cause`, `empty_cause`, `full_cause`, `fascn_cause`,
// and those of crate card's readers. A session keeps the number, 0 where no cause has come: any byte may stand there,
// and refusal 4 speaks of it.
#[derive(Clone, Copy, Debug, PartialEq, Eq)]
pub(crate) enum Cause {
    // a status word that ends the reading
    Status = 16,
    // 61 without data to GET RESPONSE
    Empty = 17,
    // a step's total past its capacity
    Full = 18,
    // template malformed
    Template = 19,
    // object malformed
    Object = 20,
    // FASC-N ill-formed
    Fascn = 21,
    // date ill-formed
    Date = 22,
}

impl Numbered for Cause {
    ghost number_of = { cause_number };

    ghost never_zero = { cause_never_zero };

    fn number(self) -> u8 {
        self as u8
    }
}

impl From<MalformedTemplate> for Cause {
    ghost from_gives = { λ _ c. c ≡ causes.Template };

    fn from(_e: MalformedTemplate) -> Cause {
        Cause::Template
    }
}

impl From<MalformedObject> for Cause {
    ghost from_gives = { λ _ c. c ≡ causes.Object };

    fn from(_e: MalformedObject) -> Cause {
        Cause::Object
    }
}

// Whatever the fault of a FASC-N, the cause is one.
impl From<UnpackError> for Cause {
    ghost from_gives = { λ _ c. c ≡ causes.Fascn };

    fn from(_e: UnpackError) -> Cause {
        Cause::Fascn
    }
}

impl From<UnrealDate> for Cause {
    ghost from_gives = { λ _ c. c ≡ causes.Date };

    fn from(_e: UnrealDate) -> Cause {
        Cause::Date
    }
}
