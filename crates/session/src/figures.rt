// Document 01's figures, with request 7 of document 02, each once. A figure that the definitions name stands in
// specs/Tables.antt under the name given here.
ghost use Rattle.std.specs.Prelude.{◌≡◌};
ghost use Rattle.session.specs.Tables.{outcome_number, standing_number};

use card::fascn::counts::FASCN_BYTES;

// Those that request 7 changed have the value `since`: "mode 1–6", `greatest_mode`; "Verdict kind 5", `greatest_kind`;
// "a new check 7", `checks`; "The object buffer becomes 20,480 bytes", `object_size`.
pub(crate) const MODES: u8 = 6;

pub(crate) const KINDS: u8 = 5;

pub const CHECKS: usize = 7;

pub const OBJECT: usize = 20480;

// What is found of a check: `unneeded`, `awaited`, `passed`, `failed`, `other_card`. A session keeps the number, in
// which any byte may stand: refusal 4 speaks of it. Not Numbered: 0 is the number of an outcome (never_zero). `as u8`
// is for one outcome by name, `number` for any.
#[derive(Clone, Copy, Debug, PartialEq, Eq)]
pub(crate) enum Outcome {
    Unneeded = 0,
    Awaited = 1,
    Passed = 2,
    Failed = 3,
    OtherCard = 4,
}

impl Outcome {
    pub(crate) fn number(self) -> u8
        ensures { result ≡ outcome_number self }
    {
        self as u8
    }
}

// What a stamp says of the whole: `stands_open`, `stands_granted`, `stands_rejected`. Not Numbered, as Outcome is not.
#[derive(Clone, Copy, Debug, PartialEq, Eq)]
pub(crate) enum Standing {
    Open = 0,
    Granted = 1,
    Rejected = 2,
}

impl Standing {
    pub(crate) fn number(self) -> u8
        ensures { result ≡ standing_number self }
    {
        self as u8
    }
}

// The most that a step holds, and step 2 of modes 5 and 6: `usual_capacity`, `picture_capacity`. Step 2's data begins
// after the room of the steps before it: `base_of`.
pub(crate) const USUAL_CAPACITY: usize = 4096;

pub(crate) const PICTURE_CAPACITY: usize = 16384;

pub(crate) const STEP_2_BASE: usize = USUAL_CAPACITY;

// The two status bytes that end an answer, and the most bytes of an answer: `status_size`, `answer_most`.
pub(crate) const STATUS: usize = 2;

pub const ANSWER_MOST: usize = 258;

// The bytes of a number in the stamp, and of the stamp's head, that is mode, standing, cause, status word and step:
// `number_size`, `head_size`.
pub const NUMBER_BYTES: usize = 4;

pub(crate) const HEAD: usize = 6;

// Where each part of a stamp begins, and its size: `stamp_size`.
pub(crate) const OUTCOMES_AT: usize = HEAD;

pub(crate) const DATE_AT: usize = OUTCOMES_AT + CHECKS;

pub(crate) const FASCN_AT: usize = DATE_AT + NUMBER_BYTES;

pub(crate) const EXPIRY_AT: usize = FASCN_AT + FASCN_BYTES;

pub const STAMP: usize = EXPIRY_AT + NUMBER_BYTES;
