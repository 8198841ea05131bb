// The program's state between two lines, and why a line is declined.
use session::figures::{OBJECT, STAMP};
use session::state::{Refusal, Session};
use std::marker::Model;

// How many cards are kept; `most_cards` in the definitions.
pub const CARDS: usize = 1024;

// The most bytes that are printed at once: `(stamp `, two digits for each byte of a stamp, `)` and 0A; `text_size` in
// the definitions.
pub const TEXT: usize = 7 + 2 * STAMP + 2;

// The program: the session, dead where none is open, the keys of the cards read so far, which are the first `cards` of
// `keys`, and the object buffer that is lent to each answer. There is no heap for a list of keys; clauses see one
// (`Gate` in the definitions), and no contract names the count. Copy, so that a caller can keep a state and come back to
// it; nothing compares or prints one.
#[derive(Clone, Copy)]
pub struct Gate {
    pub(crate) session: Session,
    pub(crate) keys: [u64; CARDS],
    pub(crate) cards: usize,
    pub(crate) object: [u8; OBJECT],
}

impl Model for Gate {
    ghost use Rattle.std.specs.Prelude.{◌++◌, ◌-◌, length, replicate, take};
    ghost use Rattle.append.specs.Append.{Blank};
    ghost use Rattle.gate_lines.specs.Gate.{Gate, most_cards};

    ghost Value = { Gate };

    ghost view = { λ g. record { session = g.session; keys = take g.cards g.keys; object = g.object } };

    // behind the keys stand zeros
    ghost invariant = { λ g. Blank most_cards g.cards g.keys };

    ghost inverse = { λ v. record {
      session = v.session;
      keys = v.keys ++ replicate (most_cards - length v.keys) 0;
      cards = length v.keys;
      object = v.object;
    } };
}

// Why a line is declined.
#[derive(Clone, Copy, Debug, PartialEq, Eq)]
pub enum LineError {
    // the call that the line makes is refused
    Refused(Refusal),
    // no line of the forms, or a card for which there is no room
    Bad,
}

// What a line prints: `(ok)`, `(refused N)` with any number, or `(bad)`.
#[derive(Clone, Copy, Debug, PartialEq, Eq)]
pub enum LineReply {
    Ok,
    Refused(u8),
    Bad,
}

impl From<Refusal> for LineError {
    ghost use Rattle.std.specs.Prelude.{◌≡◌};
    ghost use Rattle.gate_lines.specs.declared.state.LineError.TheVariants.{Refused};

    ghost from_gives = { λ refusal e. e ≡ Refused refusal };

    fn from(refusal: Refusal) -> LineError {
        LineError::Refused(refusal)
    }
}
