// One line of the program: the calls that it makes, the new state, and whether it is declined.
ghost use Rattle.std.specs.Prelude.{◌≡◌, ◌≤◌, length, replicate, take};
ghost use Rattle.text.specs.Hex.{bytes_in};
ghost use Rattle.session.specs.Tables.{object_size};
ghost use Rattle.session.specs.Operation.{given};
ghost use Rattle.gate_lines.specs.Line.{GateLine, longest, line_in};
ghost use Rattle.gate_lines.specs.Gate.{fresh, most_cards, Reply, gate_after, reply_by, reply_to, with_session};
ghost use Rattle.gate_lines.specs.GateCode.{reply_of};
ghost use Rattle.gate_lines.specs.Run.{ReplyPromise};

use crate::line;
use crate::line::{LONGEST, Line};
use crate::state::{CARDS, Gate, LineError};
use card::command::COMMAND_MOST;
use card::fascn::Key;
use session::figures::OBJECT;
use session::open;
use session::state::{Answered, Session};
use text::hex;

// The most bytes that HEX of a line spells.
const BYTES: usize = LONGEST / 2;

// The bytes that HEX spells, read to the front of a buffer that has room for those of the longest line.
fn bytes_of<'a>(spelled: &[u8], buffer: &'a mut [u8; BYTES]) -> &'a [u8]
    requires { length spelled.now ≤ longest }
    ensures { result.now ≡ bytes_in spelled.now }
{
    let n = hex::read(spelled, buffer);
    &buffer[..n]
}

impl Gate {
    // The program before the first line.
    pub fn new() -> Gate
        ensures { result ≡ fresh (replicate object_size 0) }
    {
        Gate {
            session: open::dead_session(),
            keys: [0; CARDS],
            cards: 0,
            object: [0; OBJECT],
        }
    }

    // The program at any state: this session, these keys of cards, as far as there is room, and this object buffer.
    pub fn at(session: Session, keys: &[u64], object: &[u8; OBJECT]) -> Gate
        ensures { result ≡ record { session = session; keys = take most_cards keys.now; object = object.now } }
    {
        let cards = keys.len().min(CARDS);
        let mut kept = [0u64; CARDS];
        kept[..cards].copy_from_slice(&keys[..cards]);
        Gate {
            session,
            keys: kept,
            cards,
            object: *object,
        }
    }

    // The session, the keys of the cards read so far, and the object buffer.
    pub fn session(&self) -> Session
        ensures { result ≡ self.now.session }
    {
        self.session
    }

    pub fn keys(&self) -> &[u64]
        ensures { result.now ≡ self.now.keys }
    {
        &self.keys[..self.cards]
    }

    pub fn object(&self) -> &[u8; OBJECT]
        ensures { result.now ≡ self.now.object }
    {
        &self.object
    }

    // The session that a call hands back is taken; its reply is the line's.
    fn take(&mut self, answered: Answered<()>) -> Result<(), LineError>
        ensures state { self.new ≡ with_session self.old (given answered).1 }
        ensures reply { reply_of result ≡ reply_by (given answered).0 }
    {
        self.session = answered.session;
        answered.reply?;
        Ok(())
    }

    // A card line: the key is kept after those before it, where there is room.
    fn card_line(&mut self, key: Key) -> Result<(), LineError>
        ensures state { self.new ≡ gate_after self.old (GateLine.card key.0) }
        ensures reply { reply_of result ≡ reply_to self.old (GateLine.card key.0) }
    {
        if self.cards == CARDS {
            return Err(LineError::Bad);
        }
        self.keys[self.cards] = key.0;
        self.cards += 1;
        Ok(())
    }

    // An opening: an accepted one replaces the session.
    fn open_line(&mut self, mode: u8, date: u32, aid: &[u8]) -> Result<(), LineError>
        ensures state { self.new ≡ gate_after self.old (GateLine.opening mode date aid.now) }
        ensures reply { reply_of result ≡ reply_to self.old (GateLine.opening mode date aid.now) }
    {
        let opened = open::open(mode, date, aid);
        opened.reply?;
        self.session = opened.session;
        Ok(())
    }

    // An answer: the command call is made first, and the cards so far are lent with the answer.
    fn answer_line(&mut self, bytes: &[u8]) -> Result<(), LineError>
        ensures state { self.new ≡ gate_after self.old (GateLine.answer bytes.now) }
        ensures reply { reply_of result ≡ reply_to self.old (GateLine.answer bytes.now) }
        ensures never_seven { reply_of result ≡ Reply.refused 7 → ⊥ }
    {
        let mut out = [0u8; COMMAND_MOST];
        let ready = self.session.command(&mut out).session;
        let cards = &self.keys[..self.cards];
        let answered = ready.answer(&mut self.object, bytes, cards);
        self.take(answered)
    }

    // A verdict.
    fn verdict_line(&mut self, kind: u8, yes: u8, fascn: &[u8]) -> Result<(), LineError>
        ensures state { self.new ≡ gate_after self.old (GateLine.verdict kind yes fascn.now) }
        ensures reply { reply_of result ≡ reply_to self.old (GateLine.verdict kind yes fascn.now) }
    {
        let answered = self.session.verdict(kind, yes, fascn);
        self.take(answered)
    }

    // One line. What it prints is its reply's text.
    #[tactic(auto, using(crate::proofs::PrintedLaws::reply_promise, crate::proofs::AnswerLineLaws::line_not_seven), unfolding(crate::specs::Gate::gate_after, crate::specs::Gate::reply_to))]
    pub fn run_line(&mut self, s: &[u8]) -> Result<(), LineError>
        ensures state { self.new ≡ gate_after self.old (line_in s.now) }
        ensures reply { reply_of result ≡ reply_to self.old (line_in s.now) }
        ensures for_every_list { ReplyPromise self.old (line_in s.now) (reply_of result) }
        ensures never_seven { reply_of result ≡ Reply.refused 7 → ⊥ }
    {
        let mut buffer = [0u8; BYTES];
        match line::read(s) {
            Some(Line::Card(key)) => self.card_line(key),
            Some(Line::Open { mode, date, aid }) => {
                self.open_line(mode, date, bytes_of(aid, &mut buffer))
            }
            Some(Line::Answer(answer)) => self.answer_line(bytes_of(answer, &mut buffer)),
            Some(Line::Verdict { kind, yes, fascn }) => {
                self.verdict_line(kind, yes, bytes_of(fascn, &mut buffer))
            }
            None => Err(LineError::Bad),
        }
    }
}
