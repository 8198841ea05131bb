// What the program prints.
ghost use Rattle.std.specs.Prelude.{◌≡◌};
ghost use Rattle.gate_lines.specs.Gate.{refused_text, reply_text, stamp_text, end_text};
ghost use Rattle.gate_lines.specs.GateCode.{reply_of, reply_by_line};
ghost use Rattle.gate_lines.specs.Run.{EndPromise};

use crate::state::{Gate, LineError, LineReply, TEXT};
use append::Text;
use common::refusal::Numbered;
use session::figures::STAMP;
use session::state::Session;

// `(refused N)`.
fn refused_text(n: u8) -> Text<TEXT>
    ensures { result ≡ refused_text n }
{
    let mut text = Text::new();
    text.add(b"(refused ");
    text.add_decimal(u64::from(n));
    text.add(b")\n");
    text
}

// What a line prints.
// No Display: each byte is stated (reply_text), and the clauses of fmt do not say that a write answers Ok.
#[tactic(auto, unfolding(append::specs::Append::added, crate::specs::Gate::reply_text))]
pub fn text(reply: Result<(), LineError>) -> Text<TEXT>
    ensures { result ≡ reply_text (reply_of reply) }
{
    let mut text = Text::new();
    match reply {
        Ok(()) => text.add(b"(ok)\n"),
        Err(LineError::Bad) => text.add(b"(bad)\n"),
        Err(LineError::Refused(refusal)) => return refused_text(refusal.number()),
    }
    text
}

impl LineReply {
    // What a line prints, by its reply; a caller's own number too.
    #[tactic(auto, unfolding(crate::specs::Gate::reply_text))]
    pub fn text(self) -> Text<TEXT>
        ensures { result ≡ reply_text (reply_by_line self) }
    {
        match self {
            LineReply::Ok => text(Ok(())),
            LineReply::Refused(n) => refused_text(n),
            LineReply::Bad => text(Err(LineError::Bad)),
        }
    }
}

// `(stamp HEX)`.
fn stamp_text(stamp: &[u8; STAMP]) -> Text<TEXT>
    ensures { result ≡ stamp_text stamp.now }
{
    let mut text = Text::new();
    text.add(b"(stamp ");
    text.add_hex(stamp);
    text.add(b")\n");
    text
}

// What is printed at the end: the session's stamp, or the number by which it is refused.
#[tactic(auto, using(crate::proofs::EndLaws::stamp_ends))]
pub fn end_text(session: Session) -> Text<TEXT>
    ensures is { result ≡ end_text session }
    ensures for_every_list { EndPromise session result }
{
    let mut stamp = [0u8; STAMP];
    let stamped = session.stamp(&mut stamp);
    match stamped.reply {
        Ok(()) => stamp_text(&stamp),
        Err(refusal) => refused_text(refusal.number()),
    }
}

impl Gate {
    // What is printed at the end.
    pub fn end_text(&self) -> Text<TEXT>
        ensures is { result ≡ end_text self.now.session }
        ensures for_every_list { EndPromise self.now.session result }
    {
        end_text(self.session)
    }
}
