// A list of direct calls on a session, as a line spells them, and the text of what each call gives.
#![tactic(auto, using(append::proofs::AppendLaws::texts), unfolding(crate::specs::CallsText::numbered_text, crate::specs::CallsText::buffer_text, crate::specs::CallsText::counted_text, crate::specs::CallsText::field_text))]

ghost use Rattle.std.specs.Prelude.{◌≡◌, [], ◌≤◌, length, get_or};
ghost use Rattle.session.specs.Operation.{command_of, command_buffer, answer_of, answer_buffer, field_of, stamp_refusal, stamp_buffer};
ghost use Rattle.vectors.specs.CallsText.{direct_call, argument_count, date_in, open_by, verdict_by, preview_by, room_in, open_word, answer_word, verdict_word, preview_word, stamp_word, numbered_text, buffer_text, counted_text, field_text, direct_text, after_call, buffer_after, first_text, after_first, host_at, call_texts, calls_text};
ghost use Rattle.vectors.specs.Out.{text_size, with_text};

use crate::Out;
use common::{refusal, slice};
use session::figures::OBJECT;
use session::open;
use session::state::Session;

// The bytes before the arguments of a call; `call_head_size` in the definitions.
const HEAD: usize = 3;

// The most bytes of a buffer that a call is lent; `most_room` in the definitions.
const ROOM: usize = 64;

// A call.
#[derive(Clone, Copy, Debug, PartialEq, Eq)]
pub(crate) enum DirectCall {
    Open,
    Command,
    Answer,
    Verdict,
    Preview,
    Stamp,
    Field,
}

// The call that a byte names.
fn direct_call(n: u8) -> Option<DirectCall>
    ensures { result ≡ direct_call n }
{
    match n {
        1 => Some(DirectCall::Open),
        2 => Some(DirectCall::Command),
        3 => Some(DirectCall::Answer),
        4 => Some(DirectCall::Verdict),
        5 => Some(DirectCall::Preview),
        6 => Some(DirectCall::Stamp),
        7 => Some(DirectCall::Field),
        _ => None,
    }
}

// How many bytes the arguments of the first call of s have.
fn argument_count(s: &[u8]) -> usize
    ensures is { result ≡ argument_count s.now }
    ensures most { result ≤ 65535 }
{
    usize::from(u16::from_be_bytes([slice::byte(s, 1), slice::byte(s, 2)]))
}

// The date of an opening with the arguments a.
fn date_in(a: &[u8]) -> u32
    ensures { result ≡ date_in a.now }
{
    u32::from_be_bytes([
        slice::byte(a, 1),
        slice::byte(a, 2),
        slice::byte(a, 3),
        slice::byte(a, 4),
    ])
}

// The room of the buffer that a call is lent.
fn room_in(call: DirectCall, a: &[u8]) -> usize
    ensures { result ≡ room_in call a.now }
{
    match call {
        DirectCall::Command | DirectCall::Stamp => usize::from(slice::byte(a, 0)),
        DirectCall::Preview => usize::from(slice::byte(a, 2)),
        DirectCall::Open | DirectCall::Answer | DirectCall::Verdict | DirectCall::Field => 0,
    }
}

// `(open N)`. Here and below the number is the one that a line prints, 0 where the call is accepted: `numbered_text`.
fn add_numbered(out: &mut Out, word: &[u8], n: u8)
    ensures { out.new ≡ with_text out.old (numbered_text word.now n) }
{
    out.add(word);
    out.add_decimal(u64::from(n));
    out.add(b")");
}

// `(stamp N HEX)`.
fn add_buffer(out: &mut Out, word: &[u8], n: u8, buffer: &[u8])
    ensures { out.new ≡ with_text out.old (buffer_text word.now n buffer.now) }
{
    out.add(word);
    out.add_decimal(u64::from(n));
    out.add(b" ");
    out.add_hex(buffer);
    out.add(b")");
}

// `(command N COUNT HEX)`.
fn add_counted(out: &mut Out, n: u8, count: usize, buffer: &[u8])
    ensures { out.new ≡ with_text out.old (counted_text n count buffer.now) }
{
    out.add(b"(command ");
    out.add_decimal(u64::from(n));
    out.add(b" ");
    out.add_decimal(count as u64);
    out.add(b" ");
    out.add_hex(buffer);
    out.add(b")");
}

// `(field HEX)`.
fn add_part(out: &mut Out, part: &[u8])
    ensures { out.new ≡ with_text out.old (field_text part.now) }
{
    out.add(b"(field ");
    out.add_hex(part);
    out.add(b")");
}

// An opening with the arguments a.
fn run_open(out: &mut Out, a: &[u8]) -> Session
    ensures text { out.new ≡ with_text out.old (numbered_text open_word (open_by a.now).0) }
    ensures session { result ≡ (open_by a.now).1 }
{
    let opened = open::open(slice::byte(a, 0), date_in(a), slice::after(a, 5));
    add_numbered(out, b"(open ", refusal::number(&opened.reply));
    opened.session
}

// A command call that is lent a buffer.
fn run_command(out: &mut Out, session: Session, buffer: &mut [u8]) -> Session
    ensures text { out.new ≡ with_text out.old (counted_text (command_of session (length buffer.old)).0 (command_of session (length buffer.old)).1 (command_buffer session buffer.old)) }
    ensures session { result ≡ (command_of session (length buffer.old)).2 }
    ensures holds { buffer.new ≡ command_buffer session buffer.old }
{
    let sent = session.command(buffer);
    let number = refusal::number(&sent.reply);
    add_counted(out, number, sent.reply.unwrap_or(0), buffer);
    sent.session
}

// An answer, with no list.
fn run_answer(out: &mut Out, session: Session, object: &mut [u8], a: &[u8]) -> Session
    ensures text { out.new ≡ with_text out.old (numbered_text answer_word (answer_of session object.old a.now []).0) }
    ensures session { result ≡ (answer_of session object.old a.now []).1 }
    ensures holds { object.new ≡ answer_buffer session object.old a.now }
{
    let answered = session.answer(object, a, &[]);
    add_numbered(out, b"(answer ", refusal::number(&answered.reply));
    answered.session
}

// A verdict with the arguments a.
fn run_verdict(out: &mut Out, session: Session, a: &[u8]) -> Session
    ensures text { out.new ≡ with_text out.old (numbered_text verdict_word (verdict_by session a.now).0) }
    ensures session { result ≡ (verdict_by session a.now).1 }
{
    let answered = session.verdict(slice::byte(a, 0), slice::byte(a, 1), slice::after(a, 2));
    add_numbered(out, b"(verdict ", refusal::number(&answered.reply));
    answered.session
}

// A preview with the arguments a that is lent a buffer.
fn run_preview(out: &mut Out, session: Session, a: &[u8], buffer: &mut [u8])
    ensures text { out.new ≡ with_text out.old (buffer_text preview_word (preview_by session a.now buffer.old).0 (preview_by session a.now buffer.old).1) }
    ensures holds { buffer.new ≡ (preview_by session a.now buffer.old).1 }
{
    let reply = session.preview(
        slice::byte(a, 0),
        slice::byte(a, 1),
        slice::after(a, 3),
        buffer,
    );
    add_buffer(out, b"(preview ", refusal::number(&reply), buffer);
}

// A stamp call that is lent a buffer.
fn run_stamp(out: &mut Out, session: Session, buffer: &mut [u8])
    ensures text { out.new ≡ with_text out.old (buffer_text stamp_word (stamp_refusal session (length buffer.old)) (stamp_buffer session buffer.old)) }
    ensures holds { buffer.new ≡ stamp_buffer session buffer.old }
{
    let answered = session.stamp(buffer);
    add_buffer(out, b"(stamp ", refusal::number(&answered.reply), buffer);
}

// A field call.
fn run_field(out: &mut Out, session: Session, object: &[u8], a: &[u8])
    ensures { out.new ≡ with_text out.old (field_text (field_of session object.now (get_or a.now 0 0))) }
{
    add_part(out, session.field(object, slice::byte(a, 0)));
}

// A call with the arguments a: an arm for each.
fn run_call(
    out: &mut Out,
    call: DirectCall,
    session: Session,
    object: &mut [u8],
    a: &[u8],
    buffer: &mut [u8],
) -> Session
    ensures text { out.new ≡ with_text out.old (direct_text call (record { session = session; object = object.old }) a.now buffer.old) }
    ensures host { record { session = result; object = object.new } ≡ after_call call (record { session = session; object = object.old }) a.now buffer.old }
    ensures holds { buffer.new ≡ buffer_after call (record { session = session; object = object.old }) a.now buffer.old }
{
    match call {
        DirectCall::Open => run_open(out, a),
        DirectCall::Command => run_command(out, session, buffer),
        DirectCall::Answer => run_answer(out, session, object, a),
        DirectCall::Verdict => run_verdict(out, session, a),
        DirectCall::Preview => {
            run_preview(out, session, a, buffer);
            session
        }
        DirectCall::Stamp => {
            run_stamp(out, session, buffer);
            session
        }
        DirectCall::Field => {
            run_field(out, session, object, a);
            session
        }
    }
}

// The first call of s; no bytes are no call.
fn run_first(out: &mut Out, session: Session, object: &mut [u8], s: &[u8]) -> Session
    requires { length out.old ≤ text_size }
    ensures text { out.new ≡ with_text out.old (first_text (record { session = session; object = object.old }) s.now) }
    ensures host { record { session = result; object = object.new } ≡ after_first (record { session = session; object = object.old }) s.now }
{
    if s.is_empty() {
        return session;
    }
    let Some(call) = direct_call(slice::byte(s, 0)) else {
        out.add(b"(none)");
        return session;
    };
    let a = slice::part(s, HEAD, argument_count(s));
    let mut spare = [0xFFu8; ROOM];
    let buffer = &mut spare[..ROOM.min(room_in(call, a))];
    run_call(out, call, session, object, a, buffer)
}

// The calls that s spells, one after another, until no byte is left.
fn run_calls(out: &mut Out, start: Session, object: &mut [u8], s: &[u8]) -> Session
    ensures text { out.new ≡ with_text out.old (call_texts (record { session = start; object = object.old }) s.now) }
    ensures host { record { session = result; object = object.new } ≡ host_at (record { session = start; object = object.old }) s.now (length s.now) }
{
    // so that the proof learns that what stands in the buffer fits it
    prove!(out.len() <= crate::TEXT);
    let mut session = start;
    let mut left = s;
    while !left.is_empty() {
        session = run_first(out, session, object, left);
        left = slice::after(left, HEAD + argument_count(left));
    }
    session
}

// What the calls of a line give.
pub(crate) fn add_calls(out: &mut Out, s: &[u8])
    ensures { out.new ≡ with_text out.old (calls_text s.now) }
{
    let mut object = [0u8; OBJECT];
    run_calls(out, open::dead_session(), &mut object, s);
}
