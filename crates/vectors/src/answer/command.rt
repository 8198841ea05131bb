// The texts of what the writers of commands and the reader of status words say.
#![tactic(auto, using(append::proofs::AppendLaws::texts), unfolding(crate::specs::CommandText::written_text, crate::specs::CommandText::unwritten_text, crate::specs::CommandText::command_text, crate::specs::CommandText::select_text, crate::specs::CommandText::select_again_text, crate::specs::CommandText::get_data_text, crate::specs::CommandText::get_response_text, crate::specs::CommandText::text_of_status, crate::specs::CommandText::spare))]

ghost use Rattle.std.specs.Prelude.{◌≡◌, [], ◌∷◌, ◌++◌};
ghost use Rattle.card.specs.Command.{command_answer};
ghost use Rattle.text.specs.Hex.{hex_of};
ghost use Rattle.vectors.specs.CommandText.{written_text, unwritten_text, command_text, select_text, select_again_text, get_data_text, get_response_text, status_text};
ghost use Rattle.vectors.specs.Out.{with_text};

use crate::{Out, refusal};
use card::command;
use card::command::{CommandError, Status};
use card::object::Kind;
use common::refusal::Numbered;
use common::slice;

// The most bytes of a buffer that a command is lent; `spare_size` in the definitions.
const SPARE: usize = 24;

// How many bytes were written, and the buffer: those bytes, then the rest.
fn add_written(out: &mut Out, n: usize, buffer: &[u8])
    ensures { out.new ≡ with_text out.old (written_text n buffer.now) }
{
    out.add_decimal(n as u64);
    out.add(b" bytes ");
    out.add_hex(slice::front(buffer, n));
    out.add(b", then ");
    out.add_hex(slice::after(buffer, n));
}

// The number of a refusal, and the buffer.
fn add_unwritten<E: Numbered>(out: &mut Out, error: E, buffer: &[u8])
    ensures { out.new ≡ with_text out.old (unwritten_text (E.number_of error) buffer.now) }
{
    refusal::add_refused(out, error);
    out.add(b", the buffer ");
    out.add_hex(buffer);
}

// What a command answered, and its buffer.
fn add_answer(out: &mut Out, answer: Result<usize, CommandError>, buffer: &[u8])
    ensures { out.new ≡ with_text out.old (command_text (command_answer answer, buffer.now)) }
{
    match answer {
        Ok(n) => add_written(out, n, buffer),
        Err(error) => add_unwritten(out, error, buffer),
    }
}

// What select says of the AID s with a last byte, with so much room. The buffer is lent in each of these functions: one
// for all would take a closure, and a clause on what any closure writes.
pub(crate) fn add_select(out: &mut Out, last: u8, room: usize, s: &[u8])
    ensures { out.new ≡ with_text out.old (select_text last room s.now) }
{
    let mut spare = [0xFFu8; SPARE];
    let buffer = &mut spare[..SPARE.min(room)];
    let answer = command::select(s, last, buffer);
    add_answer(out, answer, buffer);
}

// The same of a line that spells the last byte, and then the AID.
pub(crate) fn add_select_again(out: &mut Out, room: usize, s: &[u8])
    ensures { out.new ≡ with_text out.old (select_again_text room s.now) }
{
    add_select(out, slice::byte(s, 0), room, slice::after(s, 1));
}

// What get_data says, with so much room; the line spells no bytes, or the last byte.
pub(crate) fn add_get_data(out: &mut Out, kind: Kind, room: usize, s: &[u8])
    ensures { out.new ≡ with_text out.old (get_data_text kind room s.now) }
{
    if s.len() > 1 {
        return refusal::add_no_vector(out);
    }
    let mut spare = [0xFFu8; SPARE];
    let buffer = &mut spare[..SPARE.min(room)];
    let answer = command::get_data(kind, slice::byte(s, 0), buffer);
    add_answer(out, answer, buffer);
}

// What get_response says of the one byte of s, with so much room.
pub(crate) fn add_get_response(out: &mut Out, room: usize, s: &[u8])
    ensures { out.new ≡ with_text out.old (get_response_text room s.now) }
{
    if s.len() != 1 {
        return refusal::add_no_vector(out);
    }
    let mut spare = [0xFFu8; SPARE];
    let buffer = &mut spare[..SPARE.min(room)];
    let answer = command::get_response(s[0], buffer);
    add_answer(out, answer, buffer);
}

// A word, and the second status byte.
fn add_second(out: &mut Out, word: &[u8], second: u8)
    ensures { out.new ≡ with_text out.old (word.now ++ hex_of (second ∷ [])) }
{
    out.add(word);
    out.add_hex(&[second]);
}

// What status_of says of s.
pub(crate) fn add_status(out: &mut Out, s: &[u8])
    ensures { out.new ≡ with_text out.old (status_text s.now) }
{
    match command::status_of(s) {
        Status::Done => out.add(b"done"),
        Status::More(second) => add_second(out, b"more ", second),
        Status::Again(last) => add_second(out, b"again ", last),
        Status::Other => out.add(b"other"),
    }
}
