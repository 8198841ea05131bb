// The session's calls over its image, for C and Rust. Each gives the papers' number, 0 where it is accepted; a refused
// one leaves every byte as it was.
ghost use Rattle.std.specs.Prelude.{◌≡◌, length};
ghost use Rattle.common.specs.Refusal.{number_in};
ghost use Rattle.card.specs.Object.{bytes_at};
ghost use Rattle.session.specs.Operation.{refusal_number, open_of, command_of, command_buffer, answer_of, answer_buffer, verdict_of, field_place, stamp_answer, stamp_buffer, preview_of};
ghost use Rattle.session.specs.Promise.{OpenPromise, CommandPromise, AnswerPromise, VerdictPromise, FieldPromise, StampPromise, PreviewPromise};
ghost use Rattle.host.specs.Image.{load_of};
ghost use Rattle.host.specs.Call.{image_after, where_number, place_given};

use crate::answer::write_value;
use crate::image;
use crate::image::IMAGE;
use common::refusal;
use common::refusal::Numbered;
use session::open;
use session::state::Answered;

// Where the value of a field lies in the object buffer. For C, which has no slices: gate_field.
#[repr(C)]
#[derive(Clone, Copy, Debug, PartialEq, Eq)]
pub struct FieldPlace {
    pub start: usize,
    pub length: usize,
}

// The session that a call hands back is saved where the call is accepted. What comes back is the reply's number.
fn keep<T: Copy>(answered: Answered<T>, image: &mut [u8; IMAGE]) -> u8
    ensures number { result ≡ number_in refusal_number answered.reply }
    ensures is { image.new ≡ image_after image.old (result, answered.session) }
    ensures again { result ≡ 0 → load_of image.new ≡ answered.session }
{
    match answered.reply {
        Ok(_) => {
            image::save(answered.session, image);
            0
        }
        Err(e) => e.number(),
    }
}

// Open: an accepted opening puts its session into the image. A refused one leaves what was there, as every refused call
// does.
pub fn gate_open(image: &mut [u8; IMAGE], mode: u8, date: u32, aid: &[u8]) -> u8
    ensures number { result ≡ (open_of mode date aid.now).0 }
    ensures is { image.new ≡ image_after image.old (open_of mode date aid.now) }
    ensures for_every_list { OpenPromise mode date aid.now result (load_of image.new) }
{
    let opened = open::open(mode, date, aid);
    keep(opened, image)
}

// Command: its bytes at the front of out, and their count.
pub fn gate_command(image: &mut [u8; IMAGE], out: &mut [u8], count: &mut usize) -> u8
    ensures number { result ≡ (command_of (load_of image.old) (length out.old)).0 }
    ensures counts { count.new ≡ where_number 0 result (command_of (load_of image.old) (length out.old)).1 count.old }
    ensures is { image.new ≡ image_after image.old (result, (command_of (load_of image.old) (length out.old)).2) }
    ensures buffer { out.new ≡ command_buffer (load_of image.old) out.old }
    ensures for_every_list { CommandPromise (load_of image.old) out.old out.new result (where_number 0 result count.new 0) (load_of image.new) }
{
    let sent = image::load(image).command(out);
    // both give the reply's number
    write_value(sent.reply, count);
    keep(sent, image)
}

// Answer.
pub fn gate_answer(
    image: &mut [u8; IMAGE],
    object: &mut [u8],
    answer: &[u8],
    cancelled: &[u64],
) -> u8
    ensures number { result ≡ (answer_of (load_of image.old) object.old answer.now cancelled.now).0 }
    ensures is { image.new ≡ image_after image.old (answer_of (load_of image.old) object.old answer.now cancelled.now) }
    ensures buffer { object.new ≡ answer_buffer (load_of image.old) object.old answer.now }
    ensures for_every_list { AnswerPromise (load_of image.old) object.old answer.now cancelled.now object.new result (load_of image.new) }
{
    let answered = image::load(image).answer(object, answer, cancelled);
    keep(answered, image)
}

// Verdict.
pub fn gate_verdict(image: &mut [u8; IMAGE], kind: u8, yes: u8, fascn: &[u8]) -> u8
    ensures number { result ≡ (verdict_of (load_of image.old) kind yes fascn.now).0 }
    ensures is { image.new ≡ image_after image.old (verdict_of (load_of image.old) kind yes fascn.now) }
    ensures for_every_list { VerdictPromise (load_of image.old) kind yes fascn.now result (load_of image.new) }
{
    let answered = image::load(image).verdict(kind, yes, fascn);
    keep(answered, image)
}

// Preview: the stamp that this verdict and then a stamp call would write, to the first 46 bytes of out.
pub fn gate_preview(image: &[u8; IMAGE], kind: u8, yes: u8, fascn: &[u8], out: &mut [u8]) -> u8
    ensures is { (result, out.new) ≡ preview_of (load_of image.now) kind yes fascn.now out.old }
    ensures for_every_list { PreviewPromise (load_of image.now) kind yes fascn.now out.old out.new result }
{
    refusal::number(&image::load(image).preview(kind, yes, fascn, out))
}

// Field: where its value lies in the object buffer; no bytes where the field call gives the empty part.
pub fn gate_field(image: &[u8; IMAGE], object: &[u8], tag: u8) -> FieldPlace
    ensures is { place_given result ≡ field_place (load_of image.now) (length object.now) tag }
    ensures for_every_list { FieldPromise (load_of image.now) object.now tag (bytes_at object.now (place_given result)) }
{
    let place = image::load(image).place(object.len(), tag);
    FieldPlace {
        start: place.start as usize,
        length: place.len as usize,
    }
}

// Stamp: the first 46 bytes of out.
pub fn gate_stamp(image: &[u8; IMAGE], out: &mut [u8]) -> u8
    ensures number { result ≡ (stamp_answer (load_of image.now) (length out.old)).0 }
    ensures is { out.new ≡ stamp_buffer (load_of image.now) out.old }
    ensures for_every_list { StampPromise (load_of image.now) out.old out.new result (load_of image.now) }
{
    refusal::number(&image::load(image).stamp(out).reply)
}
