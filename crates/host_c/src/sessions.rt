// The session's calls over its image. Each gives the papers' number, 0 where it is accepted; a refused one leaves every
// byte as it was.
ghost use Rattle.std.specs.Prelude.{◌≡◌, length};
ghost use Rattle.card.specs.Object.{bytes_at};
ghost use Rattle.session.specs.Operation.{open_of, command_of, command_buffer, answer_of, answer_buffer, verdict_of, field_place, stamp_answer, stamp_buffer, preview_of};
ghost use Rattle.session.specs.Promise.{OpenPromise, CommandPromise, AnswerPromise, VerdictPromise, FieldPromise, StampPromise, PreviewPromise};
ghost use Rattle.host.specs.Image.{load_of};
ghost use Rattle.host.specs.Call.{image_after, where_number, place_given};

use host::image::IMAGE;
use host::sessions;
use host::sessions::FieldPlace;

// Open: an accepted opening puts its session into the image. A refused one leaves what was there, as every refused call
// does.
#[unsafe(no_mangle)]
pub extern "C" fn gate_open(image: &mut [u8; IMAGE], mode: u8, date: u32, aid: &[u8]) -> u8
    ensures number { result ≡ (open_of mode date aid.now).0 }
    ensures is { image.new ≡ image_after image.old (open_of mode date aid.now) }
    ensures for_every_list { OpenPromise mode date aid.now result (load_of image.new) }
{
    sessions::gate_open(image, mode, date, aid)
}

// Command: its bytes at the front of out, and their count.
#[unsafe(no_mangle)]
pub extern "C" fn gate_command(image: &mut [u8; IMAGE], out: &mut [u8], count: &mut usize) -> u8
    ensures number { result ≡ (command_of (load_of image.old) (length out.old)).0 }
    ensures counts { count.new ≡ where_number 0 result (command_of (load_of image.old) (length out.old)).1 count.old }
    ensures is { image.new ≡ image_after image.old (result, (command_of (load_of image.old) (length out.old)).2) }
    ensures buffer { out.new ≡ command_buffer (load_of image.old) out.old }
    ensures for_every_list { CommandPromise (load_of image.old) out.old out.new result (where_number 0 result count.new 0) (load_of image.new) }
{
    sessions::gate_command(image, out, count)
}

// Answer.
#[unsafe(no_mangle)]
pub extern "C" fn gate_answer(
    image: &mut [u8; IMAGE],
    object: &mut [u8],
    answer: &[u8],
    cancelled: &[u64],
) -> u8
    ensures number { result ≡ (answer_of (load_of image.old) object.old answer.now cancelled.now).0 }
    ensures is { image.new ≡ image_after image.old (answer_of (load_of image.old) object.old answer.now cancelled.now) }
    ensures buffer { object.new ≡ answer_buffer (load_of image.old) object.old answer.now }
    ensures for_every_list { AnswerPromise (load_of image.old) object.old answer.now cancelled.now object.new result (load_of image.new) }
{
    sessions::gate_answer(image, object, answer, cancelled)
}

// Verdict.
#[unsafe(no_mangle)]
pub extern "C" fn gate_verdict(image: &mut [u8; IMAGE], kind: u8, yes: u8, fascn: &[u8]) -> u8
    ensures number { result ≡ (verdict_of (load_of image.old) kind yes fascn.now).0 }
    ensures is { image.new ≡ image_after image.old (verdict_of (load_of image.old) kind yes fascn.now) }
    ensures for_every_list { VerdictPromise (load_of image.old) kind yes fascn.now result (load_of image.new) }
{
    sessions::gate_verdict(image, kind, yes, fascn)
}

// Preview: the stamp that this verdict and then a stamp call would write, to the first 46 bytes of out.
#[unsafe(no_mangle)]
pub extern "C" fn gate_preview(
    image: &[u8; IMAGE],
    kind: u8,
    yes: u8,
    fascn: &[u8],
    out: &mut [u8],
) -> u8
    ensures is { (result, out.new) ≡ preview_of (load_of image.now) kind yes fascn.now out.old }
    ensures for_every_list { PreviewPromise (load_of image.now) kind yes fascn.now out.old out.new result }
{
    sessions::gate_preview(image, kind, yes, fascn, out)
}

// Field: where its value lies in the object buffer; no bytes where the field call gives the empty part.
#[unsafe(no_mangle)]
pub extern "C" fn gate_field(image: &[u8; IMAGE], object: &[u8], tag: u8) -> FieldPlace
    ensures is { place_given result ≡ field_place (load_of image.now) (length object.now) tag }
    ensures for_every_list { FieldPromise (load_of image.now) object.now tag (bytes_at object.now (place_given result)) }
{
    sessions::gate_field(image, object, tag)
}

// Stamp: the first 46 bytes of out.
#[unsafe(no_mangle)]
pub extern "C" fn gate_stamp(image: &[u8; IMAGE], out: &mut [u8]) -> u8
    ensures number { result ≡ (stamp_answer (load_of image.now) (length out.old)).0 }
    ensures is { out.new ≡ stamp_buffer (load_of image.now) out.old }
    ensures for_every_list { StampPromise (load_of image.now) out.old out.new result (load_of image.now) }
{
    sessions::gate_stamp(image, out)
}
