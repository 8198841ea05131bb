// The image of a session: its values as a fixed number of bytes, a version byte first, and the session of an image.
// Numbers of several bytes stand with the highest byte first, as in the stamp.
ghost use Rattle.std.specs.Prelude.{◌≡◌, ◌+◌, ◌≤◌, length, take, drop};
ghost use Rattle.common.specs.Lists.{over_places};
ghost use Rattle.host.specs.Image.{part_bytes, parts_bytes, part_of_bytes, PartFits, PartsFit, next_kind, next_byte, next_in, segments_in, opening_in, progress_in, card_in, is_image, load_of, save_of};

use crate::number;
use card::command::AID_MOST;
use card::fascn::counts::FASCN_BYTES;
use card::object::{EMPTY, FIELDS, Part};
use common::slice;
use session::figures::CHECKS;
use session::state::{Card, Next, Session, SessionOpening, SessionProgress};
use session::{arrays, open};

// The version of the layout; `image_version` in the definitions.
pub const VERSION: u8 = 1;

// The segments of an image: nine values of one byte each; date, expiry, AID length and filled; the AID, the outcomes
// and the FASC-N; the parts of step 1's object and the part of step 2's. Their sizes are `segment_sizes` in the
// definitions. Constants, since the places are the C interface's: a host may keep images, and docs/HOSTS.md has the
// layout.
const SMALL: usize = 9;

const PART: usize = 8;

const DATE_AT: usize = SMALL;

const EXPIRY_AT: usize = DATE_AT + 4;

const AID_LENGTH_AT: usize = EXPIRY_AT + 4;

const FILLED_AT: usize = AID_LENGTH_AT + 8;

const AID_AT: usize = FILLED_AT + 8;

const OUTCOMES_AT: usize = AID_AT + AID_MOST;

const FASCN_AT: usize = OUTCOMES_AT + CHECKS;

const STEP_1_AT: usize = FASCN_AT + FASCN_BYTES;

const STEP_2_AT: usize = STEP_1_AT + FIELDS * PART;

// How many bytes an image has; `image_size` in the definitions.
pub const IMAGE: usize = STEP_2_AT + PART;

// Which of the four the next command is, and its byte, 0 for the step's own. Numbers, since bytes 4 and 5 of an image
// are the C interface's (docs/HOSTS.md, "A session as bytes").
fn next_bytes(next: Next) -> (u8, u8)
    ensures { result ≡ (next_kind next, next_byte next) }
{
    match next {
        Next::Initial => (0, 0),
        Next::GetResponse(second) => (1, second),
        Next::InitialAgain(last) => (2, last),
        Next::GetResponseAgain(last) => (3, last),
    }
}

// The next command of these two bytes.
fn next_in(kind: u8, byte: u8) -> Next
    ensures { result ≡ next_in kind byte }
{
    match kind {
        1 => Next::GetResponse(byte),
        2 => Next::InitialAgain(byte),
        3 => Next::GetResponseAgain(byte),
        _ => Next::Initial,
    }
}

// The N bytes from place `at` on.
fn bytes_at<const N: usize>(s: &[u8], at: usize) -> [u8; N]
    requires { at + N ≤ length s.now }
    ensures { result ≡ take N (drop at s.now) }
{
    arrays::array(slice::part(s, at, N))
}

// A part, stored from place `at` on: its start and its length. This and the like ask for room from their place: the
// places are the constants above.
fn put_part(out: &mut [u8], at: usize, p: Part)
    requires { at + 8 ≤ length out.old }
    ensures is { out.new ≡ over_places out.old at (part_bytes p) }
    ensures fits { PartFits p }
{
    number::put_four(out, at, p.start);
    number::put_four(out, at + 4, p.len);
}

// The parts of step 1's object.
fn put_parts(out: &mut [u8], at: usize, parts: [Part; FIELDS])
    requires { at + 72 ≤ length out.old }
    ensures is { out.new ≡ over_places out.old at (parts_bytes parts) }
    ensures fit { PartsFit parts }
{
    // by the place, which is the C interface's (docs/HOSTS.md, "A session as bytes")
    for (i, p) in parts.iter().enumerate() {
        put_part(out, at + i * PART, *p);
    }
}

fn part_at(s: &[u8], at: usize) -> Part
    requires { at + 8 ≤ length s.now }
    ensures { result ≡ part_of_bytes (take 8 (drop at s.now)) }
{
    Part {
        start: u32::from_be_bytes(bytes_at(s, at)),
        len: u32::from_be_bytes(bytes_at(s, at + 4)),
    }
}

// The session's image. It has the session again, for every session that the types allow.
pub fn save(s: Session, image: &mut [u8; IMAGE])
    ensures is { image.new ≡ save_of s }
    ensures again { load_of image.new ≡ s }
{
    let opening = s.opening;
    let progress = s.progress;
    let outcomes = s.outcomes;
    let card = s.card;
    let aid = opening.aid;
    let fascn = card.fascn;
    let step1 = card.step1;
    arrays::sized(aid);
    arrays::sized(outcomes);
    arrays::sized(fascn);
    let (kind, byte) = next_bytes(progress.next);
    let small = [
        VERSION,
        opening.mode,
        progress.step,
        u8::from(progress.outstanding),
        kind,
        byte,
        progress.cause,
        progress.sw1,
        progress.sw2,
    ];
    slice::store(image, 0, &small);
    number::put_four(image, DATE_AT, opening.date);
    number::put_four(image, EXPIRY_AT, card.expiry);
    number::put_eight(image, AID_LENGTH_AT, opening.aid_len);
    number::put_eight(image, FILLED_AT, progress.filled);
    slice::store(image, AID_AT, &aid);
    slice::store(image, OUTCOMES_AT, &outcomes);
    slice::store(image, FASCN_AT, &fascn);
    put_parts(image, STEP_1_AT, step1);
    put_part(image, STEP_2_AT, card.step2);
}

// Whether the bytes are some session's image. Here and below byte 0 is the version, 1 the mode, 2 the step, 3 whether a
// command is outstanding, 4 and 5 the next command, 6 the cause, and 7 and 8 the status word, in the order of `save`.
pub fn is_image(image: &[u8; IMAGE]) -> bool
    ensures { result ≡ is_image image.now }
{
    let next = (image[4] <= 3) & ((1 <= image[4]) | (image[5] == 0));
    (image[0] == VERSION) & ((image[3] <= 1) & next)
}

fn opening_in(image: &[u8; IMAGE]) -> SessionOpening
    ensures { result ≡ opening_in (segments_in image.now) }
{
    let aid = bytes_at(image, AID_AT);
    SessionOpening {
        mode: image[1],
        date: u32::from_be_bytes(bytes_at(image, DATE_AT)),
        aid,
        aid_len: usize::from_be_bytes(bytes_at(image, AID_LENGTH_AT)),
    }
}

fn progress_in(image: &[u8; IMAGE]) -> SessionProgress
    ensures { result ≡ progress_in (segments_in image.now) }
{
    let next = next_in(image[4], image[5]);
    SessionProgress {
        step: image[2],
        filled: usize::from_be_bytes(bytes_at(image, FILLED_AT)),
        outstanding: image[3] == 1,
        next,
        cause: image[6],
        sw1: image[7],
        sw2: image[8],
    }
}

// The parts of step 1's object, one after another.
fn step1_in(image: &[u8; IMAGE]) -> [Part; FIELDS]
    ensures { result ≡ (card_in (segments_in image.now)).step1 }
{
    let mut step1 = [EMPTY; FIELDS];
    // by the place, as in put_parts
    for (i, part) in step1.iter_mut().enumerate() {
        *part = part_at(image, STEP_1_AT + i * PART);
    }
    step1
}

fn card_in(image: &[u8; IMAGE]) -> Card
    ensures { result ≡ card_in (segments_in image.now) }
{
    let fascn = bytes_at(image, FASCN_AT);
    let step1 = step1_in(image);
    Card {
        fascn,
        expiry: u32::from_be_bytes(bytes_at(image, EXPIRY_AT)),
        step1,
        step2: part_at(image, STEP_2_AT),
    }
}

// The session of an image; the dead session where the bytes are no session's image. No Option: on bytes that are no
// image a gate call gives what it gives on a dead session (load_of).
pub fn load(image: &[u8; IMAGE]) -> Session
    ensures { result ≡ load_of image.now }
{
    if !is_image(image) {
        return open::dead_session();
    }
    let opening = opening_in(image);
    let progress = progress_in(image);
    let outcomes = bytes_at(image, OUTCOMES_AT);
    let card = card_in(image);
    Session {
        opening,
        progress,
        outcomes,
        card,
    }
}
