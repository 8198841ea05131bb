// Commands and status words (document 01, section Commands; document 02, request 1): SELECT, GET DATA and GET RESPONSE
// written to the front of a lent buffer.
ghost use Rattle.std.specs.Prelude.{◌≡◌};
ghost use Rattle.card.specs.Object.{object_tag};
ghost use Rattle.card.specs.Command.{good_aid, command_number, command_never_zero, command_answer, select_of, get_data_of, get_response_of, status_of};

use crate::object::Kind;
use common::refusal::Numbered;
use common::slice;

// The least and the most bytes of an AID; `aid_least` and `aid_most` in the definitions.
pub const AID_LEAST: usize = 5;

pub const AID_MOST: usize = 16;

// Why a command is not written, by document 01's numbers. One that is written answers how many bytes it has.
#[derive(Clone, Copy, Debug, PartialEq, Eq)]
pub enum CommandError {
    // an AID that is not 5 to 16 bytes
    WrongAid = 3,
    // a buffer shorter than the command
    ShortBuffer = 6,
}

impl Numbered for CommandError {
    ghost number_of = { command_number };

    ghost never_zero = { command_never_zero };

    fn number(self) -> u8 {
        self as u8
    }
}

// Whether an AID may have n bytes.
pub fn good_aid(n: usize) -> bool
    ensures { result ≡ good_aid n }
{
    (AID_LEAST..=AID_MOST).contains(&n)
}

// The last byte of SELECT and of GET DATA (Le), until a card asks for another in its place.
pub const FIRST_LE: u8 = 0x00;

// SELECT: 00 A4 04 00, AID length, AID, last byte.
pub fn select(aid: &[u8], last: u8, out: &mut [u8]) -> Result<usize, CommandError>
    ensures { (command_answer result, out.new) ≡ select_of aid.now last out.old }
{
    let n = aid.len();
    if !good_aid(n) {
        return Err(CommandError::WrongAid);
    }
    let total = n + SELECT_BYTES;
    if out.len() < total {
        return Err(CommandError::ShortBuffer);
    }
    let count = [n as u8];
    let end = [last];
    slice::store(out, 0, b"\x00\xA4\x04\x00");
    slice::store(out, 4, &count);
    slice::store(out, 5, aid);
    slice::store(out, 5 + n, &end);
    Ok(total)
}

// The tag of an object, three bytes.
fn object_tag(kind: Kind) -> [u8; 3]
    ensures { result ≡ object_tag kind }
{
    match kind {
        Kind::Signed => [0x5F, 0xC1, 0x02],
        Kind::Unsigned => [0x5F, 0xC1, 0x04],
        Kind::Fingers => [0xDF, 0xC1, 0x03],
        Kind::Picture => [0xDF, 0xC1, 0x08],
    }
}

// The bytes of SELECT beside its AID, and the most that a command has, which is SELECT with the longest AID;
// `select_beside` and `command_most` in the definitions.
const SELECT_BYTES: usize = 6;

pub const COMMAND_MOST: usize = AID_MOST + SELECT_BYTES;

// The bytes of GET DATA and of GET RESPONSE.
const GET_DATA_BYTES: usize = 11;

const GET_RESPONSE_BYTES: usize = 5;

// GET DATA: 00 CB 3F FF 05 5C 03, three tag bytes, last byte.
pub fn get_data(kind: Kind, last: u8, out: &mut [u8]) -> Result<usize, CommandError>
    ensures { (command_answer result, out.new) ≡ get_data_of kind last out.old }
{
    if out.len() < GET_DATA_BYTES {
        return Err(CommandError::ShortBuffer);
    }
    let tag = object_tag(kind);
    let end = [last];
    slice::store(out, 0, b"\x00\xCB\x3F\xFF\x05\x5C\x03");
    slice::store(out, 7, &tag);
    slice::store(out, 10, &end);
    Ok(GET_DATA_BYTES)
}

// GET RESPONSE: 00 C0 00 00, then the second status byte of the answer just taken, which was a 61 or a 6C.
pub fn get_response(second: u8, out: &mut [u8]) -> Result<usize, CommandError>
    ensures { (command_answer result, out.new) ≡ get_response_of second out.old }
{
    if out.len() < GET_RESPONSE_BYTES {
        return Err(CommandError::ShortBuffer);
    }
    let last = [second];
    slice::store(out, 0, b"\x00\xC0\x00\x00");
    slice::store(out, 4, &last);
    Ok(GET_RESPONSE_BYTES)
}

// What a status word says: 90 00, all is sent; 61 and a byte, more is to be asked for; 6C and a byte, send that again
// with this last byte; any other.
#[derive(Clone, Copy, Debug, PartialEq, Eq)]
pub enum Status {
    Done,
    More(u8),
    Again(u8),
    Other,
}

// The status word s; other where s is not two bytes.
pub fn status_of(s: &[u8]) -> Status
    ensures { result ≡ status_of s.now }
{
    match s {
        b"\x90\x00" => Status::Done,
        [0x61, second] => Status::More(*second),
        [0x6C, second] => Status::Again(*second),
        _ => Status::Other,
    }
}
