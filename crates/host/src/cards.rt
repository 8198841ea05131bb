// The FASC-N for C and Rust: unpacked, packed, and its key; and the sizes that a host has to know.
ghost use Rattle.std.specs.Prelude.{◌≡◌};
ghost use Rattle.card.specs.Fascn.{fascn_bytes, fascn_digits, unpack_of, pack_of, key_of};
ghost use Rattle.card.specs.Command.{aid_least, aid_most, command_most};
ghost use Rattle.ccl.specs.ListText.{line_size};
ghost use Rattle.session.specs.Tables.{since, object_size, stamp_size, answer_most};
ghost use Rattle.host.specs.Image.{image_size};
ghost use Rattle.host.specs.Call.{where_number};

use crate::answer::write_value;
use crate::image::IMAGE;
use card::command::{AID_LEAST, AID_MOST, COMMAND_MOST};
use card::fascn;
use card::fascn::counts::{DIGITS, FASCN_BYTES};
use ccl::line::LINE;
use session::figures::{ANSWER_MOST, OBJECT, STAMP};

// Unpack: the 32 digits of a FASC-N.
pub fn gate_unpack(fascn: &[u8], digits: &mut [u8; DIGITS]) -> u8
    ensures number { result ≡ (unpack_of fascn.now).0 }
    ensures is { digits.new ≡ where_number 0 result (unpack_of fascn.now).1 digits.old }
{
    write_value(fascn::unpack(fascn), digits)
}

// Pack: the 25 bytes of the FASC-N with 32 digits.
pub fn gate_pack(digits: &[u8; DIGITS], fascn: &mut [u8; FASCN_BYTES]) -> u8
    ensures number { result ≡ (pack_of digits.now).0 }
    ensures is { fascn.new ≡ where_number 0 result (pack_of digits.now).1 fascn.old }
{
    write_value(fascn::pack(*digits), fascn)
}

// Key: the first 16 of 32 digits as one number.
pub fn gate_key(digits: &[u8; DIGITS]) -> u64
    ensures { result ≡ key_of digits.now }
{
    fascn::key_of(*digits).0
}

// Sizes in bytes: a session's image, the object buffer, a stamp; the most of a command and of an answer; the least and
// the most of an AID; a FASC-N, its digits, and a list line.
#[repr(C)]
#[derive(Clone, Copy, Debug, PartialEq, Eq)]
pub struct Sizes {
    pub session: usize,
    pub object: usize,
    pub stamp: usize,
    pub command_most: usize,
    pub answer_most: usize,
    pub aid_least: usize,
    pub aid_most: usize,
    pub fascn: usize,
    pub digits: usize,
    pub line: usize,
}

// The sizes, so that a host can hold the constants of gate.h against the archive that it is linked with.
pub fn gate_sizes() -> Sizes
    ensures session { result.session ≡ image_size }
    ensures object { result.object ≡ object_size }
    ensures stamp { result.stamp ≡ stamp_size since }
    ensures command { result.command_most ≡ command_most }
    ensures answer { result.answer_most ≡ answer_most }
    ensures aid { (result.aid_least ≡ aid_least) × (result.aid_most ≡ aid_most) }
    ensures fascn { (result.fascn ≡ fascn_bytes) × (result.digits ≡ fascn_digits) }
    ensures line { result.line ≡ line_size }
{
    Sizes {
        session: IMAGE,
        object: OBJECT,
        stamp: STAMP,
        command_most: COMMAND_MOST,
        answer_most: ANSWER_MOST,
        aid_least: AID_LEAST,
        aid_most: AID_MOST,
        fascn: FASCN_BYTES,
        digits: DIGITS,
        line: LINE,
    }
}
