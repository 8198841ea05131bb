// TLVs (document 01, section Objects): the header of the TLV at the front of a slice.
ghost use Rattle.std.specs.Prelude.{◌≡◌, ◌<◌};
ghost use Rattle.card.specs.Tlv.{ending_of, after_tag, header_of, only_of};

use common::slice;

// The header of a TLV that lies whole in the slice: its tag as a number, high byte first, whether its value is nested,
// where the value starts, and its length. Places and no slices: a field's part is kept as a place in its object.
#[derive(Clone, Copy, Debug, PartialEq, Eq)]
pub struct Header {
    pub tag: usize,
    pub nested: bool,
    pub start: usize,
    pub len: usize,
}

// The header of a TLV whose value starts at a place of s and has a length. No Header as a parameter: one made before
// this test would be a header that is none.
fn ending(s: &[u8], tag: usize, nested: bool, start: usize, len: usize) -> Option<Header>
    requires { (start < 8) × (len < 65536) }
    ensures { result ≡ ending_of s.now tag nested start len }
{
    if s.len() < start + len {
        None
    } else {
        Some(Header {
            tag,
            nested,
            start,
            len,
        })
    }
}

// The header of the TLV at the front of s, whose tag takes t bytes: its length is one byte, 81 and one, or 82 and two.
fn after_tag(s: &[u8], t: usize, tag: usize, nested: bool) -> Option<Header>
    requires { t < 4 }
    ensures { result ≡ after_tag s.now t tag nested }
{
    let a = slice::byte(s, t);
    match a {
        0x00..=0x7F => ending(s, tag, nested, t + 1, usize::from(a)),
        0x81 => ending(s, tag, nested, t + 2, usize::from(slice::byte(s, t + 1))),
        0x82 => {
            let high = slice::byte(s, t + 1);
            let low = slice::byte(s, t + 2);
            ending(
                s,
                tag,
                nested,
                t + 3,
                usize::from(u16::from_be_bytes([high, low])),
            )
        }
        _ => None,
    }
}

// The header of the TLV at the front of s: its tag is one, two or three bytes. A byte past the end reads as 0; that all
// lies within s is tested last.
pub fn header_of(s: &[u8]) -> Option<Header>
    ensures { result ≡ header_of s.now }
{
    let a = slice::byte(s, 0);
    let nested = a / 0x20 % 2 == 1;
    if a % 32 != 31 {
        return after_tag(s, 1, usize::from(a), nested);
    }
    let b = slice::byte(s, 1);
    if b < 0x80 {
        return after_tag(s, 2, usize::from(u16::from_be_bytes([a, b])), nested);
    }
    let c = slice::byte(s, 2);
    if c < 0x80 {
        after_tag(s, 3, u32::from_be_bytes([0, a, b, c]) as usize, nested)
    } else {
        None
    }
}

// The header of the TLV at the front of s, as header_of gives it. Most have a tag of one byte and a length of one byte:
// these are read here, where the walks over a template and an object call it. With this path in header_of instead, a
// template took 516 instructions for 373, and an object of nine fields 923 for 473.
pub(crate) fn next_header(s: &[u8]) -> Option<Header>
    ensures { result ≡ header_of s.now }
{
    let a = slice::byte(s, 0);
    if a % 32 != 31 {
        let n = slice::byte(s, 1);
        if n < 0x80 {
            return ending(s, usize::from(a), a / 0x20 % 2 == 1, 2, usize::from(n));
        }
    }
    header_of(s)
}

// The header of s where s is one TLV with that tag and nothing after it.
pub fn only(s: &[u8], wanted: usize) -> Option<Header>
    ensures { result ≡ only_of wanted s.now }
{
    let header = header_of(s)?;
    if (header.tag == wanted) & (header.start + header.len == s.len()) {
        Some(header)
    } else {
        None
    }
}
