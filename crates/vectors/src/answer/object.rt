// The texts of what the readers of TLVs, templates, data objects and dates say.
#![tactic(auto, using(append::proofs::AppendLaws::texts), unfolding(crate::specs::ObjectText::place_text, crate::specs::ObjectText::nested_text, crate::specs::ObjectText::text_of_header, crate::specs::ObjectText::template_text, crate::specs::ObjectText::part_text, crate::specs::ObjectText::comma_before, crate::specs::ObjectText::field_text, crate::specs::ObjectText::object_text, crate::specs::ObjectText::date_text, crate::specs::ObjectText::text_of_real, crate::specs::ObjectText::real_text))]

ghost use Rattle.std.specs.Prelude.{◌≡◌, ◌+◌, ◌*◌, ◌/◌, ◌%◌, ◌≤◌, ◌<◌, length};
ghost use Rattle.common.specs.Lists.{all};
ghost use Rattle.card.specs.Tlv.{tag_bytes};
ghost use Rattle.text.specs.Hex.{hex_of};
ghost use Rattle.vectors.specs.ObjectText.{place_text, nested_text, text_of_header, header_text, template_text, part_text, field_text, shown_text, shown_tags, object_text, date_text, decimal_pair, two_digits, eight_digits, text_of_real, real_text};
ghost use Rattle.vectors.specs.Out.{with_text};

use crate::{Out, refusal};
use card::object::{Kind, Part};
use card::tlv::Header;
use card::{date, object, template, tlv};

// The bytes of a tag, high byte first, as many as it needs.
fn add_tag(out: &mut Out, tag: usize)
    ensures { out.new ≡ with_text out.old (hex_of (tag_bytes tag)) }
{
    let bytes = tag.to_be_bytes();
    if tag < 256 {
        out.add_hex(&bytes[7..]);
    } else if tag < 65536 {
        out.add_hex(&bytes[6..]);
    } else {
        out.add_hex(&bytes[5..]);
    }
}

// Where a value lies, and how long it is.
fn add_place(out: &mut Out, start: u64, len: u64)
    ensures { out.new ≡ with_text out.old (place_text start len) }
{
    out.add(b" at ");
    out.add_decimal(start);
    out.add(b" for ");
    out.add_decimal(len);
}

// Whether a TLV is nested, and that its place follows.
fn add_nested(out: &mut Out, nested: bool)
    ensures { out.new ≡ with_text out.old (nested_text nested) }
{
    if nested {
        out.add(b", nested, value");
    } else {
        out.add(b", plain, value");
    }
}

// A TLV that lies whole in the bytes.
fn add_whole(out: &mut Out, h: Header)
    ensures { out.new ≡ with_text out.old (text_of_header (Some h)) }
{
    out.add(b"tag ");
    add_tag(out, h.tag);
    add_nested(out, h.nested);
    add_place(out, h.start as u64, h.len as u64);
}

// What header_of says of the front of s.
pub(crate) fn add_header(out: &mut Out, s: &[u8])
    ensures { out.new ≡ with_text out.old (header_text s.now) }
{
    match tlv::header_of(s) {
        Some(h) => add_whole(out, h),
        None => out.add(b"malformed"),
    }
}

// What template says of s.
pub(crate) fn add_template(out: &mut Out, s: &[u8])
    ensures { out.new ≡ with_text out.old (template_text s.now) }
{
    match template::template(s) {
        Ok(()) => out.add(b"good"),
        Err(error) => refusal::add_cause(out, error),
    }
}

// Where a part lies, or that there is none.
fn add_part(out: &mut Out, p: Part)
    ensures { out.new ≡ with_text out.old (part_text p) }
{
    if p.len == 0 {
        out.add(b" absent");
    } else {
        add_place(out, u64::from(p.start), u64::from(p.len));
    }
}

// Field i that is shown: the one with that tag. A comma stands between two fields, and none before the first.
// kind and parts stand apart: parse gives the parts alone, and part_of takes both.
fn add_field(out: &mut Out, kind: Kind, parts: [Part; object::FIELDS], i: usize, tag: u8)
    ensures { out.new ≡ with_text out.old (field_text kind parts i tag) }
{
    if i > 0 {
        out.add(b", ");
    }
    out.add_hex(&[tag]);
    add_part(out, object::part_of(kind, parts, tag));
}

// The fields with these tags.
fn add_fields(out: &mut Out, kind: Kind, parts: [Part; object::FIELDS], tags: &[u8])
    requires { 0 < length tags.now }
    ensures { out.new ≡ with_text out.old (shown_text kind parts tags.now) }
{
    for (i, tag) in tags.iter().enumerate() {
        add_field(out, kind, parts, i, *tag);
    }
}

// The tags of the fields that are shown of an object.
fn shown_tags(kind: Kind) -> &'static [u8]
    ensures is { result.now ≡ shown_tags kind }
    ensures some { 0 < length result.now }
{
    match kind {
        Kind::Signed => b"\xEE\x30\x31\x32\x33\x34\x35\x3E",
        Kind::Unsigned => b"\xEE\x30\x31\x32\x33\x34\x35",
        Kind::Fingers | Kind::Picture => b"\xBC",
    }
}

// What parse says of the object s.
pub(crate) fn add_object(out: &mut Out, kind: Kind, s: &[u8])
    ensures { out.new ≡ with_text out.old (object_text kind s.now) }
{
    match object::parse(kind, s) {
        Ok(parts) => add_fields(out, kind, parts, shown_tags(kind)),
        Err(error) => refusal::add_cause(out, error),
    }
}

// What date::read says of the characters s.
pub(crate) fn add_date(out: &mut Out, s: &[u8])
    ensures { out.new ≡ with_text out.old (date_text s.now) }
{
    match date::read(s) {
        Ok(n) => out.add_decimal(u64::from(n)),
        Err(error) => refusal::add_cause(out, error),
    }
}

// The number that the two decimal digits of a byte spell.
fn two_digits(x: u8) -> u32
    ensures is { result ≡ two_digits x }
    ensures most { result ≤ 165 }
{
    u32::from(x / 16 * 10 + x % 16)
}

// Whether all bytes are two decimal digits.
fn all_decimal(s: &[u8]) -> bool
    ensures { result ≡ all (length s.now) (decimal_pair s.now) }
{
    s.iter().all(|x| *x / 16 < 10 && *x % 16 < 10)
}

// The number that the eight digits of four bytes spell. The four by name: a fold's closure would have to be called with
// any sum, and some overflow.
fn eight_digits(s: &[u8]) -> u32
    requires { length s.now ≡ 4 }
    ensures { result ≡ eight_digits s.now }
{
    ((two_digits(s[0]) * 100 + two_digits(s[1])) * 100 + two_digits(s[2])) * 100 + two_digits(s[3])
}

// `real`, or `not real`.
fn add_real_or_not(out: &mut Out, real: bool)
    ensures { out.new ≡ with_text out.old (text_of_real real) }
{
    if real {
        out.add(b"real");
    } else {
        out.add(b"not real");
    }
}

// What date::real says of the eight digits s, two to a byte.
pub(crate) fn add_real(out: &mut Out, s: &[u8])
    ensures { out.new ≡ with_text out.old (real_text s.now) }
{
    if s.len() == 4 && all_decimal(s) {
        add_real_or_not(out, date::real(eight_digits(s)));
    } else {
        refusal::add_no_vector(out);
    }
}
