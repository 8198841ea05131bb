// Data objects (document 01, section Objects, with requests 5 and 7 of document 02): one TLV 53, whose value holds
// one-byte-tag fields, each once, in the order of the object's rows.
ghost use Rattle.std.specs.Prelude.{◌≡◌, ◌+◌, ◌≤◌, ◌<◌, ◌^◌, length};
ghost use Rattle.card.specs.Object.{rows_of, row_field, fields_from, fields_answer, object_number, object_never_zero, object_answer, object_of, part_in};
ghost use Rattle.card.specs.ObjectCode.{read_field};

use crate::date::DATE_DIGITS;
use crate::fascn::counts::FASCN_BYTES;
use crate::tlv;
use common::refusal::Numbered;
use common::slice;

// The objects that a reading asks for: 5FC102, 5FC104, DFC103 and DFC108.
#[derive(Clone, Copy, Debug, PartialEq, Eq)]
pub enum Kind {
    Signed,
    Unsigned,
    Fingers,
    Picture,
}

// The tag of a data object, and those of its fields: the buffer length, the FASC-N, the agency code, the organization
// identifier, the issuer's DUNS number, the GUID, the expiry date, the issuer's signature, and the finger templates or
// the facial image. In the definitions they are `data_object_tag`, `buffer_length_tag` and so on.
// Numbers and no enum: a card or a host may give any tag, and one of no row has the empty part.
pub const DATA_OBJECT_TAG: usize = 0x53;

pub const BUFFER_LENGTH_TAG: u8 = 0xEE;

pub const FASCN_TAG: u8 = 0x30;

pub const AGENCY_TAG: u8 = 0x31;

pub const ORGANIZATION_TAG: u8 = 0x32;

pub const DUNS_TAG: u8 = 0x33;

pub const GUID_TAG: u8 = 0x34;

pub const EXPIRY_TAG: u8 = 0x35;

pub const SIGNATURE_TAG: u8 = 0x3E;

pub const BIOMETRIC_TAG: u8 = 0xBC;

// The error detection code, which is empty and ends an object.
pub const END_TAG: u8 = 0xFE;

// A row of an object's layout: the field's tag, the least and the greatest length of its value, and whether it may be
// absent.
#[derive(Clone, Copy, Debug, PartialEq, Eq)]
pub(crate) struct Row {
    pub tag: u8,
    pub least: usize,
    pub most: usize,
    pub optional: bool,
}

// The rows with which the signed and the unsigned object begin; `first_rows` in the definitions.
const BUFFER_LENGTH: Row = Row {
    tag: BUFFER_LENGTH_TAG,
    least: 2,
    most: 2,
    optional: true,
};

const FASCN: Row = Row {
    tag: FASCN_TAG,
    least: FASCN_BYTES,
    most: FASCN_BYTES,
    optional: false,
};

const AGENCY: Row = Row {
    tag: AGENCY_TAG,
    least: 4,
    most: 4,
    optional: true,
};

const ORGANIZATION: Row = Row {
    tag: ORGANIZATION_TAG,
    ..AGENCY
};

const DUNS: Row = Row {
    tag: DUNS_TAG,
    least: 9,
    most: 9,
    optional: true,
};

// Rows after these: both objects have EXPIRY and END, and with the signed one go GUID and SIGNATURE, with the unsigned
// one OPTIONAL_GUID.
const GUID: Row = Row {
    tag: GUID_TAG,
    least: 16,
    most: 16,
    optional: false,
};

const OPTIONAL_GUID: Row = Row {
    optional: true,
    ..GUID
};

const EXPIRY: Row = Row {
    tag: EXPIRY_TAG,
    least: DATE_DIGITS,
    most: DATE_DIGITS,
    optional: false,
};

const SIGNATURE: Row = Row {
    tag: SIGNATURE_TAG,
    least: 1,
    most: 2816,
    optional: false,
};

const END: Row = Row {
    tag: END_TAG,
    least: 0,
    most: 0,
    optional: false,
};

// The rows of the objects with finger templates and with a facial image.
const FINGER_TEMPLATES: Row = Row {
    tag: BIOMETRIC_TAG,
    least: 1,
    most: 862,
    optional: false,
};

const FACIAL_IMAGE: Row = Row {
    most: 16000,
    ..FINGER_TEMPLATES
};

const OPTIONAL_END: Row = Row {
    optional: true,
    ..END
};

// The most fields that an object has; `most_fields` in the definitions.
pub const FIELDS: usize = 9;

// The rows of an object, in the papers' order.
fn rows_of(kind: Kind) -> &'static [Row]
    ensures { result.now ≡ rows_of kind }
{
    match kind {
        Kind::Signed => &[
            BUFFER_LENGTH,
            FASCN,
            AGENCY,
            ORGANIZATION,
            DUNS,
            GUID,
            EXPIRY,
            SIGNATURE,
            END,
        ],
        Kind::Unsigned => &[
            BUFFER_LENGTH,
            FASCN,
            AGENCY,
            ORGANIZATION,
            DUNS,
            OPTIONAL_GUID,
            EXPIRY,
            END,
        ],
        Kind::Fingers => &[FINGER_TEMPLATES, OPTIONAL_END],
        Kind::Picture => &[FACIAL_IMAGE, OPTIONAL_END],
    }
}

// Where a field's value lies in the whole object. An absent field has the empty part, 0 and 0, and no Option: document
// 01's field call gives "the empty part", and the image of a session keeps it as 0 and 0.
#[derive(Clone, Copy, Debug, PartialEq, Eq)]
pub struct Part {
    pub start: u32,
    pub len: u32,
}

pub const EMPTY: Part = Part { start: 0, len: 0 };

// A field read at a place: its part, and the place after it.
#[derive(Clone, Copy, Debug, PartialEq, Eq)]
pub(crate) struct FieldRead {
    pub part: Part,
    pub next: usize,
}

// Document 01's cause of a malformed object; `malformed_object` in the definitions.
pub const MALFORMED_OBJECT: u8 = 20;

// The bytes are no object of the kind.
#[derive(Clone, Copy, Debug, PartialEq, Eq)]
pub struct MalformedObject;

impl Numbered for MalformedObject {
    ghost number_of = { object_number };

    ghost never_zero = { object_never_zero };

    fn number(self) -> u8 {
        MALFORMED_OBJECT
    }
}

// The field of a row at place `at` of the value v, which begins at `base` in the whole; nothing where it is not as the
// row asks.
fn next_field(v: &[u8], base: usize, row: Row, at: usize) -> Option<FieldRead>
    requires { (at ≤ length v.now) × (base + length v.now < 2 ^ 32) }
    ensures { result ≡ read_field (row_field v.now base row at) }
{
    let absent = row.optional.then_some(FieldRead {
        part: EMPTY,
        next: at,
    });
    // the tag of a row is one byte: where another byte stands, no TLV has to be read. A byte that opens a longer tag,
    // which no row has, would be told apart by the tag below
    if slice::byte(v, at) != row.tag {
        return absent;
    }
    let Some(header) = tlv::next_header(slice::after(v, at)) else {
        return absent;
    };
    if header.tag != usize::from(row.tag) {
        return absent;
    }
    let value = at + header.start;
    let allowed = (row.least..=row.most).contains(&header.len);
    allowed.then_some(FieldRead {
        part: Part {
            start: (base + value) as u32,
            len: header.len as u32,
        },
        next: value + header.len,
    })
}

// The fields of an object in its value v, which begins at `base` in the whole: each as its row asks, and nothing after
// the last. v and base, and not what is left of v: a part is a place in the whole object.
fn fields(v: &[u8], base: usize, kind: Kind) -> Result<[Part; FIELDS], MalformedObject>
    requires { base + length v.now < 2 ^ 32 }
    ensures { object_answer result ≡ fields_answer (fields_from v.now base (rows_of kind) 0) }
{
    let rows = rows_of(kind);
    let mut parts = [EMPTY; FIELDS];
    let mut at: usize = 0;
    for (i, row) in rows.iter().enumerate() {
        let field = next_field(v, base, *row, at).ok_or(MalformedObject)?;
        // by an index: a zip over `iter_mut` leaves a proof nothing of what it wrote
        parts[i] = field.part;
        at = field.next;
    }
    if at == v.len() {
        Ok(parts)
    } else {
        Err(MalformedObject)
    }
}

// The part of each field of the object s, in the order of the rows, and empty parts past the last row.
pub fn parse(kind: Kind, s: &[u8]) -> Result<[Part; FIELDS], MalformedObject>
    ensures { object_answer result ≡ object_of kind s.now }
{
    let header = tlv::only(s, DATA_OBJECT_TAG).ok_or(MalformedObject)?;
    fields(slice::part(s, header.start, header.len), header.start, kind)
}

// Of the parts that parse gave, that of the field with a tag; the empty part where no row of the object has the tag.
// kind and parts stand apart: the image of a session keeps nine parts, in the order of the rows.
pub fn part_of(kind: Kind, parts: [Part; FIELDS], tag: u8) -> Part
    ensures { result ≡ part_in (rows_of kind) parts tag }
{
    match rows_of(kind).iter().position(|row| row.tag == tag) {
        Some(i) => parts[i],
        None => EMPTY,
    }
}
