// The texts of what unpack and pack say, and of the characters of document 003's figure 7.
#![tactic(auto, using(append::proofs::AppendLaws::texts), unfolding(crate::specs::FascnText::digit_text, crate::specs::FascnText::again_text, crate::specs::FascnText::unpacked_text, crate::specs::FascnText::unpack_text, crate::specs::FascnText::pack_text, crate::specs::FascnText::code_text, crate::specs::FascnText::codes_text))]

ghost use Rattle.std.specs.Prelude.{◌≡◌, ◌+◌, ◌*◌, ◌<◌};
ghost use Rattle.card.specs.Fascn.{fascn_bytes, fascn_characters, fascn_digits, bit_at, pack_of};
ghost use Rattle.vectors.specs.FascnText.{opens_field, digit_text, spaced_digits, character_text, again_text, unpacked_text, unpack_text, pack_text, code_text, digit_codes, codes_text};
ghost use Rattle.vectors.specs.Out.{with_text};

use crate::{Out, refusal};
use card::fascn;
use card::fascn::counts;

// Digit k of 32 is the first of a field, and not of the first field.
fn opens_field(k: usize) -> bool
    ensures { result ≡ opens_field k }
{
    matches!(k, 4 | 8 | 14 | 15 | 16 | 26 | 27 | 31)
}

// Digit k of 32, with a space in front where it opens a field.
fn add_digit(out: &mut Out, k: usize, x: u8)
    ensures { out.new ≡ with_text out.old (digit_text k x) }
{
    if opens_field(k) {
        out.add(b" ");
    }
    out.add(&[b'0' + x % 10]);
}

// The 32 digits by field.
fn add_digits(out: &mut Out, d: &[u8; counts::DIGITS])
    ensures { out.new ≡ with_text out.old (spaced_digits fascn_digits d.now) }
{
    for (k, x) in d.iter().enumerate() {
        add_digit(out, k, *x);
    }
}

// Bit p of 25 bytes, as the digit 0 or 1.
fn bit_digit(s: [u8; counts::FASCN_BYTES], p: usize) -> u8
    requires { p < 8 * fascn_bytes }
    ensures { result ≡ bit_at s p + 48 }
{
    (s[p / 8] >> (7 - p % 8)) % 2 + 48
}

// The five bits of character i of 25 bytes, in the order sent.
fn add_character(out: &mut Out, s: [u8; counts::FASCN_BYTES], i: usize)
    requires { i < fascn_characters }
    ensures { out.new ≡ with_text out.old (character_text s i) }
{
    // five bits by name: a loop of five turns says no more
    let bits = [
        bit_digit(s, 5 * i),
        bit_digit(s, 5 * i + 1),
        bit_digit(s, 5 * i + 2),
        bit_digit(s, 5 * i + 3),
        bit_digit(s, 5 * i + 4),
    ];
    out.add(&bits);
}

// The bytes that digits pack to, and zeros where a digit is above 9.
fn packed(d: [u8; counts::DIGITS]) -> [u8; counts::FASCN_BYTES]
    ensures { result ≡ (pack_of d).1 }
{
    fascn::pack(d).unwrap_or([0; counts::FASCN_BYTES])
}

// The bytes that the digits pack to.
fn add_again(out: &mut Out, s: &[u8; counts::FASCN_BYTES])
    ensures { out.new ≡ with_text out.old (again_text s.now) }
{
    out.add(b", packed again ");
    out.add_hex(s);
}

// The digits, the check character, the key, and the bytes that the digits pack to.
fn add_unpacked(out: &mut Out, d: [u8; counts::DIGITS])
    ensures { out.new ≡ with_text out.old (unpacked_text d) }
{
    let again = packed(d);
    add_digits(out, &d);
    out.add(b", check character ");
    add_character(out, again, counts::CHECK_PLACE);
    out.add(b", key ");
    out.add_decimal(fascn::key_of(d).0);
    add_again(out, &again);
}

// What unpack says of the bytes s.
pub(crate) fn add_unpack(out: &mut Out, s: &[u8])
    ensures { out.new ≡ with_text out.old (unpack_text s.now) }
{
    match fascn::unpack(s) {
        Ok(d) => add_unpacked(out, d),
        Err(error) => refusal::add_refused(out, error),
    }
}

// What pack says of the 32 digits s.
pub(crate) fn add_pack(out: &mut Out, s: &[u8])
    ensures { out.new ≡ with_text out.old (pack_text s.now) }
{
    let Ok(d) = <[u8; counts::DIGITS]>::try_from(s) else {
        return refusal::add_no_vector(out);
    };
    match fascn::pack(d) {
        Ok(bytes) => {
            out.add(b"packed ");
            out.add_hex(&bytes);
        }
        Err(error) => refusal::add_refused(out, error),
    }
}

// A line of figure 7: character i of the FASC-N whose digits are all x.
fn add_code(out: &mut Out, name: &[u8], x: u8, i: usize)
    requires { i < fascn_characters }
    ensures { out.new ≡ with_text out.old (code_text name.now x i) }
{
    out.add(b"003 figure 7: ");
    out.add(name);
    out.add(b" is sent as ");
    add_character(out, packed([x; counts::DIGITS]), i);
    out.add(b"\n");
}

// The lines of the ten digits: each is found as the first digit.
fn add_digit_codes(out: &mut Out)
    ensures { out.new ≡ with_text out.old (digit_codes 10) }
{
    for x in 0u8..10 {
        add_code(out, &[b'0' + x], x, 1);
    }
}

// The 13 characters of figure 7, found by packing: the first digit, SS, the first FS and ES.
pub(crate) fn add_codes(out: &mut Out)
    ensures { out.new ≡ with_text out.old codes_text }
{
    add_digit_codes(out);
    add_code(out, b"Start Sentinel", 0, 0);
    add_code(out, b"Field Separator", 0, 5);
    add_code(out, b"End Sentinel", 0, 38);
}
