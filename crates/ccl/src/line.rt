// A list line: `(card (1341 0001 987654) (1 1))` and 0A, with the key's 16 digits so spaced.
ghost use Rattle.std.specs.Prelude.{◌≡◌, ◌<◌, length};
ghost use Rattle.common.specs.Decimal.{digit_values, digits_of};
ghost use Rattle.card.specs.Fascn.{key_length};
ghost use Rattle.ccl.specs.Line.{good_line, line_of, line_digits, line_key, card_answer, card_of};

use card::fascn;
use card::fascn::Key;
use card::fascn::counts::KEY_DIGITS;
use text::form;

// The bytes of a line, its 0A among them; `line_size` in the definitions.
pub const LINE: usize = 32;

// A key is below this number, 10 to the power of its count of digits; `key_limit` in the definitions.
pub const KEY_LIMIT: u64 = 10_000_000_000_000_000;

// The values of the digits in a line, or in a line without its 0A.
#[tactic(auto, unfolding(crate::specs::Line::line_digits, common::specs::Lists::slice_of, common::specs::Lists::list_of))]
fn line_values(s: &[u8]) -> [u8; KEY_DIGITS]
    requires { 28 < length s.now }
    ensures { result ≡ digit_values (line_digits s.now) }
{
    [
        s[7] % 16,
        s[8] % 16,
        s[9] % 16,
        s[10] % 16,
        s[12] % 16,
        s[13] % 16,
        s[14] % 16,
        s[15] % 16,
        s[17] % 16,
        s[18] % 16,
        s[19] % 16,
        s[20] % 16,
        s[21] % 16,
        s[22] % 16,
        s[26] % 16,
        s[28] % 16,
    ]
}

// The key in a line, or in a line without its 0A.
#[tactic(auto, unfolding(crate::specs::Line::line_key))]
pub(crate) fn line_key(s: &[u8]) -> Key
    requires { 28 < length s.now }
    ensures { result.0 ≡ line_key s.now }
{
    let d = line_values(s);
    fascn::key_from(&d)
}

// Whether the bytes are a good line.
#[tactic(auto, unfolding(crate::specs::Line::good_line, crate::specs::Line::line_of, crate::specs::Line::card_text, common::specs::Lists::list_of, common::specs::Decimal::digit_of))]
pub(crate) fn good_line(s: &[u8]) -> bool
    ensures { result ≡ good_line s.now }
{
    form::between(
        b"(card (0000 0000 000000) (0 0))\n",
        b"(card (9999 9999 999999) (9 9))\n",
        s,
    )
}

// The key of a card's text, that is of a line without its 0A; None where the text is no card's, which document 01
// numbers 20. Its own strings: one constant with and without 0A would have to be cut.
pub fn card_key(s: &[u8]) -> Option<Key>
    ensures { card_answer result ≡ card_of s.now }
{
    if form::between(
        b"(card (0000 0000 000000) (0 0))",
        b"(card (9999 9999 999999) (9 9))",
        s,
    ) {
        Some(line_key(s))
    } else {
        None
    }
}

// The 16 digits of a key in ASCII, the highest first.
fn digits_of(key: Key) -> [u8; KEY_DIGITS]
    ensures { result ≡ digits_of key_length key.0 }
{
    let mut d = [0u8; KEY_DIGITS];
    let mut rest = key.0;
    // by the places: of what `iter_mut().rev()` has lent, the library promises nothing afterwards
    for k in (0..KEY_DIGITS).rev() {
        d[k] = b'0' + (rest % 10) as u8;
        rest /= 10;
    }
    d
}

// The line of a key.
#[tactic(auto, unfolding(crate::specs::Line::line_of, crate::specs::Line::card_text, common::specs::Decimal::digits_of, common::specs::Lists::list_of))]
pub(crate) fn line_of(key: Key) -> [u8; LINE]
    ensures { result ≡ line_of key.0 }
{
    let d = digits_of(key);
    [
        b'(', b'c', b'a', b'r', b'd', b' ', b'(', d[0], d[1], d[2], d[3], b' ', d[4], d[5], d[6],
        d[7], b' ', d[8], d[9], d[10], d[11], d[12], d[13], b')', b' ', b'(', d[14], b' ', d[15],
        b')', b')', b'\n',
    ]
}
