// Bytes in hexadecimal: pairs of upper-case digits.
ghost use Rattle.std.specs.Prelude.{◌≡◌, ◌+◌, ◌*◌, ◌/◌, ◌≤◌, ◌<◌, min, length, take};
ghost use Rattle.common.specs.Lists.{written};
ghost use Rattle.text.specs.Hex.{digit_value, is_hex, byte_at, hex_digit, hex_digit_at};

// The value of an upper-case hexadecimal digit; 16 for any other byte. 16 and no None: byte_at takes it of any byte,
// and would have to unwrap an Option.
#[tactic(auto, unfolding(crate::specs::Hex::digit_value))]
fn digit_value(x: u8) -> u8
    ensures { result ≡ digit_value x }
{
    if x.is_ascii_digit() {
        x - b'0'
    } else if (b'A'..=b'F').contains(&x) {
        x - b'A' + 10
    } else {
        16
    }
}

// Whether s is pairs of digits, any number of them.
pub fn is_hex(s: &[u8]) -> bool
    ensures { result ≡ is_hex s.now }
{
    s.iter()
        .fold(true, |digits, x| digits & (digit_value(*x) < 16))
        & (s.len() % 2 == 0)
}

// The byte that pair i of s spells.
#[tactic(auto, unfolding(crate::specs::Hex::byte_at))]
fn byte_at(s: &[u8], i: usize) -> u8
    requires { 2 * i + 1 < length s.now }
    ensures { result ≡ byte_at s.now i }
{
    digit_value(s[2 * i]) % 16 * 16 + digit_value(s[2 * i + 1]) % 16
}

// The bytes that s spells, stored at the front of out, as far as they fit; how many they are.
pub fn read(s: &[u8], out: &mut [u8]) -> usize
    ensures is { result ≡ min (length s.now / 2) (length out.old) }
    ensures stores { out.new ≡ written out.old 0 result (byte_at s.now) }
    ensures counts { (result ≤ length out.new) × (result ≡ length (take result out.new)) }
{
    let n = (s.len() / 2).min(out.len());
    // by an index: a zip over `iter_mut` leaves a proof nothing of what it wrote
    for (i, o) in out[..n].iter_mut().enumerate() {
        *o = byte_at(s, i);
    }
    n
}

// The digit of x % 16.
#[tactic(auto, unfolding(crate::specs::Hex::hex_digit))]
pub fn digit(x: u8) -> u8
    ensures { result ≡ hex_digit x }
{
    let h = x % 16;
    if h < 10 { b'0' + h } else { b'A' + h - 10 }
}

// Digit i of the text that spells s: two digits a byte, the higher first.
#[tactic(auto, unfolding(crate::specs::Hex::hex_digit_at))]
fn digit_at(s: &[u8], i: usize) -> u8
    requires { i / 2 < length s.now }
    ensures { result ≡ hex_digit_at s.now i }
{
    let x = s[i / 2];
    if i % 2 == 0 { digit(x / 16) } else { digit(x) }
}

// The digits of the text that spells s, stored at the front of out, as far as they fit; how many they are.
pub fn write(s: &[u8], out: &mut [u8]) -> usize
    ensures is { result ≡ min (2 * length s.now) (length out.old) }
    ensures stores { out.new ≡ written out.old 0 result (hex_digit_at s.now) }
{
    let n = (2 * s.len()).min(out.len());
    // by an index, as in read
    for (i, o) in out[..n].iter_mut().enumerate() {
        *o = digit_at(s, i);
    }
    n
}
