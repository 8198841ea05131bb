// What all crates do with slices of bytes: one byte, the first bytes, those that follow them and those between, whether
// two are equal, where a byte stands, and bytes stored from a place on.
ghost use Rattle.std.specs.Prelude.{◌≡◌, not, ◌+◌, ◌≤◌, eqb, length, get_or, take, drop};
ghost use Rattle.std.specs.List.{list_all};
ghost use Rattle.common.specs.Bytes.{index_of};
ghost use Rattle.common.specs.Lists.{same_bytes, over_places_where};

// Byte i, 0 past the end.
pub fn byte(s: &[u8], i: usize) -> u8
    ensures { result ≡ get_or s.now i 0 }
{
    s.get(i).copied().unwrap_or(0)
}

// The first n bytes, or all.
pub fn front(s: &[u8], n: usize) -> &[u8]
    ensures { result.now ≡ take n s.now }
{
    &s[..s.len().min(n)]
}

// What follows the first n bytes; nothing past the end.
pub fn after(s: &[u8], n: usize) -> &[u8]
    ensures { result.now ≡ drop n s.now }
{
    &s[s.len().min(n)..]
}

// The n bytes from place `at` on, or as many as there are.
pub fn part(s: &[u8], at: usize, n: usize) -> &[u8]
    ensures { result.now ≡ take n (drop at s.now) }
{
    front(after(s, at), n)
}

// All bytes are equal, and there are as many. Every byte is looked at: there is no early exit.
pub fn same(a: &[u8], b: &[u8]) -> bool
    ensures { result ≡ same_bytes a.now b.now }
{
    a.len() == b.len() && a.iter().zip(b).fold(true, |same, (x, y)| same & (x == y))
}

// The bytes of a block, in which a byte is looked for at once.
const BLOCK: usize = 32;

// None of the bytes of a block is x. Every one is looked at: there is no early exit.
fn none_of(block: &[u8], x: u8) -> bool
    ensures { result ≡ list_all (λ b. not (eqb b x)) block.now }
{
    block.iter().fold(true, |absent, b| absent & (*b != x))
}

// A place from `from` on, and no x stands between the two: the blocks without an x are passed.
fn past_blocks(s: &[u8], from: usize, x: u8) -> usize
    requires { from ≤ length s.now }
    ensures is { from + index_of x (drop from s.now) ≡ result + index_of x (drop result s.now) }
    ensures inside { result ≤ length s.now }
{
    let passed = s[from..]
        .chunks_exact(BLOCK)
        .take_while(|block| none_of(block, x))
        .count();
    from + BLOCK * passed
}

// The place of the first x in s from place `from` on; the end where there is none, and `from` where that is past the
// end. The end and no None: a gate line takes all up to it in both cases, and the definitions count so (index_of).
pub fn find(s: &[u8], from: usize, x: u8) -> usize
    ensures is { result ≡ from + index_of x (drop from s.now) }
    ensures inside { from ≤ length s.now → result ≤ length s.now }
{
    if s.len() < from {
        return from;
    }
    let i = past_blocks(s, from, x);
    match s[i..].iter().position(|b| *b == x) {
        Some(k) => i + k,
        None => s.len(),
    }
}

// How many bytes stand before the first x, all of them where there is none. A number and no Option: who asks cuts there
// in both cases.
pub fn before_first(s: &[u8], x: u8) -> usize
    ensures is { result ≡ index_of x s.now }
    ensures inside { result ≤ length s.now }
{
    find(s, 0, x)
}

// The bytes s stored in out from place `at` on, where all of them fit; out as it was where they do not.
pub fn store(out: &mut [u8], at: usize, s: &[u8])
    ensures { out.new ≡ over_places_where out.old at s.now }
{
    if at <= out.len() && s.len() <= out.len() - at {
        out[at..at + s.len()].copy_from_slice(s);
    }
}
