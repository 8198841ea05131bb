// Bytes as an array of a fixed length, and the length of an array that stands in a struct.
ghost use Rattle.std.specs.Prelude.{◌≡◌, ◌≤◌, length, replicate};
ghost use Rattle.common.specs.Lists.{over_front, over_places_where};

use common::slice;

// The bytes s as an array, zeros after them; zeros alone where there are more than it has places for.
pub fn array<const N: usize>(s: &[u8]) -> [u8; N]
    ensures is { result ≡ over_places_where (replicate N 0) 0 s.now }
    ensures front { length s.now ≤ N → result ≡ over_front s.now (replicate N 0) }
    ensures whole { length s.now ≡ N → result ≡ s.now }
{
    let mut a = [0u8; N];
    slice::store(&mut a, 0, s);
    a
}

// An array that comes out of a struct has its length: a caller learns it here. For the proof alone: the call does
// nothing.
pub fn sized<T: Copy, const N: usize>(a: [T; N])
    ensures { length a ≡ N }
{}
