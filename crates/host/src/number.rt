// Numbers of four and of eight bytes in an image, the highest byte first. Two functions, one for each type: what a
// caller learns of a number, that it has no more bytes, comes from its type, and a trait over the two would be longer
// than both.
ghost use Rattle.std.specs.Prelude.{◌≡◌, ◌+◌, ◌^◌, ◌≤◌, ◌<◌, length};
ghost use Rattle.common.specs.Lists.{over_places};
ghost use Rattle.host.specs.Image.{high_first};

use common::slice;

// The four bytes of a number, stored from place `at` on.
pub(crate) fn put_four(out: &mut [u8], at: usize, x: u32)
    requires { at + 4 ≤ length out.old }
    ensures is { out.new ≡ over_places out.old at (high_first 4 x) }
    ensures fits { x < 256 ^ 4 }
{
    slice::store(out, at, &x.to_be_bytes());
}

// The same with eight bytes.
pub(crate) fn put_eight(out: &mut [u8], at: usize, x: usize)
    requires { at + 8 ≤ length out.old }
    ensures is { out.new ≡ over_places out.old at (high_first 8 x) }
    ensures fits { x < 256 ^ 8 }
{
    slice::store(out, at, &x.to_be_bytes());
}
