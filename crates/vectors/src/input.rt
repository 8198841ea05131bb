// The input in blocks: the text of a block's lines, the bytes of a line that is not whole yet, and the text of a last
// line.
ghost use Rattle.std.specs.Prelude.{◌≡◌, [], ◌≤◌, length, take, drop};
ghost use Rattle.common.specs.Lists.{over_front};
ghost use Rattle.vectors.specs.Input.{lines_text, rest_of, last_line_text};
ghost use Rattle.vectors.specs.Out.{with_text};

use crate::{Out, line};
use common::slice;

// The text of a block's lines, each of which ends by 0A, in place of what stands in the buffer. How many bytes of the
// block are used: the rest is no whole line. By places and no split: the place after the last 0A is the answer, and what
// follows it is no line yet.
fn text_of_lines(out: &mut Out, block: &[u8]) -> usize
    ensures text { out.new ≡ with_text [] (lines_text [] block.now) }
    ensures rest { rest_of [] block.now ≡ drop result block.now }
    ensures inside { result ≤ length block.now }
{
    out.clear();
    let mut from = 0;
    let mut end = slice::find(block, 0, b'\n');
    while end < block.len() {
        line::add_line(out, &block[from..end]);
        from = end + 1;
        end = slice::find(block, from, b'\n');
    }
    from
}

// The text of a last line without 0A, where it has a byte, in place of what stands in the buffer.
pub(crate) fn text_of_last(out: &mut Out, s: &[u8])
    ensures { out.new ≡ with_text [] (last_line_text s.now) }
{
    out.clear();
    if !s.is_empty() {
        line::add_line(out, s);
    }
}

// The first `end` bytes of a block: the text of their lines takes the place of what stands in the buffer, and what is
// no whole line yet is moved to the front of the block. How many bytes those are.
pub(crate) fn use_block(block: &mut [u8], out: &mut Out, end: usize) -> usize
    requires { end ≤ length block.old }
    ensures text { out.new ≡ with_text [] (lines_text [] (take end block.old)) }
    ensures holds { block.new ≡ over_front (rest_of [] (take end block.old)) block.old }
    ensures held { (result ≡ length (rest_of [] (take end block.old))) × (result ≤ end) }
{
    let used = text_of_lines(out, slice::front(block, end));
    block.copy_within(used..end, 0);
    end - used
}
