// Cancelled card lists for C and Rust: read from text, written, merged, and a number looked up in the visual list.
ghost use Rattle.std.specs.Prelude.{◌≡◌, length};
ghost use Rattle.ccl.specs.ListText.{read_of, keys_after, write_of, text_after};
ghost use Rattle.ccl.specs.Merge.{merge_of, merged_after};
ghost use Rattle.ccl.specs.Visual.{malformed_visual, typed_of};
ghost use Rattle.host.specs.Call.{where_number};

use crate::answer::write_value;
use ccl::list::ReadError;
use ccl::visual::LookUpError;
use ccl::{list, merge, visual};
use common::refusal::Numbered;

// List read: the keys to the front of keys and how many to count; beside 20 the number of the first malformed line to
// line.
pub fn gate_list_read(text: &[u8], keys: &mut [u64], count: &mut usize, line: &mut usize) -> u8
    ensures number { result ≡ (read_of text.now (length keys.old)).0 }
    ensures counts { count.new ≡ where_number 0 result (read_of text.now (length keys.old)).1 count.old }
    ensures names { line.new ≡ where_number 20 result (read_of text.now (length keys.old)).1 line.old }
    ensures is { keys.new ≡ keys_after text.now keys.old }
{
    match list::read(text, keys) {
        // the same arm stands in gate_cin_look_up, of another enum, whose number is another
        Err(e @ ReadError::Malformed(n)) => {
            *line = n;
            e.number()
        }
        answer => write_value(answer, count),
    }
}

// List write: the lines of the keys to the front of out, and how many keys to count.
pub fn gate_list_write(keys: &[u64], out: &mut [u8], count: &mut usize) -> u8
    ensures number { result ≡ (write_of keys.now (length out.old)).0 }
    ensures counts { count.new ≡ where_number 0 result (write_of keys.now (length out.old)).1 count.old }
    ensures is { out.new ≡ text_after keys.now out.old }
{
    write_value(list::write(keys, out), count)
}

// Merge: the keys of two lists as one to the front of out, and how many to count.
pub fn gate_list_merge(official: &[u64], own: &[u64], out: &mut [u64], count: &mut usize) -> u8
    ensures number { result ≡ (merge_of official.now own.now (length out.old)).0 }
    ensures counts { count.new ≡ where_number 0 result (merge_of official.now own.now (length out.old)).1 count.old }
    ensures is { out.new ≡ merged_after official.now own.now out.old }
{
    write_value(merge::merge(official, own, out), count)
}

// CIN look-up: 1 or 0 to listed; beside 24 the number of the first malformed line to line.
pub fn gate_cin_look_up(typed: &[u8], text: &[u8], listed: &mut usize, line: &mut usize) -> u8
    ensures number { result ≡ (typed_of typed.now text.now).0 }
    ensures says { listed.new ≡ where_number 0 result (typed_of typed.now text.now).1 listed.old }
    ensures names { line.new ≡ where_number malformed_visual result (typed_of typed.now text.now).1 line.old }
{
    match visual::look_up(typed, text) {
        Err(e @ LookUpError::Malformed(n)) => {
            *line = n;
            e.number()
        }
        answer => write_value(answer.map(usize::from), listed),
    }
}
