// Runs the vectors of standard input through the proved functions of the crates card, ccl and session, and prints each
// line with what they say of it. The expected lines, in the file `stdout`, are written from the documents.
//
// A line is `PLACE: CALL HEX`: where the vector is from, one word, and pairs of upper-case hexadecimal digits. What it
// gives is `line_text` in the definitions, and src/answer.rt says how a call is added.
//
// The functions of this file read and write; what they hand on to be written is made by proved functions. What is read
// goes by blocks, and a line that does not fit a block, a text that does not fit its buffer, or a read or a write that
// fails ends the program with a line on standard error.
#![tactic(auto)]

mod answer;
mod input;
mod line;
mod refusal;

ghost use Rattle.std.specs.Prelude.{IfOk, OnOk, ◌≡◌, ◌≤◌, ◌<◌, length, take};
ghost use Rattle.std.specs.Option.{IfSome};
ghost use Rattle.vectors.specs.Ending.{reason_of};
ghost use Rattle.vectors.specs.Out.{text_size};

use append::Text;
use common::slice;
use std::io::{Read, Write};

// The most bytes of a line and its 0A.
const BLOCK: usize = 65536;

// The most bytes of text of a block; `text_size` in the definitions. An empty line gives 17 bytes of text for its one
// byte, a list of commands with a room of 64 at most 19. Only a list that asks for a field again and again gives more.
const TEXT: usize = 20 * BLOCK;

// The buffer that the texts of a block are added to.
pub(crate) type Out = Text<TEXT>;

// Why the program ends before its input does.
#[derive(Clone, Copy, Debug, PartialEq, Eq)]
enum VectorsError {
    // a line and its 0A fill the block
    LongLine,
    // the text of a block fills its buffer, and may be cut
    LongText,
    // standard input is not read
    NoInput,
    // standard output is not written
    NoOutput,
}

impl VectorsError {
    // The line that says so on standard error.
    fn reason(self) -> &'static [u8]
        ensures { result.now ≡ reason_of self }
    {
        match self {
            VectorsError::LongLine => b"vectors: a line does not fit the buffer\n",
            VectorsError::LongText => b"vectors: the text of a block does not fit the buffer\n",
            VectorsError::NoInput => b"vectors: standard input is not read\n",
            VectorsError::NoOutput => b"vectors: standard output is not written\n",
        }
    }
}

// Writes a text. One that fills its buffer may be cut, and is not written.
fn write_text(rt: &HostRuntime, out: &Out) -> Result<(), VectorsError>
    ensures { OnOk result (length out.now < text_size) }
{
    if out.is_full() {
        return Err(VectorsError::LongText);
    }
    rt.stdout()
        .write_all(out.as_bytes())
        .map_err(|_| VectorsError::NoOutput)
}

// Reads after the bytes that are held; how many bytes stand in the block then. At the end of the input they are as many
// as before.
fn read_more(rt: &HostRuntime, block: &mut [u8], held: usize) -> Result<usize, VectorsError>
    requires { held ≤ length block.old }
    ensures inside { IfOk result (λ n. (held ≤ n) × (n ≤ length block.new)) }
    ensures holds { take held block.new ≡ take held block.old }
{
    if held == block.len() {
        return Err(VectorsError::LongLine);
    }
    match rt.stdin().read(&mut block[held..]) {
        Ok(n) => Ok(held + n),
        Err(_) => Err(VectorsError::NoInput),
    }
}

// One block: it is read, and the text of its lines is written; at the end of the input that of a last line. How many
// bytes are held at the front of the block then, or None at the end.
fn one_block(
    rt: &HostRuntime,
    block: &mut [u8],
    out: &mut Out,
    held: usize,
) -> Result<Option<usize>, VectorsError>
    requires { held ≤ length block.old }
    ensures { IfOk result (λ left. IfSome left (λ n. n ≤ length block.new)) }
{
    let end = read_more(rt, block, held)?;
    if end == held {
        input::text_of_last(out, slice::front(block, held));
        write_text(rt, out)?;
        return Ok(None);
    }
    let left = input::use_block(block, out, end);
    write_text(rt, out)?;
    Ok(Some(left))
}

// The characters of figure 7, then blocks to the end of the input. A proved loop has to end, and nothing says that the
// input does: the turns are counted up to a number that no run reaches. How many bytes are held at the front of the
// block then.
fn run(rt: &HostRuntime, block: &mut [u8], out: &mut Out) -> Result<usize, VectorsError>
    ensures { IfOk result (λ held. held ≤ length block.new) }
{
    out.clear();
    answer::fascn::add_codes(out);
    write_text(rt, out)?;
    let mut held = 0;
    for _ in 0..u64::MAX {
        let Some(left) = one_block(rt, block, out, held)? else {
            return Ok(held);
        };
        held = left;
    }
    Ok(held)
}

fn main(rt: HostRuntime) {
    let mut block = [0u8; BLOCK];
    let mut out = Out::new();
    if let Err(why) = run(&rt, &mut block, &mut out) {
        // where standard error takes no more, nothing can be said of it
        let _taken = rt.stderr().write_all(why.reason()).is_ok();
    }
}
