// The gate program on a reader: its bytes are read in blocks to the end and handed to the crate gate_lines, and what
// that prints goes to a writer.
//
// What the contracts say is of any reader and writer: the bytes that are fed are those that the reads gave, in their
// order and all of them, and what is written is the text of the definitions for those bytes, block after block, and the
// text of the end. Where the library knows the bytes of a reader or a writer (`remaining`, `contents`), as of a slice
// or a Vec, this names each byte; of what the system reads and writes no contract can say a byte.
#![tactic(auto)]

ghost use Rattle.std.specs.Prelude.{◌≡◌, ◌-◌, ◌^◌, ◌≤◌, ◌<◌, IfSome, IfOk, OnOk, IfErr, length, take, replicate};
ghost use Rattle.std.specs.Io.KnownBytes.{Appends, ReadConsumes};
ghost use Rattle.session.specs.Tables.{object_size};
ghost use Rattle.gate_lines.specs.Input.{input_after, text_of_input};
ghost use Rattle.gate_stream.specs.Stream.{read_size, BlockFed, BlockFails, Fed, ending_text, output_for};
ghost use Rattle.gate_stream.specs.Stream.{EndsFor, reason_of};

use append::Text;
use gate_lines::input::Input;
use gate_lines::state::TEXT;
use std::io::{Read, Write};

// How many bytes are read at once, the most bytes that a byte of the input prints, and the room for what a block
// prints; `read_size`, `reply_most` and `out_size` in the definitions.
pub const READ: usize = 16384;

const REPLY_MOST: usize = 14;

pub const OUT: usize = READ * REPLY_MOST;

// Why the program ended with no stamp on standard output.
#[derive(Clone, Copy, Debug, PartialEq, Eq)]
pub enum GateError {
    // a read failed
    NoInput,
    // standard output did not take what a block prints
    NoOutput,
    // standard output did not take the text of the end
    NoEnd,
}

impl GateError {
    // The line that says so on standard error. No Display: two fixed lines for write_all; a formatter would add its
    // clauses and say no more.
    fn reason(self) -> &'static [u8]
        ensures { result.now ≡ reason_of self }
    {
        match self {
            GateError::NoInput => b"gate: the input cannot be read, so there is no stamp\n",
            GateError::NoOutput | GateError::NoEnd => {
                b"gate: standard output takes no more, so there is no stamp\n"
            }
        }
    }
}

// How many bytes a read gave, which stand at the front of input.
fn read_some<R: Read>(from: &mut R, input: &mut [u8]) -> Result<usize, GateError>
    ensures within { IfOk result (λ n. n ≤ length input.new) }
    ensures bytes { ReadConsumes (R.remaining from.old) (R.remaining from.new) result input.new }
    ensures fails { IfErr result (λ e. e ≡ GateError.NoInput) }
{
    from.read(input).map_err(|_| GateError::NoInput)
}

// The whole of a block; out is what it prints.
fn run_block(gate: &mut Input, block: &[u8], out: &mut Text<OUT>)
    requires { length block.now ≤ read_size }
    ensures state { gate.new ≡ input_after gate.old block.now }
    ensures prints { out.new ≡ text_of_input gate.old block.now }
{
    out.clear();
    // not a loop over the bytes: each turn uses as many as a line has
    let mut used = 0;
    while used < block.len() {
        let fed = gate.feed_line(block, used);
        out.add(fed.text.as_bytes());
        used = fed.used;
    }
}

// One block that is read. What it prints is written then, so that whoever sent a line has its answer before the next is
// waited for: nothing is owed to a later block.
// The reader, the writer and the two buffers are the caller's own, each lent by itself: a struct of four loans with two
// type parameters, for the four functions that take them, would be no plainer.
fn one_block<R: Read, W: Write>(
    from: &mut R,
    to: &mut W,
    gate: &mut Input,
    input: &mut [u8; READ],
    out: &mut Text<OUT>,
) -> Result<usize, GateError>
    ensures block { IfOk result (λ n. BlockFed gate.old gate.new (R.remaining from.old) (R.remaining from.new)
        input.new out.new n) }
    ensures written { IfOk result (λ n. Appends (W.contents to.old) (W.contents to.new)
        (text_of_input gate.old (take n input.new))) }
    ensures fails { IfErr result (λ why. BlockFails why gate.old gate.new (R.remaining from.old) (R.remaining from.new)
        (W.contents to.old) (W.contents to.new) input.new out.old out.new) }
{
    let n = read_some(from, input)?;
    run_block(gate, &input[..n], out);
    let taken = to.write_all(out.as_bytes());
    taken.map_err(|_| GateError::NoOutput)?;
    Ok(n)
}

// Blocks to the end of the input. A proved loop has to end, and nothing says that the input does: the turns are counted
// up to a number that no run comes to.
fn run_input<R: Read, W: Write>(
    from: &mut R,
    to: &mut W,
    gate: &mut Input,
    input: &mut [u8; READ],
    out: &mut Text<OUT>,
) -> Result<(), GateError>
    ensures { Fed gate.old gate.new (R.remaining from.old) (R.remaining from.new) (W.contents to.old) (W.contents to.new) result }
{
    for _ in 0..u64::MAX {
        let n = one_block(from, to, gate, input, out)?;
        if n == 0 {
            return Ok(());
        }
    }
    Ok(())
}

// The end of the input: out is what a last line without 0A prints, and the stamp or its refusal.
fn last_text(gate: &mut Input, out: &mut Text<OUT>)
    ensures { out.new ≡ ending_text gate.old }
{
    out.clear();
    out.add(gate.last().as_bytes());
    let end = gate.end_text();
    // so that out has room for both
    prove!(end.len() <= TEXT);
    out.add(end.as_bytes());
}

// The whole input, and the text of its end, which is handed on; where a read or a write failed there is none.
fn run_whole<R: Read, W: Write>(
    from: &mut R,
    to: &mut W,
    input: &mut [u8; READ],
    out: &mut Text<OUT>,
) -> Result<(), GateError>
    ensures for_every_list { EndsFor (replicate object_size 0) (R.remaining from.old) (R.remaining from.new) (W.contents to.old) (W.contents to.new) out.new result }
{
    let mut gate = Input::new();
    let fed = run_input(from, to, &mut gate, input, out);
    // where it failed nothing of a block is left in out: no text is handed on
    out.clear();
    fed?;
    last_text(&mut gate, out);
    to.write_all(out.as_bytes()).map_err(|_| GateError::NoEnd)
}

// The program on a reader. What it prints goes to the writer `to`, and the reason of an end without a stamp to
// `errors`; what it prints at the end stands in out.
pub fn run_gate<R: Read, W: Write, E: Write>(
    from: &mut R,
    to: &mut W,
    errors: &mut E,
    input: &mut [u8; READ],
    out: &mut Text<OUT>,
) -> Result<(), GateError>
    ensures for_every_list { EndsFor (replicate object_size 0) (R.remaining from.old) (R.remaining from.new) (W.contents to.old) (W.contents to.new) out.new result }
    ensures whole { OnOk result (IfSome (R.remaining from.old) (λ all. length all < 2 ^ 64 - 1 → Appends (W.contents to.old) (W.contents to.new) (output_for (replicate object_size 0) all))) }
    ensures quiet { OnOk result (errors.new ≡ errors.old) }
{
    let end = run_whole(from, to, input, out);
    if let Err(why) = end {
        // where standard error takes no more, nothing can be said of it: the library promises nothing of a write that
        // failed
        let _taken = errors.write_all(why.reason()).is_ok();
    }
    end
}
