// Runs the example scripts that its arguments name, each as the gate program would: prints the name, then what the gate
// program prints. The expected output, in the file `stdout`, is written from the documents.
#![tactic(auto)]

ghost use Rattle.std.specs.Prelude.{◌≡◌, ◌≤◌, true, IfSome, length, flat_map};
ghost use Rattle.std.specs.Io.KnownBytes.{Appends};

use append::Text;
use std::env::{Env, FillError};
use std::fs::File;
use std::io::{Error, Write};

// The most bytes of a name; one that has more is taken as empty, which no script has.
const NAME: usize = 4096;

// The parts of a line, one after another, each tried though one before it was not taken; whether all were taken. Of a
// stream that does not take one nothing can be said.
fn write_line<W: Write>(to: &mut W, parts: &[&[u8]]) -> bool
    ensures { result ≡ true → Appends (W.contents to.old) (W.contents to.new) (flat_map (λ part. part.now) parts.now) }
{
    let mut taken = true;
    for part in parts {
        taken &= to.write_all(part).is_ok();
    }
    taken
}

// A line on standard error: the name, and why its script is not run.
fn complain(rt: &HostRuntime, name: &[u8], why: &str) {
    let _taken = write_line(&mut rt.stderr(), &[name, b": ", why.as_bytes(), b"\n"]);
}

// The system's words for an error, without its number. On the heap, as the core never is: Display of an error is cut as
// a String, in a program that only runs examples.
fn complain_of(rt: &HostRuntime, name: &[u8], error: Error) {
    match format!(in rt.alloc(); "{error}") {
        Ok(said) => match said.as_str().split_once(" (os error ") {
            Some((words, _)) => complain(rt, name, words),
            None => complain(rt, name, said.as_str()),
        },
        Err(_) => complain(rt, name, "it cannot be opened"),
    }
}

fn run_script(
    rt: &HostRuntime,
    name: &[u8],
    input: &mut [u8; gate_stream::READ],
    out: &mut Text<{ gate_stream::OUT }>,
) {
    let _taken = write_line(&mut rt.stdout(), &[name, b"\n"]);
    let Ok(path) = str::from_utf8(name) else {
        return complain(rt, name, "the name is not UTF-8");
    };
    match File::open(rt, path) {
        Ok(mut script) => {
            // how it ended stands on standard error
            let _end = gate_stream::run_gate(
                &mut script,
                &mut rt.stdout(),
                &mut rt.stderr(),
                input,
                out,
            );
        }
        Err(error) => complain_of(rt, name, error),
    }
}

// The name that argument i is, which lies in the buffer; None past the last one.
fn name_of<'a>(rt: &HostRuntime, i: usize, buffer: &'a mut [u8; NAME]) -> Option<&'a [u8]>
    ensures { IfSome result (λ name. length name.now ≤ NAME) }
{
    match rt.arg(i, buffer) {
        Ok(n) => Some(&buffer[..n]),
        // the empty name is no script's: an Option of a Result for this one case would be no plainer
        Err(FillError::TooLong) => Some(b""),
        Err(FillError::NotPresent) => None,
    }
}

fn main(rt: HostRuntime) {
    let mut input = [0u8; gate_stream::READ];
    let mut out = Text::new();
    let mut buffer = [0u8; NAME];
    // by their numbers: the library's iterator over arguments fails where one is not UTF-8
    for i in 1..usize::MAX {
        let Some(name) = name_of(&rt, i, &mut buffer) else {
            return;
        };
        run_script(&rt, name, &mut input, &mut out);
    }
}
