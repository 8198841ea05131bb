// The input, in blocks as they arrive, cut into lines.
ghost use Rattle.std.specs.Prelude.{◌≡◌, [], ◌≤◌, ◌<◌, length, replicate, take};
ghost use Rattle.session.specs.Tables.{object_size};
ghost use Rattle.gate_lines.specs.Line.{line_in};
ghost use Rattle.gate_lines.specs.Gate.{fresh, gate_after, reply_to, reply_text, end_text};
ghost use Rattle.gate_lines.specs.Run.{EndPromise};
ghost use Rattle.gate_lines.specs.Input.{most_held, input_start, input_after, text_of_input, last_gate, last_text, FeedPromise, LastPromise};
ghost use Rattle.gate_lines.specs.InputCode.{used_after, part_from};

use crate::line::LONGEST;
use crate::reply;
use crate::state::{Gate, TEXT};
use append::Text;
use common::slice;
use std::marker::Model;

// How many bytes of a line are held, `most_held` in the definitions: one more than a line may have, so that a longer
// line is told from a whole one.
pub const HELD: usize = LONGEST + 1;

// The program between two bytes of its input: its state, and the first bytes of the line that is not whole yet. Clone
// and Copy alone, as `Gate` is.
#[derive(Clone, Copy)]
pub struct Input {
    gate: Gate,
    line: Text<HELD>,
}

impl Model for Input {
    ghost use Rattle.std.specs.Prelude.{◌≤◌, length};
    ghost use Rattle.gate_lines.specs.Input.{InputState, most_held};

    ghost Value = { InputState };

    ghost view = { λ a. record { gate = a.gate; held = a.line } };

    ghost invariant = { λ a. length a.line ≤ most_held };

    ghost inverse = { λ v. record { gate = v.gate; line = v.held } };
}

// How far a block is used, and what is printed.
#[derive(Clone, Copy)]
pub struct Fed {
    pub used: usize,
    pub text: Text<TEXT>,
}

impl Input {
    // Before the first byte.
    pub fn new() -> Input
        ensures { result ≡ input_start (fresh (replicate object_size 0)) }
    {
        Input {
            gate: Gate::new(),
            line: Text::new(),
        }
    }

    // At any place of the input: the program's state, and the bytes held of a line, as far as there is room.
    pub fn at(gate: Gate, held: &[u8]) -> Input
        ensures { result ≡ record { gate = gate; held = take most_held held.now } }
    {
        let mut line = Text::new();
        line.add(held);
        Input { gate, line }
    }

    // The program's state, and the bytes that are held.
    pub fn gate(&self) -> &Gate
        ensures { result.now ≡ self.now.gate }
    {
        &self.gate
    }

    pub fn held(&self) -> &[u8]
        ensures { result.now ≡ self.now.held }
    {
        self.line.as_bytes()
    }

    // The line that is held, carried out; what it prints.
    fn line_done(&mut self) -> Text<TEXT>
        ensures state { self.new ≡ record { gate = gate_after self.old.gate (line_in self.old.held); held = [] } }
        ensures prints { result ≡ reply_text (reply_to self.old.gate (line_in self.old.held)) }
    {
        let reply = self.gate.run_line(self.line.as_bytes());
        self.line.clear();
        reply::text(reply)
    }

    // The next part of a block: from place `from` on to the first 0A, which ends a line, or to the block's end.
    pub fn feed_line(&mut self, block: &[u8], from: usize) -> Fed
        ensures state { self.new ≡ input_after self.old (part_from block.now from result.used) }
        ensures prints { result.text ≡ text_of_input self.old (part_from block.now from result.used) }
        ensures used_value { result.used ≡ used_after block.now from }
        ensures onward { from < length block.now → (from < result.used) × (result.used ≤ length block.now) }
        ensures for_every_input { FeedPromise self.old (part_from block.now from result.used) result.text }
    {
        if block.len() <= from {
            return Fed {
                used: from,
                text: Text::new(),
            };
        }
        let end = slice::find(block, from, b'\n');
        self.line.add(&block[from..end]);
        if end == block.len() {
            return Fed {
                used: end,
                text: Text::new(),
            };
        }
        let used = end + 1;
        let text = self.line_done();
        Fed { used, text }
    }

    // The end of the input: a last line without 0A, where it has a byte.
    pub fn last(&mut self) -> Text<TEXT>
        ensures state { self.new ≡ record { gate = last_gate self.old; held = [] } }
        ensures prints { result ≡ last_text self.old }
        ensures for_every_input { LastPromise self.old result }
    {
        if self.line.is_empty() {
            return Text::new();
        }
        self.line_done()
    }

    // What is printed at the end: the stamp, or the number by which it is refused.
    pub fn end_text(&self) -> Text<TEXT>
        ensures is { result ≡ end_text self.now.gate.session }
        ensures for_every_list { EndPromise self.now.gate.session result }
    {
        self.gate.end_text()
    }
}
