// The gate program (document 01, "List text and the gate program"): runs the lines of standard input, and prints each
// line's answer and the stamp at the end.
#![tactic(auto)]

use append::Text;

fn main(rt: HostRuntime) {
    let mut input = [0u8; gate_stream::READ];
    let mut out = Text::new();
    // how the program ended stands on standard error; the exit status says nothing of it
    let _end = gate_stream::run_gate(
        &mut rt.stdin(),
        &mut rt.stdout(),
        &mut rt.stderr(),
        &mut input,
        &mut out,
    );
}
