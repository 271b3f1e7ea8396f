// The program qasmout (02, ticket 4): it writes the text in OpenQASM 2.0 of the listing on standard input, or why it is refused.
// Believe: what docs/BELIEVED.md says of input and output, of which no contract can speak.
// All else is proved in openqasm_io. Nothing calls it.
#![tactic(auto)]

use std::io;

fn main(rt: HostRuntime) -> io::Result<()> {
    openqasm_io::export_all(&mut rt.stdin(), &mut rt.stdout())
}
