// The program listcheck (02, ticket 3): it says whether the listing on standard input is accepted, or why it is refused.
// Believe: what docs/BELIEVED.md says of input and output, of which no contract can speak.
// All else is proved in listcheck_io. Nothing calls it.
#![tactic(auto)]

use std::io;

fn main(rt: HostRuntime) -> io::Result<()> {
    listcheck_io::print_check(&mut rt.stdin(), &mut rt.stdout())
}
