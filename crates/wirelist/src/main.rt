// The program wirelist (01, "Listing"): it prints the gates of the program file on standard input, or why it is refused.
// Believe: what docs/BELIEVED.md says of input and output, of which no contract can speak.
// All else is proved in wirelist_io. Nothing calls it.
#![tactic(auto)]

use std::io;

fn main(rt: HostRuntime) -> io::Result<()> {
    wirelist_io::print_run(&mut rt.stdin(), &mut rt.stdout())
}
