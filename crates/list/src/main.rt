// Lists the image on standard input.
#![tactic(auto)]

use std::io;

fn main(rt: HostRuntime) -> io::Result<()> {
    printing::print_input(&mut rt.stdout(), &mut rt.stdin())
}
