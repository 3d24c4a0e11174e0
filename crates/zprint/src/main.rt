// The printing program, on standard input.

#![tactic(auto)]

use printing::print_from;
use std::io;

fn main(rt: HostRuntime) -> io::Result<()> {
    print_from(&mut rt.stdin(), &mut io::writer(&rt))
}
