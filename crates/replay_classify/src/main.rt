// Replays the stored blocks and prints how many of their maps, residuals, classes and phases agree, bit for
// bit, with what the proved functions compute.

#![tactic(auto)]

mod blocks; // blocks.rt: a block and what is computed of it
mod tallies; // tallies.rt: the comparisons of a list

use blocks::Block;
use reading::large_buffer;
use std::io;
use std::rt::Files;
use stored::records::AnyRecords;
use tallies::Tallies;

fn replay(rt: &(impl Files + Print + Eprint), path: &str) -> io::Result<()> {
    let mut space = large_buffer();
    let n = stored::named_list(rt, path.as_bytes(), &mut space)?;
    let mut tallies = Tallies::default();
    for (block, mut words) in AnyRecords::<Block>::new(&space[..n]) {
        let Some(block) = block else {
            continue;
        };
        if block.compare(&mut words, &mut tallies).is_none() {
            tallies.unreadable.note(false);
        }
    }
    tallies.print(rt)
}

fn main(rt: HostRuntime) -> io::Result<()> {
    replay(&rt, "gates.bin")?;
    replay(&rt, "given.bin")?;
    replay(&rt, "phases.bin")
}
