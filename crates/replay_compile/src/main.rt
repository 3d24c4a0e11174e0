// Replays the stored tapes through `compile` and prints how many answers agree with those of the original: the number and the place of a refusal, every
// field of the report, every place of the operation slice, and what is left in the lent work.

#![tactic(auto)]

mod tapes; // tapes.rt: a tape compiled in lent slices

use reading::large_buffer;
use std::io;
use std::rt::Files;
use stored::records::{AnyRecords, Taped};
use tapes::Tallies;

fn replay(rt: &(impl Files + Print + Eprint), path: &str) -> io::Result<()> {
    let mut space = large_buffer();
    let n = stored::named_list(rt, path.as_bytes(), &mut space)?;
    let mut tallies = Tallies::default();
    for (_, record) in AnyRecords::<Taped>::new(&space[..n]) {
        if tapes::replay(record, &mut tallies).is_none() {
            tallies.unreadable();
        }
    }
    tallies.print(rt)
}

fn main(rt: HostRuntime) -> io::Result<()> {
    replay(&rt, "edges.bin")?;
    replay(&rt, "graphs.bin")?;
    replay(&rt, "exact.bin")?;
    replay(&rt, "angled.bin")
}
