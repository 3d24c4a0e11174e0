// Replays the stored tapes through `run` and puts the stored queries to each state. Prints how many answers, reports, slices and shots agree, bit for
// bit, with the stored ones, and of each kind the first that does not.

#![tactic(auto)]

mod tapes; // tapes.rt: a tape run in lent slices

use reading::large_buffer;
use std::io;
use std::rt::Files;
use stored::records::{AnyRecords, Taped};
use stored_queries::counts::Counts;

fn replay(rt: &(impl Files + Print + Eprint), path: &str) -> io::Result<()> {
    let mut space = large_buffer();
    let n = stored::named_list(rt, path.as_bytes(), &mut space)?;
    let mut counts = Counts::default();
    for (tape, (_, record)) in AnyRecords::<Taped>::new(&space[..n]).enumerate() {
        if tapes::replay(record, tape, &mut counts).is_none() {
            counts.answers.note(tape, Err(0));
        }
    }
    counts.print(rt)
}

fn main(rt: HostRuntime) -> io::Result<()> {
    replay(&rt, "edges.bin")?;
    replay(&rt, "register.bin")?;
    replay(&rt, "signs.bin")?;
    replay(&rt, "mixed.bin")
}
