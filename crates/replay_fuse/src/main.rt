// Replays the stored tapes and prints how many of the items that fusing makes of them, and of the
// counts and slots beside these, agree with those of the original: matrices and residuals bit for
// bit, except on angled tapes, of which the list has kinds and wires only.

#![tactic(auto)]

mod items; // items.rt: the items of the lent work
mod tallies; // tallies.rt: the comparisons of a list
mod tapes; // tapes.rt: a tape fused in lent work

use reading::large_buffer;
use std::io;
use std::rt::Files;
use stored::records::{AnyRecords, Taped};
use tallies::Tallies;

fn replay(rt: &(impl Files + Print + Eprint), path: &str) -> io::Result<()> {
    let mut space = large_buffer();
    let n = stored::named_list(rt, path.as_bytes(), &mut space)?;
    let mut tallies = Tallies::default();
    for (taped, record) in AnyRecords::<Taped>::new(&space[..n]) {
        let taped = taped.unwrap_or(Taped::Angled);
        if tapes::compare(taped, record, &mut tallies).is_none() {
            tallies.unreadable();
        }
    }
    tallies.print(rt)
}

fn main(rt: HostRuntime) -> io::Result<()> {
    replay(&rt, "cuts.bin")?;
    replay(&rt, "mixed.bin")?;
    replay(&rt, "angled.bin")?;
    replay(&rt, "ties.bin")
}
