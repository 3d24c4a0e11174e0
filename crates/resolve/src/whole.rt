// Fusing as a whole, from the events that relabelling leaves.
ghost use Rattle.std.specs.Prelude.{◌≤◌};
ghost use Rattle.fuse.specs.Lent.{SlotsFrom};
ghost use Rattle.resolve.specs.Lent.{Fuses};

use crate::choose::Rules;
use crate::events::resolve_all;
use crate::settle::Tally;
use crate::slots::{begin, finish};
use fuse::{Blocks, Runs, run_pass};
use work::Work;

// The events of the lent work become items: those of blocks in the blocks' records,
// the remainders in the slots' records. `swaps` explicit Swaps were renamings.
#[tactic(auto, using(crate::proofs::Wholes::only_within))]
pub fn fuse_events(work: &mut Work, rules: Rules, swaps: usize) -> Tally
    requires { SlotsFrom work.old 0 × (swaps ≤ work.old.gates) }
    ensures { Fuses rules.relabel rules.tol work.old work.new swaps result }
{
    run_pass::<Blocks>(work);
    run_pass::<Runs>(work);
    begin(work);
    let t = resolve_all(work, rules, swaps);
    finish(work);
    t
}
