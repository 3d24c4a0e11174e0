// All events in time order.
ghost use Rattle.std.specs.Prelude.{◌≡◌, ◌^◌, ◌<◌, ◌≤◌};
ghost use Rattle.work.specs.Marks.{mark_at};
ghost use Rattle.work.specs.Columns.{kind_column, two_kind};
ghost use Rattle.fuse.specs.Lent.{SlotsFrom};
ghost use Rattle.resolve.specs.Slots.{fresh};
ghost use Rattle.resolve.specs.Lent.{Deals, DealsAll};

use crate::choose::{Rules, choose};
use crate::cuts::{cut_count, prefixes};
use crate::settle::{Tally, close, opening, pass, settle};
use gate::{Mat4, kron};
use work::{A, B, FIRST_TAIL, Kind, SECOND_TAIL, Work};

// The two-qubit block i: with what is open on its slots, and the best cuts of the tails after it. The counts grow with the loop, so that their bound
// (`tried_bound`) is no fact of a Tally.
fn block(work: &mut Work, rules: Rules, i: usize, t: Tally) -> Tally
    requires event { (i < work.old.gates) × SlotsFrom work.old i × (mark_at work.old.marks i kind_column ≡ two_kind) }
    requires tried_bound { (t.tried < 2 ^ 32) × (t.swaps < 2 ^ 32) }
    ensures { Deals rules.relabel rules.tol work.old work.new i t result }
{
    let a = work.mark(i, A);
    let b = work.mark(i, B);
    let x = opening(work, a as usize);
    let y = opening(work, b as usize);
    let base = work.matrix::<Mat4>(i) * kron(x, y);
    let la = prefixes(work, i + 1, a, FIRST_TAIL);
    let lb = prefixes(work, i + 1, b, SECOND_TAIL);
    let s = choose(work, rules, base, la, lb);
    let tried = cut_count(la) * cut_count(lb);
    let best = s.best.unwrap();
    settle(work, i, best);
    t.counted(best.class.swap, tried, s.angled)
}

// Event i. By tests and not by a match on its kind: the last arm of a match would not know that it is none of the three.
fn deal(work: &mut Work, rules: Rules, i: usize, t: Tally) -> Tally
    requires event { (i < work.old.gates) × SlotsFrom work.old i }
    requires tried_bound { (t.tried < 2 ^ 32) × (t.swaps < 2 ^ 32) }
    ensures { Deals rules.relabel rules.tol work.old work.new i t result }
{
    if work.is(i, Kind::Two) {
        return block(work, rules, i, t);
    }
    if work.is(i, Kind::One) {
        pass(work, i);
    } else if work.is(i, Kind::Three) {
        close(work, i);
    } else {
        work.put_kind(i, Kind::Gone);
    }
    t
}

// All events, from `swaps` renamings on.
#[tactic(auto, using(crate::proofs::Dealing::dealings))]
pub fn resolve_all(work: &mut Work, rules: Rules, swaps: usize) -> Tally
    requires { SlotsFrom work.old 0 × (swaps ≤ work.old.gates) }
    ensures { DealsAll rules.relabel rules.tol work.old work.new (fresh swaps) result }
{
    let mut t = Tally {
        swaps,
        tried: 0,
        angled: false,
    };
    for i in 0..work.gates() {
        t = deal(work, rules, i, t);
    }
    t
}
