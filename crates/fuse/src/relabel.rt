// The gates of a tape as events on slots. What holds before gate k (`Next`) goes with the loop's k.
ghost use Rattle.std.specs.Prelude.{◌≡◌, Bool, ℕ, ◌<◌};
ghost use Rattle.std.specs.Int.{from_bool};
ghost use Rattle.tape.specs.Good.{GoodGate};
ghost use Rattle.tape.specs.declared.gates.Gate.TheVariants.{One, Two, Three};
ghost use Rattle.work.specs.Kinds.{kind_number};
ghost use Rattle.work.specs.Lent.{Has, with_marks};
ghost use Rattle.fuse.specs.Slotted.{event_marks, Gates};
ghost use Rattle.fuse.specs.Lent.{Next, LabelsGate, Identifies, Relabels};

use gate::{Mat2, Mat4};
use tape::{Gate, HEADER_LENGTH, gate_at, next_gate};
use work::{A, B, C, Kind, LAB, Work};

// The code of an explicit Swap: codes stand in the tape as numbers.
const SWAP: usize = 18;

// The marks of event k.
#[tactic(auto, unfolding(crate::specs::Slotted::event_marks))]
fn put_event(work: &mut Work, k: usize, kind: Kind, a: u32, b: u32, c: u32)
    requires { Has work.old k }
    ensures { work.new ≡ with_marks work.old (event_marks work.old.marks k (kind_number kind) a b c) }
{
    work.put_kind(k, kind);
    work.put_mark(k, A, a);
    work.put_mark(k, B, b);
    work.put_mark(k, C, c);
}

fn label_one(work: &mut Work, k: usize, q: usize, m: Mat2)
    requires { Next work.old k × (q < work.old.slots) }
    ensures { (relabel : Bool) (code : ℕ) → LabelsGate relabel (One code q m) work.old work.new k 0 }
{
    let s = work.mark(q, LAB);
    put_event(work, k, Kind::One, s, 0, 0);
    work.put_matrix(k, m);
}

// Where relabelling is on, a Swap renames and is no event.
fn label_two(
    work: &mut Work,
    k: usize,
    relabel: bool,
    code: usize,
    a: usize,
    b: usize,
    m: Mat4,
) -> bool
    requires { Next work.old k × (a < work.old.slots) × (b < work.old.slots) }
    ensures { LabelsGate relabel (Two code a b m) work.old work.new k (from_bool result) }
{
    if relabel && code == SWAP {
        work.exchange(a, b, LAB);
        put_event(work, k, Kind::Gone, 0, 0, 0);
        return true;
    }
    let s = work.mark(a, LAB);
    let t = work.mark(b, LAB);
    put_event(work, k, Kind::Two, s, t, 0);
    work.put_matrix(k, m);
    false
}

fn label_three(work: &mut Work, k: usize, a: usize, b: usize, c: usize)
    requires { Next work.old k × (a < work.old.slots) × (b < work.old.slots) × (c < work.old.slots) }
    ensures { (relabel : Bool) → LabelsGate relabel (Three a b c) work.old work.new k 0 }
{
    let s = work.mark(a, LAB);
    let t = work.mark(b, LAB);
    let v = work.mark(c, LAB);
    put_event(work, k, Kind::Three, s, t, v);
}

// Gate k: its event. The answer is whether it is a Swap that renames.
fn label_gate(work: &mut Work, k: usize, relabel: bool, x: Gate) -> bool
    requires { Next work.old k × GoodGate work.old.slots x }
    ensures { LabelsGate relabel x work.old work.new k (from_bool result) }
{
    match x {
        Gate::One { code: _, q, m } => {
            label_one(work, k, q, m);
            false
        }
        Gate::Two { code, a, b, m } => label_two(work, k, relabel, code, a, b, m),
        Gate::Three { a, b, c } => {
            label_three(work, k, a, b, c);
            false
        }
    }
}

// Qubit q has slot q.
fn start_labels(work: &mut Work)
    ensures { Identifies work.old work.new work.old.slots }
{
    for q in 0..work.slots() {
        work.put_mark(q, LAB, q as u32);
    }
}

// All gates of an accepted tape, in its order. The answer is the number of Swaps that rename.
#[tactic(auto, using(crate::proofs::Labels::relabellings))]
pub fn relabel_all(tape: &[u8], work: &mut Work, relabel: bool) -> usize
    requires { Gates tape.now work.old.gates work.old.slots }
    ensures { Relabels relabel tape.now work.old work.new result }
{
    start_labels(work);
    let mut swaps = 0;
    let mut at = HEADER_LENGTH;
    for k in 0..work.gates() {
        let p = next_gate(tape, k, at);
        swaps += usize::from(label_gate(work, k, relabel, gate_at(tape, p.at)));
        at = p.next;
    }
    swaps
}
