// Looking back from a gate: the newest block or event on its slots, and the one-qubit gates between.
ghost use Rattle.std.specs.Prelude.{◌≡◌, ◌+◌, ◌-◌, ◌≤◌};
ghost use Rattle.laws.specs.Views.{between};
ghost use Rattle.work.specs.Lent.{Has};
ghost use Rattle.fuse.specs.Events.{product};
ghost use Rattle.fuse.specs.Layout.{event_at, meets_at, touches_at, Found};
ghost use Rattle.fuse.specs.Lent.{Clears};

use crate::records::{block_on, one_on};
use gate::Mat2;
use work::{Kind, Work};

// Whether gate i is a block on a or on b.
fn meets(work: &Work, i: usize, a: u32, b: u32) -> bool
    requires { Has work.now i }
    ensures { result ≡ meets_at work.now.marks a b i }
{
    block_on(work, i, a) | block_on(work, i, b)
}

// Whether gate i is on s.
fn touches(work: &Work, i: usize, s: u32) -> bool
    requires { Has work.now i }
    ensures { result ≡ touches_at work.now.marks s i }
{
    one_on(work, i, s) | block_on(work, i, s)
}

// The newest block before gate i that is on a or on b. This loop and the next one are apart, since a walk takes 8 % more instructions where the test is a
// closure (`find`), and 5 % are the bar.
#[tactic(auto, using(crate::proofs::Searches::searches))]
pub fn newest(work: &Work, i: usize, a: u32, b: u32) -> Option<usize>
    requires { i ≤ work.now.gates + work.now.slots }
    ensures { Found (meets_at work.now.marks a b) i result }
{
    for j in (0..i).rev() {
        if meets(work, j, a, b) {
            return Some(j);
        }
    }
    None
}

// The newest gate before gate i that is on s.
#[tactic(auto, using(crate::proofs::Searches::searches))]
pub fn previous(work: &Work, i: usize, s: u32) -> Option<usize>
    requires { i ≤ work.now.gates + work.now.slots }
    ensures { Found (touches_at work.now.marks s) i result }
{
    for j in (0..i).rev() {
        if touches(work, j, s) {
            return Some(j);
        }
    }
    None
}

// The time product of the one-qubit gates on s from k up to i.
#[tactic(auto, using(crate::proofs::Places::products))]
pub fn product_on(work: &Work, k: usize, i: usize, s: u32) -> Mat2
    requires { (k ≤ i) × (i ≤ work.now.gates + work.now.slots) }
    ensures { result ≡ product s (between (event_at work.now.floats work.now.marks) k (i - k)) }
{
    let mut acc = Mat2::IDENTITY;
    for j in k..i {
        if one_on(work, j, s) {
            acc = work.matrix::<Mat2>(j) * acc;
        }
    }
    acc
}

// Takes the one-qubit gates on a or b from k up to i away.
pub fn clear_on(work: &mut Work, k: usize, i: usize, a: u32, b: u32)
    requires { (k ≤ i) × (i ≤ work.old.gates + work.old.slots) }
    ensures { Clears work.old work.new k i a b }
{
    for j in k..i {
        if one_on(work, j, a) | one_on(work, j, b) {
            work.put_kind(j, Kind::Gone);
        }
    }
}
