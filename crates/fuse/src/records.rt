// Tests on the marks of a gate's record.
ghost use Rattle.std.specs.Prelude.{◌≡◌};
ghost use Rattle.work.specs.Lent.{Has, Whole};
ghost use Rattle.fuse.specs.Layout.{one_at, block_at};

use work::{A, B, C, Kind, Work};

// Whether gate i is a one-qubit gate on the slot s.
#[tactic(auto, unfolding(crate::specs::Layout::one_at))]
pub fn one_on(work: &Work, i: usize, s: u32) -> bool
    requires { Has work.now i }
    ensures value { result ≡ one_at work.now.marks s i }
    ensures whole { Whole work.now }
{
    work.is(i, Kind::One) && work.mark(i, A) == s
}

// Whether gate i is a block on the slot s.
#[tactic(auto, unfolding(crate::specs::Layout::block_at))]
pub fn block_on(work: &Work, i: usize, s: u32) -> bool
    requires { Has work.now i }
    ensures value { result ≡ block_at work.now.marks s i }
    ensures whole { Whole work.now }
{
    if work.is(i, Kind::Two) {
        (work.mark(i, A) == s) | (work.mark(i, B) == s)
    } else if work.is(i, Kind::Three) {
        (work.mark(i, A) == s) | (work.mark(i, B) == s) | (work.mark(i, C) == s)
    } else {
        false
    }
}
