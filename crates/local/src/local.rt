// A map applied to the state: 001's `apply_local`, two and four wide. m becomes Q m Qᵀ on the map's
// indices, and where the determinant is below zero the sign of every later index turns. Two functions in place
// of a const for the width: the steps of the two differ, as both.rt, rows.rt and columns.rt say.

ghost use Rattle.std.specs.Prelude.{◌≡◌, ◌+◌, ◌*◌, ◌≤◌, ◌<◌};
ghost use Rattle.real.specs.Maps.{local2, local4};
ghost use Rattle.local.specs.Det.{odd};
ghost use Rattle.local.specs.Apply.{step};
ghost use Rattle.local.specs.Signed.{state_of, Holds};

use super::both::both2;
use super::columns::both4;
use super::det::{det2, det4};
use super::signed::Signed;
use super::signs::{settle, settle4, turn_from};
use real::{Map2, Map4};

pub fn apply_local2(t: &mut Signed, n: usize, mode: usize, q: Map2)
    requires rows { t.old.dim ≡ 2 * n }
    requires mode { mode < n }
    ensures { Holds t.old t.new (step odd (local2 (2 * mode) q) (state_of t.old)) }
{
    let s = 2 * mode;
    settle(t, s, 2);
    both2(t.entries, n, mode, q);
    if det2(q) < 0.0 {
        turn_from(t, s + 2);
    }
}

pub fn apply_local4(t: &mut Signed, mode: usize, q: Map4)
    requires { 2 * mode + 4 ≤ t.old.dim }
    ensures { Holds t.old t.new (step odd (local4 (2 * mode) q) (state_of t.old)) }
{
    let s = 2 * mode;
    settle4(t, s);
    both4(t.entries, t.dim, s, q);
    if det4(q) < 0.0 {
        turn_from(t, s + 4);
    }
}
