// Two-qubit gates into blocks.
ghost use Rattle.std.specs.Prelude.{◌≡◌, ◌<◌};
ghost use Rattle.work.specs.Marks.{mark_at};
ghost use Rattle.work.specs.Columns.{kind_column, two_kind};
ghost use Rattle.work.specs.Lent.{Has};
ghost use Rattle.fuse.specs.Fuse.{fuse_step, fused};
ghost use Rattle.fuse.specs.Passes.{fuse_laws};
ghost use Rattle.fuse.specs.Lent.{Joins, Steps};

use crate::back::{clear_on, newest, product_on};
use crate::passes::Pass;
use gate::{Mat4, kron, mat4_swap_qubits};
use work::{A, B, Kind, Work};

// The block t on (c, d) takes the one-qubit gates on its slots up to i, and then gate i, whose
// matrix in the block's orientation is m.
fn join(work: &mut Work, t: usize, i: usize, c: u32, d: u32, m: Mat4)
    requires { Has work.old i × (t < i) }
    ensures { Joins work.old work.new t i c d m }
{
    let x = product_on(work, t + 1, i, c);
    let y = product_on(work, t + 1, i, d);
    let core = work.matrix::<Mat4>(t);
    work.put_matrix(t, m * (kron(x, y) * core));
    clear_on(work, t + 1, i, c, d);
    work.put_kind(i, Kind::Gone);
}

// The two-qubit gate i: the open block on its slots takes it, or it starts a block.
#[tactic(auto, using(crate::proofs::Steps::grows))]
fn grow(work: &mut Work, i: usize)
    requires { Has work.old i × (mark_at work.old.marks i kind_column ≡ two_kind) }
    ensures { Steps fuse_step work.old work.new i }
{
    let a = work.mark(i, A);
    let b = work.mark(i, B);
    let Some(t) = newest(work, i, a, b) else {
        return;
    };
    if work.is(t, Kind::Two) {
        let c = work.mark(t, A);
        let d = work.mark(t, B);
        let m = work.matrix::<Mat4>(i);
        if (c, d) == (a, b) {
            join(work, t, i, c, d, m);
        } else if (c, d) == (b, a) {
            join(work, t, i, c, d, mat4_swap_qubits(m));
        }
    }
}

// All two-qubit gates into blocks.
pub struct Blocks;

impl Pass for Blocks {
    ghost step = { fuse_step };

    ghost whole = { fused };

    ghost laws = { fuse_laws };

    #[tactic(auto, using(crate::proofs::Steps::skips))]
    fn take(work: &mut Work, i: usize) {
        if work.is(i, Kind::Two) {
            grow(work, i);
        }
    }
}
