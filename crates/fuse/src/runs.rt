// Runs of diagonal one-qubit gates on a slot into one gate (`compress` of the original).
ghost use Rattle.std.specs.Prelude.{◌≡◌};
ghost use Rattle.work.specs.Marks.{mark_at};
ghost use Rattle.work.specs.Columns.{kind_column, one_kind};
ghost use Rattle.work.specs.Lent.{Has};
ghost use Rattle.fuse.specs.Compress.{diagonal2_of, compress_step, compressed};
ghost use Rattle.fuse.specs.Passes.{compress_laws};
ghost use Rattle.fuse.specs.Lent.{Steps};

use crate::back::previous;
use crate::passes::Pass;
use gate::Mat2;
use work::{A, Kind, Work};

#[tactic(auto, unfolding(crate::specs::Compress::diagonal2_of))]
fn diagonal2(m: Mat2) -> bool
    ensures { result ≡ diagonal2_of m }
{
    m.r0.c1.is_zero() && m.r1.c0.is_zero()
}

// The one-qubit gate i: if it is diagonal, a diagonal gate just before it on its slot takes it.
#[tactic(auto, using(crate::proofs::Steps::presses))]
fn press(work: &mut Work, i: usize)
    requires { Has work.old i × (mark_at work.old.marks i kind_column ≡ one_kind) }
    ensures { Steps compress_step work.old work.new i }
{
    let s = work.mark(i, A);
    let Some(t) = previous(work, i, s) else {
        return;
    };
    if work.is(t, Kind::One) {
        let m = work.matrix::<Mat2>(i);
        let n = work.matrix::<Mat2>(t);
        if diagonal2(n) && diagonal2(m) {
            work.put_matrix(t, m * n);
            work.put_kind(i, Kind::Gone);
        }
    }
}

// All runs of diagonal one-qubit gates into one gate each.
pub struct Runs;

impl Pass for Runs {
    ghost step = { compress_step };

    ghost whole = { compressed };

    ghost laws = { compress_laws };

    #[tactic(auto, using(crate::proofs::Steps::skips))]
    fn take(work: &mut Work, i: usize) {
        if work.is(i, Kind::One) {
            press(work, i);
        }
    }
}
