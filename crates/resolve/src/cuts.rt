// Closing tails and their cuts.
ghost use Rattle.std.specs.Prelude.{◌≡◌, ◌+◌, ◌≤◌, ◌<◌, length};
ghost use Rattle.work.specs.Sizes.{record_floats};
ghost use Rattle.work.specs.Rows.{row_floats, matrix_floats};
ghost use Rattle.resolve.specs.Cuts.{cuts, in_window};
ghost use Rattle.resolve.specs.Slots.{NextOn};
ghost use Rattle.resolve.specs.Lent.{StoresPrefixes};

use fuse::{block_on, one_on};
use gate::{Mat2, Matrix, time_step};
use work::Work;

// Longest prefix and suffix of a tail whose cut points are all tried.
const CUT_WINDOW: usize = 8;

// Whether cut t of a tail of len gates is tried.
pub fn in_window(len: usize, t: usize) -> bool
    requires { t < 65536 }
    ensures { result ≡ in_window len t }
{
    (t <= CUT_WINDOW) | (len <= t + CUT_WINDOW)
}

// How many cuts a tail of len gates has.
pub fn cut_count(len: usize) -> usize
    ensures { (result ≡ length (cuts len)) × (result ≤ 18) }
{
    len.min(2 * CUT_WINDOW + 1) + 1
}

// The first gate from j on that is on slot s. Apart from the tail, so that no matrix is held while the gates of other slots are passed over.
#[tactic(auto, using(crate::proofs::Tails::passes_over))]
fn next_on(work: &Work, j: usize, s: u32) -> Option<usize>
    requires { j ≤ work.now.gates }
    ensures { NextOn work.now.marks s j work.now.gates result }
{
    for i in j..work.gates() {
        if block_on(work, i, s) | one_on(work, i, s) {
            return Some(i);
        }
    }
    None
}

// The tail on slot s after gate k - 1: what each of its cuts takes, cut t in a row of record t. The answer is its length. `next_on` says where to go on: a
// `for` over all gates would hold the product while it passes others.
pub fn prefixes(work: &mut Work, k: usize, s: u32, row: usize) -> usize
    requires { (0 < k) × (k ≤ work.old.gates) × (matrix_floats ≤ row) × (row + row_floats ≤ record_floats) }
    ensures { StoresPrefixes work.old work.new k s row result }
{
    let mut acc = Mat2::IDENTITY;
    work.put_matrix_at(0, row, acc);
    let mut len = 0;
    let mut from = k;
    while let Some(j) = next_on(work, from, s) {
        if block_on(work, j, s) {
            return len;
        }
        acc = time_step(acc, work.matrix(j));
        len += 1;
        work.put_matrix_at(len, row, acc);
        from = j + 1;
    }
    len
}
