// The best pair of cuts of a block's two closing tails: every pair is tried.
ghost use Rattle.std.specs.Prelude.{◌≡◌, ◌<◌, IsSome};
ghost use Rattle.gate.specs.declared.matrix.Mat4.{Mat4};
ghost use Rattle.work.specs.Lent.{Has};
ghost use Rattle.resolve.specs.Cuts.{cuts};
ghost use Rattle.resolve.specs.Choose.{candidate_of, offer_of, offers_of, try_each, choose_of};
ghost use Rattle.resolve.specs.Searched.{choice_of, search_of};
ghost use Rattle.resolve.specs.Slots.{first_row, second_row};

use crate::cuts::in_window;
use classify::{Class2, Kind2, Rank, classify2};
use gate::{Mat2, Mat4, kron};
use work::{FIRST_TAIL, SECOND_TAIL, Work};

// The rules of a compilation: whether a SWAP may rename wires, and what counts as nothing. Passed beside the work, since they are the header's.
#[derive(Clone, Copy)]
pub struct Rules {
    pub relabel: bool,
    pub tol: f64,
}

// A candidate's score, of which the least is the best: the rank first, then the level, then the gates taken.
#[derive(Clone, Copy, PartialEq, PartialOrd)]
pub struct Score {
    pub rank: Rank,
    pub level: f64,
    pub taken: usize,
}

// A candidate: its score, the cuts of the two tails, and the class that the block then has.
#[derive(Clone, Copy)]
pub struct Choice {
    pub score: Score,
    pub ka: u32,
    pub kb: u32,
    pub class: Class2,
}

// The best candidate so far, if there was one, and whether one so far was angled.
#[derive(Clone, Copy)]
pub struct Search {
    pub best: Option<Choice>,
    pub angled: bool,
}

// A candidate with its score: only of a block that is neither Gaussian nor an interaction the
// residual counts.
fn candidate(ka: usize, kb: usize, class: Class2) -> Choice
    requires { (ka < 65536) × (kb < 65536) }
    ensures { choice_of result ≡ candidate_of ka kb class }
{
    let level = match class.kind {
        Kind2::NonGaussian(residual) => residual,
        _ => 0.0,
    };
    let score = Score {
        rank: class.kind.rank(),
        level,
        taken: ka + kb,
    };
    Choice {
        score,
        ka: ka as u32,
        kb: kb as u32,
        class,
    }
}

// One candidate more: of equal scores the first stays.
fn offer(ka: usize, kb: usize, class: Class2, s: Search) -> Search
    requires { (ka < 65536) × (kb < 65536) }
    ensures searched { (base : Mat4) → search_of base result ≡ offer_of ka kb class (search_of base s) }
    ensures found { IsSome result.best }
{
    let x = candidate(ka, kb, class);
    let best = match s.best {
        Some(y) => { if x.score < y.score { x } else { y } }
        None => x,
    };
    Search {
        best: Some(best),
        angled: s.angled | class.angled,
    }
}

// Cut ka of the first tail with each cut of the second.
#[tactic(auto, using(crate::proofs::Choosing::rows))]
fn try_row(work: &Work, rules: Rules, base: Mat4, ka: usize, lb: usize, start: Search) -> Search
    requires { Has work.now ka × Has work.now lb }
    ensures searched { search_of base result
        ≡ try_each rules.relabel rules.tol base (first_row work.now.floats) (second_row work.now.floats) (offers_of ka (cuts lb)) (search_of base start) }
    ensures found { IsSome result.best }
{
    let ma = work.matrix_at::<Mat2>(ka, FIRST_TAIL);
    let mut s = start;
    for kb in 0..lb + 1 {
        if in_window(lb, kb) {
            let mb = work.matrix_at::<Mat2>(kb, SECOND_TAIL);
            let class = classify2(rules.relabel, rules.tol, kron(ma, mb) * base);
            s = offer(ka, kb, class, s);
        }
    }
    s
}

// The best pair of cuts of tails of la and lb gates, whose prefixes stand in the records.
#[tactic(auto, using(crate::proofs::Choosing::searches))]
pub fn choose(work: &Work, rules: Rules, base: Mat4, la: usize, lb: usize) -> Search
    requires { Has work.now la × Has work.now lb × (la < 65535) }
    ensures searched { search_of base result
        ≡ choose_of rules.relabel rules.tol base (first_row work.now.floats) (second_row work.now.floats) la lb }
    ensures found { IsSome result.best }
{
    let mut s = Search {
        best: None,
        angled: false,
    };
    for ka in 0..la + 1 {
        if in_window(la, ka) {
            s = try_row(work, rules, base, ka, lb, s);
        }
    }
    s
}
