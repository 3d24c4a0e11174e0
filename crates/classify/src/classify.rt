// What a two-qubit block is.

ghost use Rattle.std.specs.Prelude.{◌≡◌, ◌<◌};
ghost use Rattle.num.specs.Order.{min_of};
ghost use Rattle.classify.specs.Classify.{diagonal_of, without_phase_of, residual2_of, plain_of, fallback_of, swapped_of, classify2_of};
ghost use Rattle.classify.specs.Classify.{rank_of, rank_number, residual_of, kind_code_of, code_of};

use crate::diagonal::{interaction, offdiag4, phase_none};
use gate::Mat4;
use majorana::{majorana_map2, swap4};

// What a block is, with its matchgate residual where that counts.
#[derive(Clone, Copy)]
pub enum Kind2 {
    // Diagonal, and its phase counts as none.
    Diag,
    // Diagonal, with a phase of the two wires together.
    Interaction,
    // A matchgate: its wires must be neighbours.
    Match(f64),
    // Neither.
    NonGaussian(f64),
}

// How good a kind is, the best first.
#[derive(Clone, Copy, PartialEq, Eq, PartialOrd, Ord)]
pub enum Rank {
    Gaussian,
    Interaction,
    Neither,
}

impl From<Rank> for u32 {
    ghost from_gives = { λ r n. n ≡ rank_number r };

    fn from(r: Rank) -> u32 {
        r as u32
    }
}

impl Kind2 {
    pub fn rank(self) -> Rank
        ensures { rank_number result ≡ rank_of self }
    {
        match self {
            Kind2::Diag | Kind2::Match(_) => Rank::Gaussian,
            Kind2::Interaction => Rank::Interaction,
            Kind2::NonGaussian(_) => Rank::Neither,
        }
    }

    // The residual of a matchgate and of a block that is neither, else 0: a number and no Option, since it is stored among lent floats, and goes to C.
    pub fn residual(self) -> f64
        ensures { result ≡ residual_of self }
    {
        match self {
            Kind2::Diag | Kind2::Interaction => 0.0,
            Kind2::Match(r) | Kind2::NonGaussian(r) => r,
        }
    }

    // The number by which C and the stored results name it, by a match and not by a cast: two of them hold a residual.
    fn code(self) -> u32
        ensures { (result ≡ kind_code_of self) × (result < 4) }
    {
        match self {
            Kind2::Diag => 0,
            Kind2::Interaction => 1,
            Kind2::Match(_) => 2,
            Kind2::NonGaussian(_) => 3,
        }
    }
}

// The class of a block: `v` is the matrix to apply; where `swap` is true the block is SWAP · v.
// `angled` says whether an off-diagonal test that was made on the way passed.
#[derive(Clone, Copy)]
pub struct Class2 {
    pub kind: Kind2,
    pub swap: bool,
    pub v: Mat4,
    pub angled: bool,
}

impl Class2 {
    // The number of its kind, and 4 more for a swap and 8 more where it is angled.
    #[tactic(auto, unfolding(crate::specs::Classify::code_of))]
    pub fn code(self) -> u32
        ensures { (result ≡ code_of self) × (result < 16) }
    {
        self.kind.code() + 4 * u32::from(self.swap) + 8 * u32::from(self.angled)
    }
}

// The off-diagonal test.
#[tactic(auto, unfolding(crate::specs::Classify::diagonal_of))]
fn diagonal(tol: f64, u: Mat4) -> bool
    ensures { result ≡ diagonal_of tol u }
{
    offdiag4(u) <= tol
}

// The residual alone.
#[tactic(auto, unfolding(crate::specs::Classify::residual2_of))]
fn residual2(u: Mat4) -> f64
    ensures { result ≡ residual2_of u }
{
    majorana_map2(u).residual
}

// Whether a block, diagonal or not, is diagonal and its phase counts as none.
#[tactic(auto, unfolding(crate::specs::Classify::without_phase_of))]
fn without_phase(tol: f64, diag: bool, u: Mat4) -> bool
    ensures { result ≡ without_phase_of tol diag u }
{
    diag && phase_none(tol, interaction(u))
}

// The last step without relabelling: an interaction, or neither. What earlier steps found is passed one by one: each later step needs another part of it.
#[tactic(auto, unfolding(crate::specs::Classify::plain_of))]
fn plain(diag: bool, r0: f64, u: Mat4) -> Class2
    ensures { result ≡ plain_of diag r0 u }
{
    if diag {
        return Class2 {
            kind: Kind2::Interaction,
            swap: false,
            v: u,
            angled: true,
        };
    }
    Class2 {
        kind: Kind2::NonGaussian(r0),
        swap: false,
        v: u,
        angled: false,
    }
}

// The last step with relabelling: an interaction of u, one of v = SWAP · u, or neither; `diag` and `other` say
// whether u and v are diagonal, r0 and r1 are their residuals.
#[tactic(auto, unfolding(crate::specs::Classify::fallback_of))]
fn fallback(diag: bool, other: bool, r0: f64, r1: f64, u: Mat4, v: Mat4) -> Class2
    ensures { result ≡ fallback_of diag other (min_of r0 r1) u v }
{
    if diag {
        return Class2 {
            kind: Kind2::Interaction,
            swap: false,
            v: u,
            angled: true,
        };
    }
    if other {
        return Class2 {
            kind: Kind2::Interaction,
            swap: true,
            v,
            angled: true,
        };
    }
    Class2 {
        kind: Kind2::NonGaussian(num::min(r0, r1)),
        swap: false,
        v: u,
        angled: false,
    }
}

// The steps on v = SWAP · u, and the last one with relabelling.
#[tactic(auto, unfolding(crate::specs::Classify::swapped_of))]
fn swapped(tol: f64, diag: bool, r0: f64, u: Mat4, v: Mat4) -> Class2
    ensures { result ≡ swapped_of tol diag r0 u v }
{
    let diag_v = diagonal(tol, v);
    if without_phase(tol, diag_v, v) {
        return Class2 {
            kind: Kind2::Diag,
            swap: true,
            v,
            angled: true,
        };
    }
    let r1 = residual2(v);
    if r1 <= tol {
        return Class2 {
            kind: Kind2::Match(r1),
            swap: true,
            v,
            angled: diag | diag_v,
        };
    }
    fallback(diag, diag_v, r0, r1, u, v)
}

// What the block u is: its own tests first, then, where relabelling is on, those of SWAP · u.
#[tactic(auto, unfolding(crate::specs::Classify::classify2_of))]
pub fn classify2(relabel: bool, tol: f64, u: Mat4) -> Class2
    ensures { result ≡ classify2_of relabel tol u }
{
    let diag_u = diagonal(tol, u);
    if without_phase(tol, diag_u, u) {
        return Class2 {
            kind: Kind2::Diag,
            swap: false,
            v: u,
            angled: true,
        };
    }
    let r0 = residual2(u);
    if r0 <= tol {
        return Class2 {
            kind: Kind2::Match(r0),
            swap: false,
            v: u,
            angled: diag_u,
        };
    }
    if relabel {
        return swapped(tol, diag_u, r0, u, swap4(u));
    }
    plain(diag_u, r0, u)
}
