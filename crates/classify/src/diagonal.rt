// Diagonal blocks: the off-diagonal norm, the phases of the two wires, the phase of the two together,
// and the rotation that a wire gets.

ghost use Rattle.std.specs.Prelude.{◌≡◌};
ghost use Rattle.classify.specs.Diagonal.{plus_three_of, offdiag4_of, phase_a_of, phase_b_of, interaction_of, phase_none_of};
ghost use Rattle.classify.specs.Diagonal.{unit_of, turns_of, rotation_map_of, rotation_of};
ghost use Rattle.classify.specs.Parts.{divisor_of};

use gate::{Complex, Mat4};
use real::{Map2, Real2};

// s + the squares of three entries.
#[tactic(auto, unfolding(crate::specs::Diagonal::plus_three_of))]
fn plus_three(s: f64, a: Complex, b: Complex, c: Complex) -> f64
    ensures { result ≡ plus_three_of s a b c }
{
    let x = s + a.norm_sqr();
    let y = x + b.norm_sqr();
    y + c.norm_sqr()
}

// The Frobenius norm of what is off the diagonal.
#[tactic(auto, unfolding(crate::specs::Diagonal::offdiag4_of, crate::specs::Diagonal::off_square_of))]
pub fn offdiag4(u: Mat4) -> f64
    ensures { result ≡ offdiag4_of u }
{
    let s0 = plus_three(0.0, u.r0.c1, u.r0.c2, u.r0.c3);
    let s1 = plus_three(s0, u.r1.c0, u.r1.c2, u.r1.c3);
    let s2 = plus_three(s1, u.r2.c0, u.r2.c1, u.r2.c3);
    num::sqrt(plus_three(s2, u.r3.c0, u.r3.c1, u.r3.c2))
}

// p_a, the phase of the first wire. It and p_b are two functions, since an entry of a matrix is a field and goes by no number.
#[tactic(auto, unfolding(crate::specs::Diagonal::phase_a_of))]
pub fn phase_a(u: Mat4) -> Complex
    ensures { result ≡ phase_a_of u }
{
    u.r2.c2 * u.r0.c0.conj()
}

// p_b, the phase of the second wire.
#[tactic(auto, unfolding(crate::specs::Diagonal::phase_b_of))]
pub fn phase_b(u: Mat4) -> Complex
    ensures { result ≡ phase_b_of u }
{
    u.r1.c1 * u.r0.c0.conj()
}

// w, the phase of the two wires together.
#[tactic(auto, unfolding(crate::specs::Diagonal::interaction_of))]
pub fn interaction(u: Mat4) -> Complex
    ensures { result ≡ interaction_of u }
{
    u.r0.c0 * u.r3.c3 * (u.r1.c1 * u.r2.c2).conj()
}

// Whether the phase w counts as none.
#[tactic(auto, unfolding(crate::specs::Diagonal::phase_none_of))]
pub fn phase_none(tol: f64, w: Complex) -> bool
    ensures { result ≡ phase_none_of tol w }
{
    w.re > 0.0 && num::abs(w.im) <= tol * w.re
}

// Whether a norm is finite and above zero.
#[tactic(auto, using(crate::proofs::Norms::norms), unfolding(crate::specs::Parts::divisor_of))]
fn divisor(r: f64) -> bool
    ensures { result ≡ divisor_of r }
{
    r > 0.0 && r < 1.0 / 0.0
}

// p divided by its norm; 1 where that cannot be.
#[tactic(auto, unfolding(crate::specs::Diagonal::unit_of, crate::specs::Diagonal::norm_of, crate::specs::Parts::divisor_of))]
pub fn unit(p: Complex) -> Complex
    ensures { result ≡ unit_of p }
{
    let r = num::sqrt(p.norm_sqr());
    if divisor(r) {
        return Complex {
            re: p.re / r,
            im: p.im / r,
        };
    }
    Complex::ONE
}

// Whether a wire with this unit gets a rotation.
#[tactic(auto, unfolding(crate::specs::Diagonal::turns_of))]
fn turns(u: Complex) -> bool
    ensures { result ≡ turns_of u }
{
    !(u.im == 0.0 && u.re > 0.0)
}

// The rotation by a unit.
#[tactic(auto, unfolding(crate::specs::Diagonal::rotation_map_of))]
fn rotation_map(u: Complex) -> Map2
    ensures { result ≡ rotation_map_of u }
{
    let r0 = Real2 {
        x0: u.re,
        x1: -u.im,
    };
    let r1 = Real2 { x0: u.im, x1: u.re };
    Map2 { r0, r1 }
}

// The rotation that a wire with the phase p gets, if it gets one.
#[tactic(auto, unfolding(crate::specs::Diagonal::rotation_of))]
pub fn rotation_of(p: Complex) -> Option<Map2>
    ensures { result ≡ rotation_of p }
{
    let u = unit(p);
    if turns(u) {
        return Some(rotation_map(u));
    }
    None
}
