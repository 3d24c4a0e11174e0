// The Majorana map of two adjacent modes; of one mode in one_mode.rt.

ghost use Rattle.std.specs.Prelude.{◌≡◌, [], ◌∷◌};
ghost use Rattle.gate.specs.Complex.{f0};
ghost use Rattle.gate.specs.Matrix.{row4};
ghost use Rattle.majorana.specs.Majorana.{trace4_of, coefficients4_of, less_row4_of, plus_row4_of, distance4_of, majorana_map2_of};
ghost use Rattle.majorana.specs.Parts.{re_trace_row4_of, fitted4_of, largest_of};

use crate::maps::{Fitted, Mapped};
use crate::operators::*;
use gate::{Complex, Mat4, Matrix, Row4};
use real::{Map4, Real4};

// The real part of t + a row times the column (w, x, y, z).
#[tactic(auto, unfolding(crate::specs::Parts::re_trace_row4_of))]
fn trace_row(t: f64, row: Row4, w: Complex, x: Complex, y: Complex, z: Complex) -> f64
    ensures { result ≡ re_trace_row4_of t row (row4 w x y z) }
{
    let a = t + (row.c0.re * w.re - row.c0.im * w.im);
    let b = a + (row.c1.re * x.re - row.c1.im * x.im);
    let c = b + (row.c2.re * y.re - row.c2.im * y.im);
    c + (row.c3.re * z.re - row.c3.im * z.im)
}

// The real part of the trace of c · w: the other is not used.
#[tactic(auto, unfolding(crate::specs::Majorana::trace4_of, crate::specs::Majorana::trace_row4_of, crate::specs::Parts::re_trace_row4_of))]
fn trace(c: Mat4, w: Mat4) -> f64
    ensures { result ≡ (trace4_of c w).re }
{
    let t0 = trace_row(0.0, c.r0, w.r0.c0, w.r1.c0, w.r2.c0, w.r3.c0);
    let t1 = trace_row(t0, c.r1, w.r0.c1, w.r1.c1, w.r2.c1, w.r3.c1);
    let t2 = trace_row(t1, c.r2, w.r0.c2, w.r1.c2, w.r2.c2, w.r3.c2);
    trace_row(t2, c.r3, w.r0.c3, w.r1.c3, w.r2.c3, w.r3.c3)
}

// The coefficients of w in the four operators.
#[tactic(auto, using(crate::proofs::Entries::operators), unfolding(crate::specs::Majorana::coefficients4_of, crate::specs::Majorana::coefficient4_of))]
fn coefficients(w: Mat4) -> Real4
    ensures { result ≡ coefficients4_of w }
{
    let x0 = trace(MAJORANA0, w) / 4.0;
    let x1 = trace(MAJORANA1, w) / 4.0;
    let x2 = trace(MAJORANA2, w) / 4.0;
    let x3 = trace(MAJORANA3, w) / 4.0;
    Real4 { x0, x1, x2, x3 }
}

// w - x c, a row of it.
#[tactic(auto, unfolding(crate::specs::Majorana::less_row4_of))]
fn less_row(w: Row4, c: Row4, x: f64) -> Row4
    ensures { result ≡ less_row4_of w c x }
{
    let c0 = w.c0 - c.c0.scale(x);
    let c1 = w.c1 - c.c1.scale(x);
    let c2 = w.c2 - c.c2.scale(x);
    let c3 = w.c3 - c.c3.scale(x);
    Row4 { c0, c1, c2, c3 }
}

// s + the squares of a row's entries.
#[tactic(auto, unfolding(crate::specs::Majorana::plus_row4_of))]
fn plus_row(s: f64, row: Row4) -> f64
    ensures { result ≡ plus_row4_of s row }
{
    let a = s + row.c0.norm_sqr();
    let b = a + row.c1.norm_sqr();
    let c = b + row.c2.norm_sqr();
    c + row.c3.norm_sqr()
}

// A row of w less those of the operators, each times its coefficient.
fn rest_row(w: Row4, a: Row4, b: Row4, c: Row4, d: Row4, q: Real4) -> Row4
    ensures { result ≡ less_row4_of (less_row4_of (less_row4_of (less_row4_of w a q.x0) b q.x1) c q.x2) d q.x3 }
{
    less_row(
        less_row(less_row(less_row(w, a, q.x0), b, q.x1), c, q.x2),
        d,
        q.x3,
    )
}

// How far w is from the span of the operators, squared.
fn distance(w: Mat4, q: Real4) -> f64
    ensures { result ≡ distance4_of w q }
{
    let s0 = plus_row(0.0, rest_row(w.r0, Row4::E2, J2, Row4::E1, J1, q));
    let s1 = plus_row(s0, rest_row(w.r1, Row4::E3, J3, Row4::E0, I0, q));
    let s2 = plus_row(s1, rest_row(w.r2, Row4::E0, I0, ZX2, ZY2, q));
    plus_row(s2, rest_row(w.r3, Row4::E1, I1, ZX3, ZY3, q)) / 4.0
}

// The coefficients of w, and what is left of it.
#[tactic(auto, unfolding(crate::specs::Parts::fitted4_of))]
fn fitted(w: Mat4) -> Fitted<Real4>
    ensures { result ≡ fitted4_of w }
{
    let q = coefficients(w);
    let d = distance(w, q);
    Fitted { q, d }
}

// The largest square. A NaN is passed over, as the original does.
#[tactic(auto, unfolding(crate::specs::Parts::largest_of))]
fn largest(a: f64, b: f64, c: f64, d: f64) -> f64
    ensures { result ≡ largest_of f0 (a ∷ b ∷ c ∷ d ∷ []) }
{
    num::max(num::max(num::max(num::max(0.0, a), b), c), d)
}

// The map and its residual. One root is taken, of the largest square.
pub fn majorana_map2(u: Mat4) -> Mapped<Map4>
    ensures { result ≡ majorana_map2_of u }
{
    let ud = u.adjoint();
    let a = fitted(ud * times0(u));
    let b = fitted(ud * times1(u));
    let c = fitted(ud * times2(u));
    let d = fitted(ud * times3(u));
    let residual = num::sqrt(largest(a.d, b.d, c.d, d.d));
    let r0 = a.q;
    let r1 = b.q;
    let r2 = c.q;
    let r3 = d.q;
    let q = Map4 { r0, r1, r2, r3 };
    Mapped { q, residual }
}
