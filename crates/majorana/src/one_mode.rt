// The Majorana map of one mode. Its functions stand again for two modes: a row is a struct of its
// entries by value, so no function is of both sizes.

ghost use Rattle.std.specs.Prelude.{◌≡◌};
ghost use Rattle.majorana.specs.Majorana.{trace2_of, coefficients2_of, less_row2_of, plus_row2_of, distance2_of, majorana_map1_of};
ghost use Rattle.majorana.specs.Parts.{re_trace_row2_of, fitted2_of};

use crate::maps::{Fitted, Mapped};
use gate::{Complex, Mat2, Matrix, Row2};
use named::{X, Y};
use real::{Map2, Real2};

// The real part of t + a row times the column (x, y).
#[tactic(auto, unfolding(crate::specs::Parts::re_trace_row2_of))]
fn trace_row(t: f64, row: Row2, x: Complex, y: Complex) -> f64
    ensures { result ≡ re_trace_row2_of t row x y }
{
    let a = t + (row.c0.re * x.re - row.c0.im * x.im);
    a + (row.c1.re * y.re - row.c1.im * y.im)
}

// The real part of the trace of c · w.
#[tactic(auto, unfolding(crate::specs::Majorana::trace2_of, crate::specs::Majorana::trace_row2_of, crate::specs::Parts::re_trace_row2_of))]
fn trace(c: Mat2, w: Mat2) -> f64
    ensures { result ≡ (trace2_of c w).re }
{
    let t0 = trace_row(0.0, c.r0, w.r0.c0, w.r1.c0);
    trace_row(t0, c.r1, w.r0.c1, w.r1.c1)
}

// The coefficients of w in the two operators.
#[tactic(auto, unfolding(crate::specs::Majorana::coefficients2_of, crate::specs::Majorana::coefficient2_of))]
fn coefficients(w: Mat2) -> Real2
    ensures { result ≡ coefficients2_of w }
{
    let x0 = trace(X, w) / 2.0;
    let x1 = trace(Y, w) / 2.0;
    Real2 { x0, x1 }
}

// w - x c, a row of it.
#[tactic(auto, unfolding(crate::specs::Majorana::less_row2_of))]
fn less_row(w: Row2, c: Row2, x: f64) -> Row2
    ensures { result ≡ less_row2_of w c x }
{
    let c0 = w.c0 - c.c0.scale(x);
    let c1 = w.c1 - c.c1.scale(x);
    Row2 { c0, c1 }
}

// s + the squares of a row's entries.
#[tactic(auto, unfolding(crate::specs::Majorana::plus_row2_of))]
fn plus_row(s: f64, row: Row2) -> f64
    ensures { result ≡ plus_row2_of s row }
{
    let a = s + row.c0.norm_sqr();
    a + row.c1.norm_sqr()
}

// How far w is from the span of the operators, squared.
fn distance(w: Mat2, q: Real2) -> f64
    ensures { result ≡ distance2_of w q }
{
    let x = X;
    let y = Y;
    let s = plus_row(0.0, less_row(less_row(w.r0, x.r0, q.x0), y.r0, q.x1));
    plus_row(s, less_row(less_row(w.r1, x.r1, q.x0), y.r1, q.x1)) / 2.0
}

// The coefficients of w, and what is left of it.
#[tactic(auto, unfolding(crate::specs::Parts::fitted2_of))]
fn fitted(w: Mat2) -> Fitted<Real2>
    ensures { result ≡ fitted2_of w }
{
    let q = coefficients(w);
    let d = distance(w, q);
    Fitted { q, d }
}

// The map and its residual. One root is taken, of the larger square.
pub fn majorana_map1(u: Mat2) -> Mapped<Map2>
    ensures { result ≡ majorana_map1_of u }
{
    let ud = u.adjoint();
    let a = fitted(ud * (X * u));
    let b = fitted(ud * (Y * u));
    let residual = num::sqrt(num::max(num::max(0.0, a.d), b.d));
    let r0 = a.q;
    let r1 = b.q;
    let q = Map2 { r0, r1 };
    Mapped { q, residual }
}
