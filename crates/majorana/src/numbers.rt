// Whether a map commutes with the particle number.

ghost use Rattle.std.specs.Prelude.{◌≡◌};
ghost use Rattle.real.specs.Maps.{real4};
ghost use Rattle.majorana.specs.Numbers.{commutes_j2_of, dot4_of, real_row_mul_of, close_of, close_row_of, commutes_row_of, number_conserving4_of};

use real::{Map2, Map4, Real4};

// How far apart two entries may be that count as equal.
const SLACK: f64 = 1e-9;

// The rows of J = diag(j, j), j = [[0, 1], [-1, 0]].
const J0: Real4 = Real4 {
    x0: 0.0,
    x1: 1.0,
    x2: 0.0,
    x3: 0.0,
};

const J1: Real4 = Real4 {
    x0: -1.0,
    x1: 0.0,
    x2: 0.0,
    x3: 0.0,
};

const J2: Real4 = Real4 {
    x0: 0.0,
    x1: 0.0,
    x2: 0.0,
    x3: 1.0,
};

const J3: Real4 = Real4 {
    x0: 0.0,
    x1: 0.0,
    x2: -1.0,
    x3: 0.0,
};

const J: Map4 = Map4 {
    r0: J0,
    r1: J1,
    r2: J2,
    r3: J3,
};

// The test for a map of one mode: no for a NaN.
#[tactic(auto, unfolding(crate::specs::Numbers::commutes_j2_of))]
pub fn commutes_j2(q: Map2) -> bool
    ensures { result ≡ commutes_j2_of q }
{
    num::abs(q.r0.x0 - q.r1.x1) < SLACK && num::abs(q.r0.x1 + q.r1.x0) < SLACK
}

// A row times the column (w, x, y, z): the sum of `dot4` in crate local, which this crate does not need.
#[tactic(auto, unfolding(crate::specs::Numbers::dot4_of))]
fn dot(row: Real4, w: f64, x: f64, y: f64, z: f64) -> f64
    ensures { result ≡ dot4_of row (real4 w x y z) }
{
    0.0 + row.x0 * w + row.x1 * x + row.x2 * y + row.x3 * z
}

// A row times a map.
#[tactic(auto, unfolding(crate::specs::Numbers::real_row_mul_of))]
fn row_mul(row: Real4, m: Map4) -> Real4
    ensures { result ≡ real_row_mul_of row m }
{
    let x0 = dot(row, m.r0.x0, m.r1.x0, m.r2.x0, m.r3.x0);
    let x1 = dot(row, m.r0.x1, m.r1.x1, m.r2.x1, m.r3.x1);
    let x2 = dot(row, m.r0.x2, m.r1.x2, m.r2.x2, m.r3.x2);
    let x3 = dot(row, m.r0.x3, m.r1.x3, m.r2.x3, m.r3.x3);
    Real4 { x0, x1, x2, x3 }
}

// Whether two numbers are not further apart than 1e-9: a NaN is not.
#[tactic(auto, unfolding(crate::specs::Numbers::close_of))]
fn close(a: f64, b: f64) -> bool
    ensures { result ≡ close_of a b }
{
    !(num::abs(a - b) > SLACK)
}

// Whether two rows are close entry by entry.
#[tactic(auto, unfolding(crate::specs::Numbers::close_row_of))]
fn close_row(a: Real4, b: Real4) -> bool
    ensures { result ≡ close_row_of a b }
{
    let c0 = close(a.x0, b.x0);
    let c1 = close(a.x1, b.x1);
    let c2 = close(a.x2, b.x2);
    let c3 = close(a.x3, b.x3);
    c0 & c1 & c2 & c3
}

// Whether a row of q · J is that of J · q.
#[tactic(auto, unfolding(crate::specs::Numbers::commutes_row_of))]
fn commutes_row(q: Map4, row: Real4, j: Real4) -> bool
    ensures { result ≡ commutes_row_of q row j }
{
    let a = row_mul(row, J);
    let b = row_mul(j, q);
    close_row(a, b)
}

// The test for a map of two modes: yes for a NaN.
#[tactic(auto, unfolding(crate::specs::Numbers::number_conserving4_of))]
pub fn number_conserving4(q: Map4) -> bool
    ensures { result ≡ number_conserving4_of q }
{
    let c0 = commutes_row(q, q.r0, J0);
    let c1 = commutes_row(q, q.r1, J1);
    let c2 = commutes_row(q, q.r2, J2);
    let c3 = commutes_row(q, q.r3, J3);
    c0 & c1 & c2 & c3
}
