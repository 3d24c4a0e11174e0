// 001's `det`: of a 4 by 4 map by elimination, with the last largest pivot. The first row and the
// pivot row change places, and what is left of the other rows gets one column shorter. Each length of a row
// has its own functions, in place of a const for the length: rows are structs of floats by value.

ghost use Rattle.std.specs.Prelude.{◌≡◌, [], ◌∷◌};
ghost use Rattle.real.specs.Maps.{entry2, entry4};
ghost use Rattle.local.specs.Det.{not_below, better_of, lowered, eliminated, pivoted, det};
ghost use Rattle.local.specs.Parts.{line2, line3, line4};

use real::{Map2, Map4, Real2, Real4};

#[derive(Clone, Copy)]
pub struct Real3 {
    pub x0: f64,
    pub x1: f64,
    pub x2: f64,
}

// x is not below y by absolute value, in the total order that has a NaN above all numbers. The library's `total_cmp` asks that neither is a NaN.
fn not_below(x: f64, y: f64) -> bool
    ensures { result ≡ not_below x y }
{
    // no NaN gets to `abs`, which need not look for one
    x.is_nan() || !y.is_nan() && num::abs(y) <= num::abs(x)
}

// The best pivot row so far.
#[derive(Clone, Copy)]
pub struct Best {
    pub row: usize,
    pub head: f64,
}

impl Best {
    // Row 0, with head x.
    fn first(x: f64) -> Best
        ensures { result ≡ record { row = 0; head = x } }
    {
        Best { row: 0, head: x }
    }

    // Row i, with head x, after the best so far: of two equal ones the later.
    fn or(self, i: usize, x: f64) -> Best
        ensures { result ≡ better_of self i x }
    {
        if not_below(x, self.head) {
            return Best { row: i, head: x };
        }
        self
    }
}

// The row r less its part of the pivot row q.
fn lowered2(q: Real2, r: Real2) -> f64
    ensures { result ∷ [] ≡ lowered (line2 q) (line2 r) }
{
    let f = r.x0 / q.x0;
    r.x1 - f * q.x1
}

fn lowered3(q: Real3, r: Real3) -> Real2
    ensures { line2 result ≡ lowered (line3 q) (line3 r) }
{
    let f = r.x0 / q.x0;
    Real2 {
        x0: r.x1 - f * q.x1,
        x1: r.x2 - f * q.x2,
    }
}

fn lowered4(q: Real4, r: Real4) -> Real3
    ensures { line3 result ≡ lowered (line4 q) (line4 r) }
{
    let f = r.x0 / q.x0;
    Real3 {
        x0: r.x1 - f * q.x1,
        x1: r.x2 - f * q.x2,
        x2: r.x3 - f * q.x3,
    }
}

// One pivot more, with d so far: the pivot row q, then the others; and the choice of the pivot row.
fn pivot1(a: f64, d: f64) -> f64
    ensures { result ≡ eliminated 1 ((a ∷ []) ∷ []) d }
{
    if a == 0.0 {
        return 0.0;
    }
    d * a
}

fn below2(q: Real2, a: Real2, d: f64) -> f64
    ensures { result ≡ pivoted 1 (line2 q) (line2 a ∷ []) d }
{
    if q.x0 == 0.0 {
        return 0.0;
    }
    pivot1(lowered2(q, a), d * q.x0)
}

fn pivot2(a: Real2, b: Real2, d: f64) -> f64
    ensures { result ≡ eliminated 2 (line2 a ∷ line2 b ∷ []) d }
{
    match Best::first(a.x0).or(1, b.x0).row {
        0 => below2(a, b, d),
        _ => below2(b, a, -d),
    }
}

fn below3(q: Real3, a: Real3, b: Real3, d: f64) -> f64
    ensures { result ≡ pivoted 2 (line3 q) (line3 a ∷ line3 b ∷ []) d }
{
    if q.x0 == 0.0 {
        return 0.0;
    }
    pivot2(lowered3(q, a), lowered3(q, b), d * q.x0)
}

fn pivot3(a: Real3, b: Real3, c: Real3, d: f64) -> f64
    ensures { result ≡ eliminated 3 (line3 a ∷ line3 b ∷ line3 c ∷ []) d }
{
    match Best::first(a.x0).or(1, b.x0).or(2, c.x0).row {
        0 => below3(a, b, c, d),
        1 => below3(b, a, c, -d),
        _ => below3(c, b, a, -d),
    }
}

fn below4(q: Real4, a: Real4, b: Real4, c: Real4, d: f64) -> f64
    ensures { result ≡ pivoted 3 (line4 q) (line4 a ∷ line4 b ∷ line4 c ∷ []) d }
{
    if q.x0 == 0.0 {
        return 0.0;
    }
    pivot3(lowered4(q, a), lowered4(q, b), lowered4(q, c), d * q.x0)
}

pub fn det4(q: Map4) -> f64
    ensures { result ≡ det 4 (entry4 q) }
{
    let best = Best::first(q.r0.x0)
        .or(1, q.r1.x0)
        .or(2, q.r2.x0)
        .or(3, q.r3.x0);
    match best.row {
        0 => below4(q.r0, q.r1, q.r2, q.r3, 1.0),
        1 => below4(q.r1, q.r0, q.r2, q.r3, -1.0),
        2 => below4(q.r2, q.r1, q.r0, q.r3, -1.0),
        _ => below4(q.r3, q.r1, q.r2, q.r0, -1.0),
    }
}

pub fn det2(q: Map2) -> f64
    ensures { result ≡ det 2 (entry2 q) }
{
    q.r0.x0 * q.r1.x1 - q.r0.x1 * q.r1.x0
}
