// The places of an operation, and how they are written. Its kind, 1.0 to 3.0, is a float like the rest: the slice is C's.
ghost use Rattle.std.specs.Prelude.{◌≡◌, ◌≤◌, length};
ghost use Rattle.std.proofs.Math.Seq.{paste};
ghost use Rattle.laws.specs.Bounds.{op_places};
ghost use Rattle.detect.specs.Operation.{one_places, two_places, interaction_places};

use gate::Complex;
pub use laws::OP_PLACES;
use real::{Map2, Map4};

// The places of a map of mode k.
pub fn one_places(k: u32, q: Map2) -> [f64; OP_PLACES]
    ensures { result ≡ one_places k q }
{
    let k = k as f64;
    [
        1.0, k, q.r0.x0, q.r0.x1, q.r1.x0, q.r1.x1, 0.0, 0.0, 0.0, 0.0, 0.0, 0.0, 0.0, 0.0, 0.0,
        0.0, 0.0, 0.0,
    ]
}

// The places of a map of the modes k and k + 1.
pub fn two_places(k: u32, q: Map4) -> [f64; OP_PLACES]
    ensures { result ≡ two_places k q }
{
    let k = k as f64;
    [
        2.0, k, q.r0.x0, q.r0.x1, q.r0.x2, q.r0.x3, q.r1.x0, q.r1.x1, q.r1.x2, q.r1.x3, q.r2.x0, q
            .r2
            .x1, q.r2.x2, q.r2.x3, q.r3.x0, q.r3.x1, q.r3.x2, q.r3.x3,
    ]
}

// The places of an interaction of the modes i and j.
pub fn interaction_places(i: u32, block: u32, j: u32, w: Complex) -> [f64; OP_PLACES]
    ensures { result ≡ interaction_places i block j w }
{
    let i = i as f64;
    let block = block as f64;
    let j = j as f64;
    [
        3.0, i, block, j, w.re, w.im, 0.0, 0.0, 0.0, 0.0, 0.0, 0.0, 0.0, 0.0, 0.0, 0.0, 0.0, 0.0,
    ]
}

// Writes an operation's places at the front of l; how many they are.
pub fn put(l: &mut [f64], x: &[f64]) -> usize
    requires { (length x.now ≡ op_places) × (op_places ≤ length l.old) }
    ensures put { l.new ≡ paste l.old 0 x.now op_places }
    ensures count { result ≡ op_places }
{
    // place by place: a copy of slices would need memmove of the C library
    for k in 0..OP_PLACES {
        l[k] = x[k];
    }
    OP_PLACES
}
