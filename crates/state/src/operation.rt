// Operations, 001's `GaussOp`, and how they are read from their 18 places.

ghost use Rattle.std.specs.Prelude.{◌≡◌, ◌+◌, ◌^◌, ◌<◌, ◌≤◌, length};
ghost use Rattle.laws.specs.Bounds.{op_places};
ghost use Rattle.state.specs.Operation.{mode_of, real2_of, real4_of, map2_of, map4_of, interaction_at, decode_of};
ghost use Rattle.state.specs.Parts.{HasHead};

use real::{Map2, Map4, Real2, Real4};

// The unit of an interaction's phase. Not gate's Complex: nothing is computed with it, and this crate needs nothing else of that one.
#[derive(Clone, Copy)]
pub struct Unit {
    pub re: f64,
    pub im: f64,
}

#[derive(Clone, Copy)]
pub enum Operation {
    One {
        mode: usize,
        q: Map2,
    },
    Two {
        mode: usize,
        q: Map4,
    },
    Interaction {
        mode: f64,
        block: f64,
        second: f64,
        unit: Unit,
    },
}

const TWO_52: f64 = 4503599627370496.0; // from here up to twice as much an f64 is a whole number, by its last digits

const DIGITS: u64 = 1 << 52; // a pattern modulo this is the last digits

// A guess at x: the number itself if it is whole, from 0 and below 2^52. Nothing is proved of it but how large it is.
fn near(x: f64) -> usize
    ensures { result < 2 ^ 52 }
{
    (num::to_bits(x + TWO_52) % DIGITS) as usize
}

// The whole number from 0 and below n that x is, found by cutting off its fraction.
#[tactic(auto, using(std::proofs::lemmas::Bool::Decides::nat_tests), unfolding(crate::specs::Operation::is_whole, crate::specs::Operation::mode_of))]
fn mode_by_cut(x: f64, n: usize) -> Option<usize>
    ensures { result ≡ mode_of x n }
{
    if x > -1.0 && x < 18446744073709551616.0 {
        let k = std::num::truncating_f64_to_u64(x);
        if std::num::nearest_u64_to_f64(k) == x {
            let i = k as usize;
            if i < n {
                return Some(i);
            }
        }
    }
    None
}

// The whole number from 0 and below n that x is. Everything after waits for it, so a quick guess is tested first.
pub fn mode_of(x: f64, n: usize) -> Option<usize>
    ensures { result ≡ mode_of x n }
{
    let i = near(x);
    if i < n && (i as f64) == x {
        return Some(i);
    }
    mode_by_cut(x, n)
}

// Two sizes, two functions, here and below: rows are structs of floats by value. A place in the slice, as in crate gate: a part cut out first would owe the
// same bound.
fn real2_at(s: &[f64], at: usize) -> Real2
    requires { at + 2 ≤ length s.now }
    ensures { result ≡ real2_of s.now at }
{
    Real2 {
        x0: s[at],
        x1: s[at + 1],
    }
}

fn real4_at(s: &[f64], at: usize) -> Real4
    requires { at + 4 ≤ length s.now }
    ensures { result ≡ real4_of s.now at }
{
    Real4 {
        x0: s[at],
        x1: s[at + 1],
        x2: s[at + 2],
        x3: s[at + 3],
    }
}

fn map2_at(s: &[f64]) -> Map2
    requires { op_places ≤ length s.now }
    ensures { result ≡ map2_of s.now }
{
    let r0 = real2_at(s, 2);
    let r1 = real2_at(s, 4);
    Map2 { r0, r1 }
}

fn map4_at(s: &[f64]) -> Map4
    requires { op_places ≤ length s.now }
    ensures { result ≡ map4_of s.now }
{
    let r0 = real4_at(s, 2);
    let r1 = real4_at(s, 6);
    let r2 = real4_at(s, 10);
    let r3 = real4_at(s, 14);
    Map4 { r0, r1, r2, r3 }
}

fn interaction_at(s: &[f64]) -> Operation
    requires { op_places ≤ length s.now }
    ensures { result ≡ interaction_at s.now }
{
    let unit = Unit { re: s[4], im: s[5] };
    Operation::Interaction {
        mode: s[1],
        block: s[2],
        second: s[3],
        unit,
    }
}

// The operation on n modes in the first places of s, of which `kind` and `at` are the first two. An interaction's
// mode is not questioned. By tests: the kind is one of the floats that are lent, and a float is compared, not matched.
pub fn decode(n: usize, kind: f64, at: f64, s: &[f64]) -> Option<Operation>
    requires { HasHead s.now kind at }
    ensures { result ≡ decode_of n s.now }
{
    if kind == 1.0 {
        let mode = mode_of(at, n)?;
        return Some(Operation::One {
            mode,
            q: map2_at(s),
        });
    }
    if kind == 2.0 {
        if n == 0 {
            return None;
        }
        let mode = mode_of(at, n - 1)?;
        return Some(Operation::Two {
            mode,
            q: map4_at(s),
        });
    }
    if kind == 3.0 {
        return Some(interaction_at(s));
    }
    None
}
