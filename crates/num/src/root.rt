// The square root of an f64 from its bits, of the project's own (docs/DECISIONS.md): the f64 nearest
// the exact root. A guess made in floats is tested exactly, in whole numbers, and moved by one where
// it has to be. Nothing is proved of the guess itself: were it further off, the root would be worked
// out digit by digit.

ghost use Rattle.std.specs.Prelude.{◌≡◌, ◌+◌, ◌*◌, ◌^◌, ◌≤◌, ◌<◌, IfSome};
ghost use Rattle.num.specs.Root.{RootOf, sqrt_of};
ghost use Rattle.num.specs.Bits.{inf_bits};
ghost use Rattle.num.specs.Parts.{Moved, PartsOf, WholeRoot, Evened, SquareOf, Rounded, RootBits};

use super::bits::INFINITY;

const TWO_25: u64 = 1 << 25;

const TWO_26: u64 = 1 << 26;

const TWO_27: u64 = 1 << 27;

const TWO_52: u64 = 1 << 52; // the leading digit of an f64, and the weight of its exponent's field

const BIAS: u64 = 1023; // the exponent's field of 1.0

const ONE: u64 = 0x3ff0_0000_0000_0000; // the pattern of 1.0

const HALF: u64 = 0x3fe0_0000_0000_0000; // the pattern of 0.5

const ROOT_TWO: u64 = 0x3ff6_a09e_667f_3bcd; // the pattern of √2

const ROUND: f64 = 201326592.0; // 3 * 2^26: added and taken away, it rounds a number from 1 to 2 to 2^-25

const SLACK: u64 = 16; // how far off, in 2^52, a guess's square may be for the test's sums to fit

// A number moved up by s binary places.
#[derive(Clone, Copy)]
struct Norm {
    m: u64,
    s: u64,
}

// t moved up until its leading digit stands at the place 52.
fn normalise(t: u64) -> Norm
    requires { (0 < t) × (t < 2 ^ 53) }
    ensures { Moved t result.m result.s }
{
    let s = u64::from(52 - t.ilog2());
    Norm { m: t << s, s }
}

// m, or twice m where u is odd.
fn evened(u: u64, m: u64) -> u64
    requires { m < 2 ^ 53 }
    ensures { Evened u m result }
{
    if u % 2 == 0 { m } else { m * 2 }
}

// The whole part of the root of a * 2^54, one binary digit a turn: `top` is what is left of a's
// digits, of which each turn takes two, and `rem` the remainder.
fn whole_root(a: u64) -> u64
    requires { a < 2 ^ 54 }
    ensures { WholeRoot (a * 2 ^ 54) result }
{
    let mut top = a;
    let mut rem: u64 = 0;
    let mut q: u64 = 0;
    for turn in 0..54u32 {
        let d = rem * 4 + top / TWO_52;
        let t = q * 4 + 1;
        top = top % TWO_52 * 4;
        if t <= d {
            rem = d - t;
            q = q * 2 + 1;
        } else {
            rem = d;
            q = q * 2;
        }
    }
    q
}

// The whole number nearest the root of a * 2^52, digit by digit.
fn by_digits(a: u64) -> u64
    requires { (2 ^ 52 ≤ a) × (a < 2 ^ 54) }
    ensures { Rounded a result }
{
    (whole_root(a) + 1) / 2
}

// k * 2^52 + low: two words in place of one twice as wide.
#[derive(Clone, Copy)]
struct Square {
    k: u64,
    low: u64,
}

// r * r, which one word does not hold.
#[tactic(auto, using(std::proofs::lemmas::Bool::Decides::nat_tests, crate::proofs::root::Tested::bounds, crate::proofs::root::Tested::square))]
fn square_of(r: u64) -> Square
    requires { r ≤ 2 ^ 53 }
    ensures { SquareOf r result.k result.low }
{
    let h = r / TWO_26;
    let l = r % TWO_26;
    let c = h * l;
    Square {
        k: h * h + c / TWO_25,
        low: c % TWO_25 * TWO_27 + l * l,
    }
}

// r, r - 1 or r + 1, whichever is nearest the root of a * 2^52, if one of them is. k and low are r's
// square, and a * 2^52 - r * r is d - z.
fn adjusted(a: u64, r: u64, k: u64, low: u64) -> Option<u64>
    requires a_bound { (a < 2 ^ 54) × (2 ^ 52 ≤ r) × (r ≤ 2 ^ 53) }
    requires square_of { SquareOf r k low }
    ensures { IfSome result (λ x. Rounded a x) }
{
    if a + SLACK < k {
        return None;
    }
    let t = a + SLACK - k;
    if t > 2 * SLACK {
        return None;
    }
    let d = t * TWO_52;
    let z = low + SLACK * TWO_52;
    if d <= z + r {
        if z < d + r {
            return Some(r);
        }
        if z + 2 < d + 3 * r {
            return Some(r - 1);
        }
        return None;
    }
    if d <= z + 3 * r + 2 {
        return Some(r + 1);
    }
    None
}

// Near √v for v from 1 to 2: within 1 in 14,000, by a polynomial.
fn start(v: f64) -> f64 {
    let low = 0.3699563895255296 + 0.7879232335393831 * v;
    let high = -0.18274763511913752 + 0.024937426666417364 * v;
    low + v * v * high
}

// A root s of y made better, to four times as many digits, by a step of Householder's. It is first
// rounded to 26 binary digits: then its square is exact, and the result nearly always the nearest.
fn better(y: f64, s: f64) -> f64 {
    let r = s + ROUND - ROUND;
    let t = r * r;
    r + (y - t) * (3.0 * t + y) / (4.0 * r * (t + y))
}

// Near the root of m / 2^52, or of twice that where p is 1.
fn guess(p: u64, m: u64) -> f64
    requires { (p ≤ 1) × (2 ^ 52 ≤ m) × (m < 2 ^ 53) }
{
    let b = HALF + m;
    let v = f64::from_bits(b);
    let y = f64::from_bits(b + p * TWO_52);
    let k = f64::from_bits(ONE + p * (ROOT_TWO - ONE));
    better(y, k * start(v))
}

// The whole number nearest the root of a * 2^52, from a guess at it, divided by 2^52.
fn nearest(a: u64, guess: f64) -> u64
    requires { (2 ^ 52 ≤ a) × (a < 2 ^ 54) }
    ensures { Rounded a result }
{
    if guess > 0.0 {
        let r = guess.to_bits() % TWO_52 + TWO_52;
        let s = square_of(r);
        if let Some(x) = adjusted(a, r, s.k, s.low) {
            return x;
        }
    }
    by_digits(a)
}

// A number as its digits m, the leading one at the place 52, and its exponent u: the field that it
// has or, a subnormal number, would have, and BIAS more.
#[derive(Clone, Copy)]
struct Digits {
    m: u64,
    u: u64,
}

fn parts(b: u64) -> Digits
    requires { (0 < b) × (b < inf_bits) }
    ensures { PartsOf b result.m result.u }
{
    let e = b / TWO_52;
    if e > 0 {
        return Digits {
            m: b % TWO_52 + TWO_52,
            u: e + BIAS,
        };
    }
    let n = normalise(b);
    Digits {
        m: n.m,
        u: 1 + BIAS - n.s,
    }
}

// The pattern of the root of the number above zero with the pattern b. Half of u is the root's field,
// to which r's leading digit adds the last 1.
fn root_bits(b: u64) -> u64
    requires { (0 < b) × (b < inf_bits) }
    ensures { RootBits b result }
{
    let n = parts(b);
    let u = n.u;
    let a = evened(u, n.m);
    let r = nearest(a, guess(u % 2, n.m));
    (u / 2 - 1) * TWO_52 + r
}

// Rust's `sqrt`: a NaN for a NaN and below zero, and a zero for itself, with its sign.
pub fn sqrt(x: f64) -> f64
    ensures nearest { RootOf x result }
    ensures value { result ≡ sqrt_of x }
{
    if x > 0.0 {
        let b = x.to_bits();
        if b < INFINITY {
            return f64::from_bits(root_bits(b));
        }
        return x;
    }
    if x == 0.0 { x } else { 0.0 / 0.0 }
}
