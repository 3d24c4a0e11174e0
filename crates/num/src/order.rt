// Rust's methods of f64 that go by sign and order.

#![tactic(auto, unfolding(crate::specs::Order::max_of, crate::specs::Order::min_of, crate::specs::Order::clamp_of))]

ghost use Rattle.std.specs.Prelude.{◌≡◌};
ghost use Rattle.num.specs.Order.{abs_of, pick_of, max_of, min_of, clamp_of};

use super::bits::SIGN;

// Rust's `abs`: the sign bit cleared. The library's tests the sign and zero, and takes eleven
// instructions for these six.
pub fn abs(x: f64) -> f64
    ensures { result ≡ abs_of x }
{
    if x.is_nan() {
        return x;
    }
    f64::from_bits(x.to_bits() % SIGN)
}

// b where `second` says so, else a; but of a NaN and a number always the number.
fn pick(a: f64, b: f64, second: bool) -> f64
    ensures { result ≡ pick_of a b second }
{
    if a.is_nan() {
        return b;
    }
    if second { b } else { a }
}

// Rust's `max`. The library's leaves open which of two zeros it gives: this is always a.
pub fn max(a: f64, b: f64) -> f64
    ensures { result ≡ max_of a b }
{
    pick(a, b, a < b)
}

// Rust's `min`, of two zeros always a.
pub fn min(a: f64, b: f64) -> f64
    ensures { result ≡ min_of a b }
{
    pick(a, b, b < a)
}

// Rust's `clamp`, less its panic where lo > hi, which the library's requires not to be. A NaN stays one.
pub fn clamp(x: f64, lo: f64, hi: f64) -> f64
    ensures { result ≡ clamp_of x lo hi }
{
    let y = if x < lo { lo } else { x };
    if y > hi { hi } else { y }
}
