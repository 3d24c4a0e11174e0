// Z in millionths, exactly: from the float's bits, in whole numbers.
ghost use Rattle.std.specs.Prelude.{◌≡◌, true, ◌++◌, ◌*◌, ◌^◌, ◌<◌, ◌≤◌};
ghost use Rattle.text.specs.Millionths.{rounded, million, in_range, signed, z_text, millionths as Millionths·millionths};
ghost use Rattle.text.specs.Room.{Room};

use crate::words::{Text, push_decimal, push_field};
use num::SIGN;

const MILLION: u128 = 1000000;

const TWO_52: u64 = 1 << 52; // the leading digit of an f64, and the weight of its exponent's field

const LOWEST: u64 = 1074; // the smallest f64 above zero is 2^-1074

// num / den to the nearest whole number, half to even.
#[tactic(auto, unfolding(crate::specs::Millionths::rounded))]
fn rounded(num: u128, den: u128) -> u128
    requires { (num < 2 ^ 73) × (0 < den) × (den ≤ 2 ^ 73) }
    ensures { result ≡ rounded num den }
{
    let cut = num / den;
    let twice = 2 * (num % den);
    if twice < den {
        return cut;
    }
    if twice > den {
        return cut + 1;
    }
    cut + cut % 2
}

// m / 2^s in millionths, rounded. m * 10^6 is below 2^73, so no binary place of it is lost in a u128, and over 2^74 and more it is less than a half.
fn nearest(m: u64, s: u64) -> u64
    requires { (m < 2 ^ 53) × (11 ≤ s) }
    ensures { result ≡ rounded (m * million) (2 ^ s) }
{
    if s > 73 {
        return 0;
    }
    rounded(u128::from(m) * MILLION, 1 << s) as u64
}

#[tactic(auto, unfolding(crate::specs::Millionths::in_range))]
fn in_range(x: f64) -> bool
    ensures { result ≡ in_range x }
{
    -2.0 < x && x < 2.0
}

// The magnitude of x in millionths, by its exponent's field and the digits below the leading one.
fn millionths(x: f64) -> u64
    requires { in_range x ≡ true }
    ensures { result ≡ Millionths·millionths x }
{
    let b = f64::to_bits(x);
    let e = b % SIGN / TWO_52;
    let t = b % TWO_52;
    if e == 0 {
        return nearest(t, LOWEST);
    }
    nearest(TWO_52 + t, LOWEST + 1 - e)
}

#[tactic(auto, using(std::proofs::lemmas::Bool::Decides::nat_tests), unfolding(crate::specs::Ascii::ascii, crate::specs::Millionths::signed))]
fn push_signed(text: &mut Text, minus: bool, k: u64)
    requires { Room text.old.bytes (signed minus k) }
    ensures { text.new.bytes ≡ text.old.bytes ++ signed minus k }
{
    if minus && k > 0 {
        push_field(text, "-", k);
    } else {
        push_decimal(text, k);
    }
}

#[tactic(auto, unfolding(crate::specs::Ascii::ascii, crate::specs::Millionths::z_text))]
pub fn push_z(text: &mut Text, x: f64)
    requires { Room text.old.bytes (z_text x) }
    ensures { text.new.bytes ≡ text.old.bytes ++ z_text x }
{
    if !in_range(x) {
        text.push_str("out");
        return;
    }
    push_signed(text, x < 0.0, millionths(x));
}
