// Matrices in bytes, as a tape gives them: entries row by row, real before imaginary, each part an
// f64 in eight bytes, the lowest first. A matrix is read from a place in the bytes: a caller that cut a slice of its own first would owe the same bound there.
ghost use Rattle.std.specs.Prelude.{◌≡◌, ◌+◌, ◌≤◌, length};
ghost use Rattle.gate.specs.Given.{complex_at, given_row_at};

use crate::complex::Complex;
use crate::matrix::Row4;

#[tactic(auto, unfolding(crate::specs::Given::complex_at))]
pub fn complex_at(s: &[u8], at: usize) -> Complex
    requires { at + 16 ≤ length s.now }
    ensures { result ≡ complex_at s.now at }
{
    let re = num::f64_at(s, at);
    let im = num::f64_at(s, at + 8);
    Complex { re, im }
}

#[tactic(auto, unfolding(crate::specs::Given::given_row_at))]
pub fn given_row(s: &[u8], at: usize) -> Row4
    requires { at + 64 ≤ length s.now }
    ensures { result ≡ given_row_at s.now at }
{
    let c0 = complex_at(s, at);
    let c1 = complex_at(s, at + 16);
    let c2 = complex_at(s, at + 32);
    let c3 = complex_at(s, at + 48);
    Row4 { c0, c1, c2, c3 }
}
