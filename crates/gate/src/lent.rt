// Matrices in a lent slice of floats: row by row, real before imaginary, 8 floats for a 2 by 2 and
// 32 for a 4 by 4. A row of eight floats is what is read and written at a time.
// It has a place in the slice: a caller that cut a slice of its own first would owe the same bound there.
ghost use Rattle.std.specs.Prelude.{◌≡◌, ◌+◌, ◌≤◌, length};
ghost use Rattle.gate.specs.Lent.{row_at, store_row_of};

use crate::complex::Complex;
use crate::matrix::Row4;

// The complex numbers in the eight floats from p on.
#[tactic(auto, unfolding(crate::specs::Lent::row_at))]
pub fn load_row(s: &[f64], p: usize) -> Row4
    requires { p + 8 ≤ length s.now }
    ensures { result ≡ row_at s.now p }
{
    Row4 {
        c0: Complex {
            re: s[p],
            im: s[p + 1],
        },
        c1: Complex {
            re: s[p + 2],
            im: s[p + 3],
        },
        c2: Complex {
            re: s[p + 4],
            im: s[p + 5],
        },
        c3: Complex {
            re: s[p + 6],
            im: s[p + 7],
        },
    }
}

// Writes a row to the eight floats from p on.
#[tactic(auto, unfolding(crate::specs::Lent::store_row_of, laws::specs::Slices::stores))]
pub fn store_row(s: &mut [f64], p: usize, r: Row4)
    requires { p + 8 ≤ length s.old }
    ensures { s.new ≡ store_row_of s.old p r }
{
    s[p] = r.c0.re;
    s[p + 1] = r.c0.im;
    s[p + 2] = r.c1.re;
    s[p + 3] = r.c1.im;
    s[p + 4] = r.c2.re;
    s[p + 5] = r.c2.im;
    s[p + 6] = r.c3.re;
    s[p + 7] = r.c3.im;
}
