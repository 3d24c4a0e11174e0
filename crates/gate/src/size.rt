// What the matrices of one qubit and of two have in common: each stands row by row, real before
// imaginary, in a lent slice of floats and in the bytes of a tape, and has an adjoint.
ghost use Rattle.std.specs.Prelude.{◌≡◌, ℕ, ◌+◌, ◌*◌, ◌≤◌, List, length, Float};
ghost use Rattle.gate.specs.Matrix.{mat2, row4, mat4, dag2_of, dag4_of};
ghost use Rattle.gate.specs.Complex.{c0};
ghost use Rattle.gate.specs.Given.{given2_at, given4_at};
ghost use Rattle.gate.specs.Lent.{mat2_at, mat4_at, store2_of, store4_of};
ghost use Rattle.std.proofs.Common.{rules};

use crate::complex::Complex;
use crate::given::{complex_at, given_row};
use crate::lent::{load_row, store_row};
use crate::matrix::{Mat2, Mat4, Row2, Row4, conj_column};

pub trait Matrix: Copy {
    // How many floats it has.
    const FLOATS: usize;

    ghost FLOATS: { ℕ };

    // All its entries are 0.
    const ZERO: Self;

    ghost ZERO: { Self };

    // The matrix that a slice of floats has from a place on.
    ghost loaded: { List Float → ℕ → Self };

    // The slice after a matrix was stored from a place on.
    ghost stored: { List Float → ℕ → Self → List Float };

    // The matrix that bytes have from a place on.
    ghost given_at: { List ℕ → ℕ → Self };

    ghost adjoint_of: { Self → Self };

    // The matrix in the floats from p on. `load` and `given` are two: one reads floats, the other bytes. Both have a place in the slice, as lent.rt and
    // given.rt say.
    fn load(s: &[f64], p: usize) -> Self
        requires { p + FLOATS ≤ length s.now }
        ensures { result ≡ loaded s.now p };

    // Writes it to the floats from p on.
    fn store(self, s: &mut [f64], p: usize)
        requires { p + FLOATS ≤ length s.old }
        ensures { s.new ≡ stored s.old p self };

    // The matrix in the bytes from `at` on.
    fn given(s: &[u8], at: usize) -> Self
        requires { at + 8 * FLOATS ≤ length s.now }
        ensures { result ≡ given_at s.now at };

    fn adjoint(self) -> Self
        ensures { result ≡ adjoint_of self };

    // A record of the lent work has room for it.
    ghost few: { FLOATS ≤ 32 };
}

impl Matrix for Mat2 {
    const FLOATS: usize = 8;

    ghost FLOATS = { 8 };

    const ZERO: Mat2 = Mat2 {
        r0: Row2 {
            c0: Complex::ZERO,
            c1: Complex::ZERO,
        },
        r1: Row2 {
            c0: Complex::ZERO,
            c1: Complex::ZERO,
        },
    };

    ghost ZERO = { mat2 c0 c0 c0 c0 };

    ghost loaded = { mat2_at };

    ghost stored = { store2_of };

    ghost given_at = { given2_at };

    ghost adjoint_of = { dag2_of };

    fn load(s: &[f64], p: usize) -> Mat2 {
        let row = load_row(s, p);
        Mat2 {
            r0: Row2 {
                c0: row.c0,
                c1: row.c1,
            },
            r1: Row2 {
                c0: row.c2,
                c1: row.c3,
            },
        }
    }

    fn store(self, s: &mut [f64], p: usize) {
        let row = Row4 {
            c0: self.r0.c0,
            c1: self.r0.c1,
            c2: self.r1.c0,
            c3: self.r1.c1,
        };
        store_row(s, p, row);
    }

    #[tactic(auto, unfolding(crate::specs::Given::given2_at))]
    fn given(s: &[u8], at: usize) -> Mat2 {
        let r0 = Row2 {
            c0: complex_at(s, at),
            c1: complex_at(s, at + 16),
        };
        let r1 = Row2 {
            c0: complex_at(s, at + 32),
            c1: complex_at(s, at + 48),
        };
        Mat2 { r0, r1 }
    }

    #[tactic(auto, unfolding(crate::specs::Matrix::dag2_of))]
    fn adjoint(self) -> Mat2 {
        let r0 = Row2 {
            c0: self.r0.c0.conj(),
            c1: self.r1.c0.conj(),
        };
        let r1 = Row2 {
            c0: self.r0.c1.conj(),
            c1: self.r1.c1.conj(),
        };
        Mat2 { r0, r1 }
    }

    ghost few = { Prim.search rules };
}

impl Matrix for Mat4 {
    const FLOATS: usize = 32;

    ghost FLOATS = { 32 };

    const ZERO: Mat4 = Mat4 {
        r0: Row4::ZERO,
        r1: Row4::ZERO,
        r2: Row4::ZERO,
        r3: Row4::ZERO,
    };

    ghost ZERO = { mat4 (row4 c0 c0 c0 c0) (row4 c0 c0 c0 c0) (row4 c0 c0 c0 c0) (row4 c0 c0 c0 c0) };

    ghost loaded = { mat4_at };

    ghost stored = { store4_of };

    ghost given_at = { given4_at };

    ghost adjoint_of = { dag4_of };

    #[tactic(auto, unfolding(crate::specs::Lent::mat4_at))]
    fn load(s: &[f64], p: usize) -> Mat4 {
        let r0 = load_row(s, p);
        let r1 = load_row(s, p + 8);
        let r2 = load_row(s, p + 16);
        let r3 = load_row(s, p + 24);
        Mat4 { r0, r1, r2, r3 }
    }

    #[tactic(auto, unfolding(crate::specs::Lent::store4_of))]
    fn store(self, s: &mut [f64], p: usize) {
        store_row(s, p, self.r0);
        store_row(s, p + 8, self.r1);
        store_row(s, p + 16, self.r2);
        store_row(s, p + 24, self.r3);
    }

    #[tactic(auto, unfolding(crate::specs::Given::given4_at))]
    fn given(s: &[u8], at: usize) -> Mat4 {
        let r0 = given_row(s, at);
        let r1 = given_row(s, at + 64);
        let r2 = given_row(s, at + 128);
        let r3 = given_row(s, at + 192);
        Mat4 { r0, r1, r2, r3 }
    }

    #[tactic(auto, unfolding(crate::specs::Matrix::dag4_of))]
    fn adjoint(self) -> Mat4 {
        let r0 = conj_column(self.r0.c0, self.r1.c0, self.r2.c0, self.r3.c0);
        let r1 = conj_column(self.r0.c1, self.r1.c1, self.r2.c1, self.r3.c1);
        let r2 = conj_column(self.r0.c2, self.r1.c2, self.r2.c2, self.r3.c2);
        let r3 = conj_column(self.r0.c3, self.r1.c3, self.r2.c3, self.r3.c3);
        Mat4 { r0, r1, r2, r3 }
    }

    ghost few = { Prim.search rules };
}
