// Matrices by value, as structs of rows, the form that docs/DECISIONS.md names, and their products,
// entry by entry as the original computes them: same operations, same order.
ghost use Rattle.std.specs.Prelude.{◌≡◌};
ghost use Rattle.gate.specs.Matrix.{dot2_of, mul2_of, kron_row_of, kron_of, axpy_of, mul4_of, conj_column_of, turned_row_of, mat4_swap_qubits_of, time_step_of};

use crate::complex::Complex;
use std::ops::Mul;

#[derive(Clone, Copy)]
pub struct Row2 {
    pub c0: Complex,
    pub c1: Complex,
}

#[derive(Clone, Copy)]
pub struct Mat2 {
    pub r0: Row2,
    pub r1: Row2,
}

#[derive(Clone, Copy)]
pub struct Row4 {
    pub c0: Complex,
    pub c1: Complex,
    pub c2: Complex,
    pub c3: Complex,
}

// A gate on two qubits (a, b): row and column index are 2 * bit(a) + bit(b).
#[derive(Clone, Copy)]
pub struct Mat4 {
    pub r0: Row4,
    pub r1: Row4,
    pub r2: Row4,
    pub r3: Row4,
}

impl Mat2 {
    pub const IDENTITY: Mat2 = Mat2 {
        r0: Row2 {
            c0: Complex::ONE,
            c1: Complex::ZERO,
        },
        r1: Row2 {
            c0: Complex::ZERO,
            c1: Complex::ONE,
        },
    };
}

impl Row4 {
    pub const ZERO: Row4 = Row4 {
        c0: Complex::ZERO,
        c1: Complex::ZERO,
        c2: Complex::ZERO,
        c3: Complex::ZERO,
    };

    // The rows of the identity.
    pub const E0: Row4 = Row4 {
        c0: Complex::ONE,
        c1: Complex::ZERO,
        c2: Complex::ZERO,
        c3: Complex::ZERO,
    };

    pub const E1: Row4 = Row4 {
        c0: Complex::ZERO,
        c1: Complex::ONE,
        c2: Complex::ZERO,
        c3: Complex::ZERO,
    };

    pub const E2: Row4 = Row4 {
        c0: Complex::ZERO,
        c1: Complex::ZERO,
        c2: Complex::ONE,
        c3: Complex::ZERO,
    };

    pub const E3: Row4 = Row4 {
        c0: Complex::ZERO,
        c1: Complex::ZERO,
        c2: Complex::ZERO,
        c3: Complex::ONE,
    };
}

// An entry of the product of two 2 by 2 matrices: a row times the column (x, y).
#[tactic(auto, unfolding(crate::specs::Matrix::dot2_of))]
fn dot2(row: Row2, x: Complex, y: Complex) -> Complex
    ensures { result ≡ dot2_of row x y }
{
    row.c0 * x + row.c1 * y
}

impl Mul for Mat2 {
    type Output = Mat2;

    ghost mul_gives = { λ a b c. c ≡ mul2_of a b };

    #[tactic(auto, unfolding(crate::specs::Matrix::mul2_of))]
    fn mul(self, b: Mat2) -> Mat2 {
        let r0 = Row2 {
            c0: dot2(self.r0, b.r0.c0, b.r1.c0),
            c1: dot2(self.r0, b.r0.c1, b.r1.c1),
        };
        let r1 = Row2 {
            c0: dot2(self.r1, b.r0.c0, b.r1.c0),
            c1: dot2(self.r1, b.r0.c1, b.r1.c1),
        };
        Mat2 { r0, r1 }
    }
}

// A row of a Kronecker product: x and y stand in a row of the first factor.
#[tactic(auto, unfolding(crate::specs::Matrix::kron_row_of))]
fn kron_row(x: Complex, y: Complex, row: Row2) -> Row4
    ensures { result ≡ kron_row_of x y row }
{
    let c0 = x * row.c0;
    let c1 = x * row.c1;
    let c2 = y * row.c0;
    let c3 = y * row.c1;
    Row4 { c0, c1, c2, c3 }
}

// a on the first qubit, b on the second.
#[tactic(auto, unfolding(crate::specs::Matrix::kron_of))]
pub fn kron(a: Mat2, b: Mat2) -> Mat4
    ensures { result ≡ kron_of a b }
{
    let r0 = kron_row(a.r0.c0, a.r0.c1, b.r0);
    let r1 = kron_row(a.r0.c0, a.r0.c1, b.r1);
    let r2 = kron_row(a.r1.c0, a.r1.c1, b.r0);
    let r3 = kron_row(a.r1.c0, a.r1.c1, b.r1);
    Mat4 { r0, r1, r2, r3 }
}

// m + x * row, or m as it is where x equals zero: beside an infinity 0 * row is not 0.
#[tactic(auto, unfolding(crate::specs::Matrix::axpy_of))]
fn axpy(m: Row4, x: Complex, row: Row4) -> Row4
    ensures { result ≡ axpy_of m x row }
{
    if x.is_zero() {
        return m;
    }
    let c0 = m.c0 + x * row.c0;
    let c1 = m.c1 + x * row.c1;
    let c2 = m.c2 + x * row.c2;
    let c3 = m.c3 + x * row.c3;
    Row4 { c0, c1, c2, c3 }
}

// Each row of the product is, from zeros, the rows of b, each times an entry of the first factor's
// row. The calls stand in one function so that no row's work copies b.
impl Mul for Mat4 {
    type Output = Mat4;

    ghost mul_gives = { λ a b c. c ≡ mul4_of a b };

    fn mul(self, b: Mat4) -> Mat4 {
        let r0 = axpy(
            axpy(
                axpy(axpy(Row4::ZERO, self.r0.c0, b.r0), self.r0.c1, b.r1),
                self.r0.c2,
                b.r2,
            ),
            self.r0.c3,
            b.r3,
        );
        let r1 = axpy(
            axpy(
                axpy(axpy(Row4::ZERO, self.r1.c0, b.r0), self.r1.c1, b.r1),
                self.r1.c2,
                b.r2,
            ),
            self.r1.c3,
            b.r3,
        );
        let r2 = axpy(
            axpy(
                axpy(axpy(Row4::ZERO, self.r2.c0, b.r0), self.r2.c1, b.r1),
                self.r2.c2,
                b.r2,
            ),
            self.r2.c3,
            b.r3,
        );
        let r3 = axpy(
            axpy(
                axpy(axpy(Row4::ZERO, self.r3.c0, b.r0), self.r3.c1, b.r1),
                self.r3.c2,
                b.r2,
            ),
            self.r3.c3,
            b.r3,
        );
        Mat4 { r0, r1, r2, r3 }
    }
}

// A column as a row, each entry conjugated.
#[tactic(auto, unfolding(crate::specs::Matrix::conj_column_of))]
pub fn conj_column(w: Complex, x: Complex, y: Complex, z: Complex) -> Row4
    ensures { result ≡ conj_column_of w x y z }
{
    let c0 = w.conj();
    let c1 = x.conj();
    let c2 = y.conj();
    let c3 = z.conj();
    Row4 { c0, c1, c2, c3 }
}

// The middle two entries change places.
fn turned_row(row: Row4) -> Row4
    ensures { result ≡ turned_row_of row }
{
    let c0 = row.c0;
    let c1 = row.c2;
    let c2 = row.c1;
    let c3 = row.c3;
    Row4 { c0, c1, c2, c3 }
}

// The same gate with its two qubits named in the other order.
#[tactic(auto, unfolding(crate::specs::Matrix::mat4_swap_qubits_of))]
pub fn mat4_swap_qubits(m: Mat4) -> Mat4
    ensures { result ≡ mat4_swap_qubits_of m }
{
    let r0 = turned_row(m.r0);
    let r1 = turned_row(m.r2);
    let r2 = turned_row(m.r1);
    let r3 = turned_row(m.r3);
    Mat4 { r0, r1, r2, r3 }
}

// One gate more in a time product: the later gate stands on the left.
#[tactic(auto, unfolding(crate::specs::Matrix::time_step_of))]
pub fn time_step(acc: Mat2, g: Mat2) -> Mat2
    ensures { result ≡ time_step_of acc g }
{
    g * acc
}
