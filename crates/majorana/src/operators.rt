// The Majorana operators of two modes, and products by them and by SWAP. Each product is a function of its own: rows are fields, so
// which row of u goes where is no number that one function could be given.

ghost use Rattle.std.specs.Prelude.{◌≡◌};
ghost use Rattle.gate.specs.Matrix.{mul4_of};
ghost use Rattle.majorana.specs.Majorana.{majorana0, majorana1, majorana2, majorana3, swap4_of};
ghost use Rattle.majorana.specs.Parts.{scaled_of};

use gate::{Complex, Mat4, Row4};

// A zero that a product with -1 left.
const MINUS_ZERO: Complex = Complex { re: -0.0, im: 0.0 };

// -1 * i.
const MINUS_ONE_IMAG: Complex = Complex { re: -0.0, im: -1.0 };

// Rows with one entry that is not zero, i or -i, by its column.
pub const I0: Row4 = Row4 {
    c0: Complex::IMAG,
    c1: Complex::ZERO,
    c2: Complex::ZERO,
    c3: Complex::ZERO,
};

pub const I1: Row4 = Row4 {
    c0: Complex::ZERO,
    c1: Complex::IMAG,
    c2: Complex::ZERO,
    c3: Complex::ZERO,
};

pub const J1: Row4 = Row4 {
    c0: Complex::ZERO,
    c1: Complex::MINUS_IMAG,
    c2: Complex::ZERO,
    c3: Complex::ZERO,
};

pub const J2: Row4 = Row4 {
    c0: Complex::ZERO,
    c1: Complex::ZERO,
    c2: Complex::MINUS_IMAG,
    c3: Complex::ZERO,
};

pub const J3: Row4 = Row4 {
    c0: Complex::ZERO,
    c1: Complex::ZERO,
    c2: Complex::ZERO,
    c3: Complex::MINUS_IMAG,
};

// The lower rows of the operators that begin with Z.
pub const ZX2: Row4 = Row4 {
    c0: Complex::ZERO,
    c1: Complex::ZERO,
    c2: MINUS_ZERO,
    c3: Complex::MINUS,
};

pub const ZX3: Row4 = Row4 {
    c0: Complex::ZERO,
    c1: Complex::ZERO,
    c2: Complex::MINUS,
    c3: MINUS_ZERO,
};

pub const ZY2: Row4 = Row4 {
    c0: Complex::ZERO,
    c1: Complex::ZERO,
    c2: MINUS_ZERO,
    c3: Complex::IMAG,
};

pub const ZY3: Row4 = Row4 {
    c0: Complex::ZERO,
    c1: Complex::ZERO,
    c2: MINUS_ONE_IMAG,
    c3: MINUS_ZERO,
};

// X on the first qubit.
pub const MAJORANA0: Mat4 = Mat4 {
    r0: Row4::E2,
    r1: Row4::E3,
    r2: Row4::E0,
    r3: Row4::E1,
};

// Y on the first qubit.
pub const MAJORANA1: Mat4 = Mat4 {
    r0: J2,
    r1: J3,
    r2: I0,
    r3: I1,
};

// Z on the first qubit, X on the second.
pub const MAJORANA2: Mat4 = Mat4 {
    r0: Row4::E1,
    r1: Row4::E0,
    r2: ZX2,
    r3: ZX3,
};

// Z on the first qubit, Y on the second.
pub const MAJORANA3: Mat4 = Mat4 {
    r0: J1,
    r1: I0,
    r2: ZY2,
    r3: ZY3,
};

// 0 + x * row: a row of a product by a matrix whose row has one entry, x.
#[tactic(auto, unfolding(crate::specs::Parts::scaled_of))]
fn scaled(x: Complex, row: Row4) -> Row4
    ensures { result ≡ scaled_of x row }
{
    let c0 = Complex::ZERO + x * row.c0;
    let c1 = Complex::ZERO + x * row.c1;
    let c2 = Complex::ZERO + x * row.c2;
    let c3 = Complex::ZERO + x * row.c3;
    Row4 { c0, c1, c2, c3 }
}

// X on the first qubit, times u: the operators' rows have one entry each.
#[tactic(auto, using(crate::proofs::Entries::products))]
pub fn times0(u: Mat4) -> Mat4
    ensures { result ≡ mul4_of majorana0 u }
{
    let r0 = scaled(Complex::ONE, u.r2);
    let r1 = scaled(Complex::ONE, u.r3);
    let r2 = scaled(Complex::ONE, u.r0);
    let r3 = scaled(Complex::ONE, u.r1);
    Mat4 { r0, r1, r2, r3 }
}

// Y on the first qubit, times u.
#[tactic(auto, using(crate::proofs::Entries::products))]
pub fn times1(u: Mat4) -> Mat4
    ensures { result ≡ mul4_of majorana1 u }
{
    let r0 = scaled(Complex::MINUS_IMAG, u.r2);
    let r1 = scaled(Complex::MINUS_IMAG, u.r3);
    let r2 = scaled(Complex::IMAG, u.r0);
    let r3 = scaled(Complex::IMAG, u.r1);
    Mat4 { r0, r1, r2, r3 }
}

// Z on the first qubit and X on the second, times u.
#[tactic(auto, using(crate::proofs::Entries::products))]
pub fn times2(u: Mat4) -> Mat4
    ensures { result ≡ mul4_of majorana2 u }
{
    let r0 = scaled(Complex::ONE, u.r1);
    let r1 = scaled(Complex::ONE, u.r0);
    let r2 = scaled(Complex::MINUS, u.r3);
    let r3 = scaled(Complex::MINUS, u.r2);
    Mat4 { r0, r1, r2, r3 }
}

// Z on the first qubit and Y on the second, times u.
#[tactic(auto, using(crate::proofs::Entries::products))]
pub fn times3(u: Mat4) -> Mat4
    ensures { result ≡ mul4_of majorana3 u }
{
    let r0 = scaled(Complex::MINUS_IMAG, u.r1);
    let r1 = scaled(Complex::IMAG, u.r0);
    let r2 = scaled(Complex::IMAG, u.r3);
    let r3 = scaled(MINUS_ONE_IMAG, u.r2);
    Mat4 { r0, r1, r2, r3 }
}

// SWAP · u.
pub fn swap4(u: Mat4) -> Mat4
    ensures { result ≡ swap4_of u }
{
    let r0 = scaled(Complex::ONE, u.r0);
    let r1 = scaled(Complex::ONE, u.r2);
    let r2 = scaled(Complex::ONE, u.r1);
    let r3 = scaled(Complex::ONE, u.r3);
    Mat4 { r0, r1, r2, r3 }
}
