// The exact matrices of the named gates, as gate.rs of the original has them, by code.
ghost use Rattle.std.specs.Prelude.{◌≡◌, ◌<◌, ◌≤◌};
ghost use Rattle.named.specs.Table.{matrix1q_of, matrix2q_of};

use gate::{Complex, Mat2, Mat4, Row2, Row4};

// The f64 nearest the root of 1/2 (FRAC_1_SQRT_2, 0x3fe6a09e667f3bcd).
const ROOT_HALF: Complex = Complex {
    re: 0.7071067811865476,
    im: 0.0,
};

const MINUS_ROOT_HALF: Complex = Complex {
    re: -0.7071067811865476,
    im: 0.0,
};

const HALF_PLUS: Complex = Complex { re: 0.5, im: 0.5 };

const HALF_MINUS: Complex = Complex { re: 0.5, im: -0.5 };

const H: Mat2 = Mat2 {
    r0: Row2 {
        c0: ROOT_HALF,
        c1: ROOT_HALF,
    },
    r1: Row2 {
        c0: ROOT_HALF,
        c1: MINUS_ROOT_HALF,
    },
};

pub const X: Mat2 = Mat2 {
    r0: Row2 {
        c0: Complex::ZERO,
        c1: Complex::ONE,
    },
    r1: Row2 {
        c0: Complex::ONE,
        c1: Complex::ZERO,
    },
};

pub const Y: Mat2 = Mat2 {
    r0: Row2 {
        c0: Complex::ZERO,
        c1: Complex::MINUS_IMAG,
    },
    r1: Row2 {
        c0: Complex::IMAG,
        c1: Complex::ZERO,
    },
};

const Z: Mat2 = Mat2 {
    r0: Row2 {
        c0: Complex::ONE,
        c1: Complex::ZERO,
    },
    r1: Row2 {
        c0: Complex::ZERO,
        c1: Complex::MINUS,
    },
};

const S: Mat2 = Mat2 {
    r0: Row2 {
        c0: Complex::ONE,
        c1: Complex::ZERO,
    },
    r1: Row2 {
        c0: Complex::ZERO,
        c1: Complex::IMAG,
    },
};

const SDG: Mat2 = Mat2 {
    r0: Row2 {
        c0: Complex::ONE,
        c1: Complex::ZERO,
    },
    r1: Row2 {
        c0: Complex::ZERO,
        c1: Complex::MINUS_IMAG,
    },
};

const SX: Mat2 = Mat2 {
    r0: Row2 {
        c0: HALF_PLUS,
        c1: HALF_MINUS,
    },
    r1: Row2 {
        c0: HALF_MINUS,
        c1: HALF_PLUS,
    },
};

const SXDG: Mat2 = Mat2 {
    r0: Row2 {
        c0: HALF_MINUS,
        c1: HALF_PLUS,
    },
    r1: Row2 {
        c0: HALF_PLUS,
        c1: HALF_MINUS,
    },
};

// The codes 00 to 08: the bytes of the tape's format, so that a table is all they need.
const ONE_QUBIT: [Mat2; 9] = [Mat2::IDENTITY, H, X, Y, Z, S, SDG, SX, SXDG];

const CNOT: Mat4 = Mat4 {
    r0: Row4::E0,
    r1: Row4::E1,
    r2: Row4::E3,
    r3: Row4::E2,
};

const CZ: Mat4 = Mat4 {
    r0: Row4::E0,
    r1: Row4::E1,
    r2: Row4::E2,
    r3: Row4 {
        c0: Complex::ZERO,
        c1: Complex::ZERO,
        c2: Complex::ZERO,
        c3: Complex::MINUS,
    },
};

pub const SWAP: Mat4 = Mat4 {
    r0: Row4::E0,
    r1: Row4::E2,
    r2: Row4::E1,
    r3: Row4::E3,
};

const ISWAP: Mat4 = Mat4 {
    r0: Row4::E0,
    r1: Row4 {
        c0: Complex::ZERO,
        c1: Complex::ZERO,
        c2: Complex::IMAG,
        c3: Complex::ZERO,
    },
    r2: Row4 {
        c0: Complex::ZERO,
        c1: Complex::IMAG,
        c2: Complex::ZERO,
        c3: Complex::ZERO,
    },
    r3: Row4::E3,
};

const ISWAPDG: Mat4 = Mat4 {
    r0: Row4::E0,
    r1: Row4 {
        c0: Complex::ZERO,
        c1: Complex::ZERO,
        c2: Complex::MINUS_IMAG,
        c3: Complex::ZERO,
    },
    r2: Row4 {
        c0: Complex::ZERO,
        c1: Complex::MINUS_IMAG,
        c2: Complex::ZERO,
        c3: Complex::ZERO,
    },
    r3: Row4::E3,
};

// The codes 10 to 14 (hexadecimal).
const TWO_QUBIT: [Mat4; 5] = [CNOT, CZ, SWAP, ISWAP, ISWAPDG];

// The matrix of a named one-qubit gate.
#[tactic(auto, unfolding(crate::specs::Table::matrix1q_of))]
pub fn matrix_1q(code: usize) -> Mat2
    requires { code < 9 }
    ensures { result ≡ matrix1q_of code }
{
    ONE_QUBIT[code]
}

// The matrix of a named two-qubit gate. Two functions, since the tables are two arrays of two types.
pub fn matrix_2q(code: usize) -> Mat4
    requires { (16 ≤ code) × (code < 21) }
    ensures { result ≡ matrix2q_of code }
{
    TWO_QUBIT[code - 16]
}
