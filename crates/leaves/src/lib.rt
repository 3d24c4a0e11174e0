// The leaves, and the plain engine, as a static library, for timing and comparison from C and Rust (bench/). A matrix is 8 or 32 floats,
// row by row, real before imaginary. A slice that is too short reads as zeros, and nothing is written to one. C names each size and each
// function by itself, and passes the slices one by one. The plain engine has real entries, and turns down what is too short for it.

#![tactic(auto, unfolding(crate::specs::Slices::first2_of, crate::specs::Slices::first4_of, crate::specs::Slices::put2_of, crate::specs::Slices::put4_of))]

ghost use Rattle.std.specs.Prelude.{◌≡◌};
ghost use Rattle.std.specs.Float.{binary64};
ghost use Rattle.std.specs.Float.Ieee.{of_bits};
ghost use Rattle.num.specs.Root.{sqrt_of};
ghost use Rattle.num.specs.Order.{abs_of, max_of, min_of, clamp_of};
ghost use Rattle.num.specs.Bits.{bits_of};
ghost use Rattle.gate.specs.Matrix.{mul2_of, dag2_of, kron_of, mul4_of, dag4_of, mat4_swap_qubits_of};
ghost use Rattle.majorana.specs.Majorana.{majorana_map1_of, majorana_map2_of};
ghost use Rattle.classify.specs.Classify.{classify2_of, residual_of, code_of};
ghost use Rattle.plain.specs.Calls.{plain_answer, plain_matrix};
ghost use Rattle.leaves.specs.Slices.{first_of, first2_of, first4_of, put_of, put2_of, put4_of};
ghost use Rattle.leaves.specs.Classes.{flat2_of, joined_of, flat4_of};

use gate::{Complex, Mat2, Mat4, Matrix, Row2, Row4};
use majorana::Mapped;
use real::{Map2, Map4, Real4};
use state::Told;

#[unsafe(no_mangle)]
pub extern "C" fn leaf_sqrt(x: f64) -> f64
    ensures { result ≡ sqrt_of x }
{
    num::sqrt(x)
}

#[unsafe(no_mangle)]
pub extern "C" fn leaf_abs(x: f64) -> f64
    ensures { result ≡ abs_of x }
{
    num::abs(x)
}

#[unsafe(no_mangle)]
pub extern "C" fn leaf_max(a: f64, b: f64) -> f64
    ensures { result ≡ max_of a b }
{
    num::max(a, b)
}

#[unsafe(no_mangle)]
pub extern "C" fn leaf_min(a: f64, b: f64) -> f64
    ensures { result ≡ min_of a b }
{
    num::min(a, b)
}

#[unsafe(no_mangle)]
pub extern "C" fn leaf_clamp(x: f64, lo: f64, hi: f64) -> f64
    ensures { result ≡ clamp_of x lo hi }
{
    num::clamp(x, lo, hi)
}

#[unsafe(no_mangle)]
pub extern "C" fn leaf_from_bits(b: u64) -> f64
    ensures { result ≡ of_bits binary64 b }
{
    num::from_bits(b)
}

#[unsafe(no_mangle)]
pub extern "C" fn leaf_to_bits(x: f64) -> u64
    ensures { result ≡ bits_of x }
{
    num::to_bits(x)
}

// The matrix at the start of a slice, and zeros where that is too short.
fn first<M: Matrix>(a: &[f64]) -> M
    ensures { result ≡ first_of M.FLOATS M.ZERO M.loaded a.now }
{
    if a.len() < M::FLOATS {
        return M::ZERO;
    }
    M::load(a, 0)
}

// Writes a matrix to the start of a slice that is long enough.
fn put<M: Matrix>(out: &mut [f64], m: M)
    ensures { out.new ≡ put_of M.FLOATS M.stored out.old m }
{
    if M::FLOATS <= out.len() {
        m.store(out, 0);
    }
}

#[unsafe(no_mangle)]
pub extern "C" fn leaf_mul2(a: &[f64], b: &[f64], out: &mut [f64])
    ensures { out.new ≡ put2_of out.old (mul2_of (first2_of a.now) (first2_of b.now)) }
{
    put(out, first::<Mat2>(a) * first::<Mat2>(b));
}

#[unsafe(no_mangle)]
pub extern "C" fn leaf_dag2(a: &[f64], out: &mut [f64])
    ensures { out.new ≡ put2_of out.old (dag2_of (first2_of a.now)) }
{
    put(out, first::<Mat2>(a).adjoint());
}

#[unsafe(no_mangle)]
pub extern "C" fn leaf_kron(a: &[f64], b: &[f64], out: &mut [f64])
    ensures { out.new ≡ put4_of out.old (kron_of (first2_of a.now) (first2_of b.now)) }
{
    put(out, gate::kron(first(a), first(b)));
}

#[unsafe(no_mangle)]
pub extern "C" fn leaf_mul4(a: &[f64], b: &[f64], out: &mut [f64])
    ensures { out.new ≡ put4_of out.old (mul4_of (first4_of a.now) (first4_of b.now)) }
{
    put(out, first::<Mat4>(a) * first::<Mat4>(b));
}

#[unsafe(no_mangle)]
pub extern "C" fn leaf_dag4(a: &[f64], out: &mut [f64])
    ensures { out.new ≡ put4_of out.old (dag4_of (first4_of a.now)) }
{
    put(out, first::<Mat4>(a).adjoint());
}

#[unsafe(no_mangle)]
pub extern "C" fn leaf_swap_qubits(a: &[f64], out: &mut [f64])
    ensures { out.new ≡ put4_of out.old (mat4_swap_qubits_of (first4_of a.now)) }
{
    put(out, gate::mat4_swap_qubits(first(a)));
}

// The 4 entries of a map of one mode, its residual and zeros, as the 8 floats of a matrix. For each size a function: entries are fields.
#[tactic(auto, unfolding(crate::specs::Classes::flat2_of))]
fn flat2(m: Mapped<Map2>) -> Mat2
    ensures { result ≡ flat2_of m }
{
    let q = m.q;
    let a = Complex {
        re: q.r0.x0,
        im: q.r0.x1,
    };
    let b = Complex {
        re: q.r1.x0,
        im: q.r1.x1,
    };
    let c = Complex {
        re: m.residual,
        im: 0.0,
    };
    Mat2 {
        r0: Row2 { c0: a, c1: b },
        r1: Row2 {
            c0: c,
            c1: Complex::ZERO,
        },
    }
}

// Two rows of a map as one of complex numbers.
fn joined(a: Real4, b: Real4) -> Row4
    ensures { result ≡ joined_of a b }
{
    Row4 {
        c0: Complex { re: a.x0, im: a.x1 },
        c1: Complex { re: a.x2, im: a.x3 },
        c2: Complex { re: b.x0, im: b.x1 },
        c3: Complex { re: b.x2, im: b.x3 },
    }
}

// The 16 entries of a map of two, its residual and zeros, as the 32 floats of a matrix.
#[tactic(auto, unfolding(crate::specs::Classes::flat4_of))]
fn flat4(m: Mapped<Map4>) -> Mat4
    ensures { result ≡ flat4_of m }
{
    let q = m.q;
    let r0 = joined(q.r0, q.r1);
    let r1 = joined(q.r2, q.r3);
    let r2 = Row4 {
        c0: Complex {
            re: m.residual,
            im: 0.0,
        },
        ..Row4::ZERO
    };
    let r3 = Row4::ZERO;
    Mat4 { r0, r1, r2, r3 }
}

#[unsafe(no_mangle)]
pub extern "C" fn leaf_majorana_map1(u: &[f64], out: &mut [f64])
    ensures { out.new ≡ put2_of out.old (flat2_of (majorana_map1_of (first2_of u.now))) }
{
    put(out, flat2(majorana::majorana_map1(first(u))));
}

#[unsafe(no_mangle)]
pub extern "C" fn leaf_majorana_map2(u: &[f64], out: &mut [f64])
    ensures { out.new ≡ put4_of out.old (flat4_of (majorana_map2_of (first4_of u.now))) }
{
    put(out, flat4(majorana::majorana_map2(first(u))));
}

// Writes the matrix to apply, and returns the class's number.
#[unsafe(no_mangle)]
pub extern "C" fn leaf_classify2(relabel: bool, tol: f64, u: &[f64], out: &mut [f64]) -> u32
    ensures number { result ≡ code_of (classify2_of relabel tol (first4_of u.now)) }
    ensures matrix { out.new ≡ put4_of out.old (classify2_of relabel tol (first4_of u.now)).v }
{
    let c = classify::classify2(relabel, tol, first(u));
    put(out, c.v);
    c.code()
}

// The residual of the class.
#[unsafe(no_mangle)]
pub extern "C" fn leaf_class_residual(relabel: bool, tol: f64, u: &[f64]) -> f64
    ensures { result ≡ residual_of (classify2_of relabel tol (first4_of u.now)).kind }
{
    let c = classify::classify2(relabel, tol, first(u));
    c.kind.residual()
}

// The plain engine's `apply`: the number of its refusal, or 0.
#[unsafe(no_mangle)]
pub extern "C" fn leaf_plain_apply(n: usize, matrix: &mut [f64], op: &[f64]) -> u64
    ensures number { result ≡ (plain_answer n matrix.old op.now).number }
    ensures matrix { matrix.new ≡ plain_matrix n matrix.old op.now }
{
    Told::from(plain::apply(n, matrix, op)).number
}
