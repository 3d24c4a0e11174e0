// An operation applied to the matrix: rows and columns under its map, by the engine's own steps, and the turn.

ghost use Rattle.std.specs.Prelude.{◌≡◌, ◌+◌, ◌*◌, ◌<◌};
ghost use Rattle.laws.specs.Matrix.{matrix};
ghost use Rattle.real.specs.Maps.{local2, local4};
ghost use Rattle.real.specs.Squares.{cells, Becomes};
ghost use Rattle.state.specs.Bounds.{dim_of};
ghost use Rattle.state.specs.Operation.{Fits};
ghost use Rattle.state.specs.Answers.{done};
ghost use Rattle.plain.specs.Plain.{plain_step, plain};
ghost use Rattle.plain.specs.Calls.{matrix_ok, plain_answer, plain_matrix};

use super::turn::turn_where;
use laws::{MAX_QUBITS, OP_PLACES};
use local::{both2, both4, det2, det4};
use real::{Map2, Map4, Square};
use state::{Operation, Refusal, decode};

// A map of one mode; the later modes begin with the next. Two functions, as in crate `local`: maps are structs of floats by value, of two sizes.
fn plain2(m: &mut Square, n: usize, mode: usize, q: Map2)
    requires rows { m.old.dim ≡ dim_of n }
    requires mode { mode < n }
    ensures { Becomes m.old m.new
        (matrix m.old.dim (plain_step (local2 (2 * mode) q) (2 * (mode + 1)) (cells m.old)) m.old.entries.now) }
{
    both2(m.entries, n, mode, q);
    turn_where(m, 2 * (mode + 1), det2(q));
}

// A map of two modes; the later modes begin with the second next.
fn plain4(m: &mut Square, n: usize, mode: usize, q: Map4)
    requires rows { m.old.dim ≡ dim_of n }
    requires mode { mode + 1 < n }
    ensures { Becomes m.old m.new
        (matrix m.old.dim (plain_step (local4 (2 * mode) q) (2 * (mode + 2)) (cells m.old)) m.old.entries.now) }
{
    both4(m.entries, 2 * n, 2 * mode, q);
    turn_where(m, 2 * (mode + 2), det4(q));
}

// By the cases of the operation.
fn apply_operation(m: &mut Square, n: usize, o: Operation)
    requires rows { m.old.dim ≡ dim_of n }
    requires fits { Fits n o }
    ensures { Becomes m.old m.new (matrix m.old.dim (plain o (cells m.old)) m.old.entries.now) }
{
    match o {
        Operation::One { mode, q } => plain2(m, n, mode, q),
        Operation::Two { mode, q } => plain4(m, n, mode, q),
        Operation::Interaction {
            mode: _,
            block: _,
            second: _,
            unit: _,
        } => {}
    }
}

// n is at most 128, and the slice has the matrix's places.
fn has_matrix(n: usize, entries: &[f64]) -> bool
    ensures { result ≡ matrix_ok n entries.now }
{
    n <= MAX_QUBITS && 2 * n * (2 * n) <= entries.len()
}

// The operation in `op` is applied to the matrix of n qubits: its own question, told as 16, and 17 as `state::apply` asks it. A refusal changes nothing.
pub fn apply(n: usize, entries: &mut [f64], op: &[f64]) -> Result<(), Refusal>
    ensures answer { done result ≡ plain_answer n entries.old op.now }
    ensures matrix { entries.new ≡ plain_matrix n entries.old op.now }
{
    if !has_matrix(n, entries) {
        return Err(Refusal::BadState);
    }
    if op.len() < OP_PLACES {
        return Err(Refusal::BadOperation);
    }
    let Some(o) = decode(n, op[0], op[1], op) else {
        return Err(Refusal::BadOperation);
    };
    let mut m = Square {
        entries,
        dim: 2 * n,
    };
    apply_operation(&mut m, n, o);
    Ok(())
}
