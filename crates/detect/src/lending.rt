// Question 9: how much of the lent work is lent on.
ghost use Rattle.std.specs.Prelude.{◌≡◌, ◌≤◌};
ghost use Rattle.laws.specs.Bounds.{max_qubits};
ghost use Rattle.tape.specs.Bounds.{max_gates};
ghost use Rattle.detect.specs.Lending.{lending_of};

use crate::refusal::Refusal;
use work::{RECORD_FLOATS, RECORD_MARKS};

// The lengths of the parts that are lent on.
#[derive(Clone, Copy)]
pub struct Parts {
    pub floats: usize,
    pub marks: usize,
}

// For g gates on n qubits, of slices of so many floats and marks.
pub fn lend(g: usize, n: usize, floats: usize, marks: usize) -> Result<Parts, Refusal>
    requires { (n ≤ max_qubits) × (g ≤ max_gates) }
    ensures { result ≡ lending_of g n floats marks }
{
    let parts = Parts {
        floats: RECORD_FLOATS * (g + n),
        marks: RECORD_MARKS * (g + n),
    };
    if floats < parts.floats || marks < parts.marks {
        return Err(Refusal::SmallWork);
    }
    Ok(parts)
}
