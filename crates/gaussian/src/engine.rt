// A tape run: the questions in their order, the operations, the state. Tape, work, marks and operations come one by one, as C hands them over.
ghost use Rattle.std.specs.Prelude.{◌≡◌, ◌≤◌};
ghost use Rattle.laws.specs.Bounds.{max_qubits};
ghost use Rattle.detect.specs.Told.{told};
ghost use Rattle.claim.specs.Queries.{answer};
ghost use Rattle.gaussian.specs.Run.{verdict_of, ran, ran_work, ran_marks, ran_ops, ran_state};
ghost use Rattle.gaussian.specs.Told.{Says};
ghost use Rattle.gaussian.specs.Claim.{left_by, RegisterClaim};
ghost use Rattle.gaussian.specs.Signs.{SignClaim};
ghost use Rattle.gaussian.specs.Beside.{PlainRun};

use crate::questions::verdict;
use detect::{Refusal, Report, compile_judged};
use evolve::evolve;
use tape::Header;

// A tape run: its report, its operations, and the state that they make of the vacuum. `work` and `marks` are lent to work in: from question 9 on the places
// that it names are zero afterwards, whatever the answer. A refusal leaves the operations and the state alone. The last three clauses are the register claim,
// the signs, and the run beside the plain engine.
pub fn run(
    tape: &[u8],
    work: &mut [f64],
    marks: &mut [u32],
    ops: &mut [f64],
    state: &mut [f64],
) -> Result<Report, Refusal>
    ensures answer { told result ≡ ran tape.now work.old marks.old ops.old state.old }
    ensures work { work.new ≡ ran_work tape.now work.old marks.old ops.old state.old }
    ensures marks { marks.new ≡ ran_marks tape.now work.old marks.old ops.old state.old }
    ensures ops { ops.new ≡ ran_ops tape.now work.old marks.old ops.old state.old }
    ensures state { state.new ≡ ran_state tape.now work.old marks.old ops.old state.old }
    ensures register { RegisterClaim answer tape.now work.old marks.old ops.old state.old
        (left_by (told result) state.new) }
    ensures signs { SignClaim answer (left_by (told result) state.new)
        (told result).report.operations ops.new }
    ensures plain { PlainRun (left_by (told result) state.new)
        (told result).report.operations ops.new }
{
    let room = ops.len();
    let places = state.len();
    // its clause is that of `verdict`: what it says is proved here, and the answer below by the clause alone
    let judge = |h: Header, r: Report| -> Result<(), Refusal>
        requires { h.n ≤ max_qubits }
        ensures { Says result (verdict_of h r r.operations room places) }
    { verdict(h, r, room, places) };
    let r = compile_judged(tape, work, marks, ops, judge)?;
    evolve(r.n, r.operations as usize, ops, state);
    Ok(r)
}
