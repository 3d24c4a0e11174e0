// An operation applied to the state.

ghost use Rattle.std.specs.Prelude.{◌≡◌};
ghost use Rattle.local.specs.Signed.{state_of, Holds};
ghost use Rattle.state.specs.Bounds.{dim_of};
ghost use Rattle.state.specs.Operation.{decode_of, effect, Fits};
ghost use Rattle.state.specs.Answers.{done};
ghost use Rattle.state.specs.Calls.{decoded_answer, decoded_state, apply_answer, apply_state};
ghost use Rattle.state.specs.Parts.{HasState, HasHead};

use super::answer::Refusal;
use super::check::check_state;
use super::operation::{Operation, decode};
use laws::OP_PLACES;
use local::{Signed, apply_local2, apply_local4};

// By its cases, to a state of n qubits.
fn apply_operation(t: &mut Signed, n: usize, o: Operation)
    requires rows { t.old.dim ≡ dim_of n }
    requires fits { Fits n o }
    ensures { Holds t.old t.new (effect o (state_of t.old)) }
{
    match o {
        Operation::One { mode, q } => apply_local2(t, n, mode, q),
        Operation::Two { mode, q } => apply_local4(t, mode, q),
        Operation::Interaction {
            mode: _,
            block: _,
            second: _,
            unit: _,
        } => {}
    }
}

// From its places, to a state of n qubits: question 17. The caller hands over the first two, `kind` and `at`, and so in
// registers: the mode is needed before anything else, and out of the slice it would come later.
pub fn apply_places(
    n: usize,
    state: &mut [f64],
    kind: f64,
    at: f64,
    op: &[f64],
) -> Result<(), Refusal>
    requires has_state { HasState state.old n }
    requires has_head { HasHead op.now kind at }
    ensures answer { done result ≡ decoded_answer (decode_of n op.now) }
    ensures state { state.new ≡ decoded_state n state.old (decode_of n op.now) }
{
    let o = decode(n, kind, at, op).ok_or(Refusal::BadOperation)?;
    let mut t = Signed {
        entries: state,
        dim: 2 * n,
    };
    apply_operation(&mut t, n, o);
    Ok(())
}

// The operation in `op` is applied to the state of n qubits: questions 16 and 17. A refusal changes
// nothing.
pub fn apply(n: usize, state: &mut [f64], modes: &[u16], op: &[f64]) -> Result<(), Refusal>
    ensures answer { done result ≡ apply_answer n state.old modes.now op.now }
    ensures state { state.new ≡ apply_state n state.old modes.now op.now }
{
    check_state(n, state, modes)?;
    if op.len() < OP_PLACES {
        return Err(Refusal::BadOperation);
    }
    apply_places(n, state, op[0], op[1], op)
}
