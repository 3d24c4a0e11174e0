// The questions 10 to 15, once the report is made.
ghost use Rattle.std.specs.Prelude.{◌≡◌, ◌≤◌};
ghost use Rattle.laws.specs.Bounds.{max_qubits};
ghost use Rattle.gaussian.specs.Run.{all_apart, interacts, verdict_of};
ghost use Rattle.gaussian.specs.Told.{Says};

use detect::{OP_PLACES, Refusal, Report};
use tape::Header;

// Bad blocks exist, and all are nonadjacent matchgates.
#[tactic(auto, using(std::proofs::lemmas::Bool::Decides::nat_tests), unfolding(crate::specs::Run::all_apart))]
fn all_apart(r: Report) -> bool
    ensures { result ≡ all_apart r }
{
    r.bad != 0 && r.nonadjacent == r.bad
}

// Interactions exist, and the header does not drop them.
#[tactic(auto, using(std::proofs::lemmas::Bool::Decides::nat_tests), unfolding(crate::specs::Run::interacts))]
fn interacting(h: Header, r: Report) -> bool
    ensures { result ≡ interacts h r }
{
    r.interactions != 0 && !h.drops_interactions()
}

// The first of 10 to 15 whose answer is no. There are `ops` places for the operations, `state` for the state.
#[tactic(auto, using(std::proofs::lemmas::Bool::Decides::nat_tests), unfolding(crate::specs::Run::verdict_of))]
pub fn verdict(h: Header, r: Report, ops: usize, state: usize) -> Result<(), Refusal>
    requires { h.n ≤ max_qubits }
    ensures { Says result (verdict_of h r r.operations ops state) }
{
    let dim = 2 * h.n;
    if ops < OP_PLACES * (r.operations as usize) {
        return Err(Refusal::SmallOperations);
    }
    if all_apart(r) {
        return Err(Refusal::NoOrder);
    }
    if r.bad > 0 {
        return Err(Refusal::BadBlocks);
    }
    if interacting(h, r) {
        return Err(Refusal::Interactions);
    }
    if h.limit < (8 * (dim * dim)) as u64 {
        return Err(Refusal::OverLimit);
    }
    if state < dim * dim + dim {
        return Err(Refusal::SmallState);
    }
    Ok(())
}
