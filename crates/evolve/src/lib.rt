// A program run on the vacuum (`evolve` of the original's state.rs).

#![tactic(auto)]

ghost use Rattle.std.specs.Prelude.{◌≡◌, ◌*◌, ◌≤◌, length};
ghost use Rattle.laws.specs.Bounds.{op_places};
ghost use Rattle.local.specs.State.{stored};
ghost use Rattle.local.specs.State as spec;
ghost use Rattle.state.specs.Bounds.{dim_of};
ghost use Rattle.state.specs.Parts.{HasState};
ghost use Rattle.evolve.specs.Evolve.{evolved_in};

use detect::OP_PLACES;
use state::apply_places;
use state::vacuum::vacuum;

// The slice holds the vacuum of n qubits, and then the first `count` operations of `ops` are applied to it, in order.
pub fn evolve(n: usize, count: usize, ops: &[f64], state: &mut [f64])
    requires has_state { HasState state.old n }
    requires count_in_bounds { op_places * count ≤ length ops.now }
    ensures { state.new ≡ stored (dim_of n) (evolved_in n count ops.now spec.vacuum) state.old }
{
    vacuum(n, state);
    for op in ops[..OP_PLACES * count].chunks_exact(OP_PLACES) {
        // a program has no operation that question 17 turns down, and one that it does would change nothing
        let _answer = apply_places(n, state, op[0], op[1], op);
    }
}
