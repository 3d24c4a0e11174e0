// The first state of a run.

ghost use Rattle.std.specs.Prelude.{◌≡◌};
ghost use Rattle.laws.specs.Matrix.{matrix};
ghost use Rattle.real.specs.Squares.{cells, Becomes};
ghost use Rattle.local.specs.State.{stored};
ghost use Rattle.local.specs.State as spec;
ghost use Rattle.state.specs.Bounds.{dim_of};
ghost use Rattle.state.specs.Parts.{HasState, pair_up_of};

use real::Square;

// 1.0 and -1.0 beside the diagonal, for each of n modes.
fn pair_up(m: &mut Square, n: usize)
    requires { m.old.dim ≡ dim_of n }
    ensures { Becomes m.old m.new (matrix m.old.dim (pair_up_of (cells m.old)) m.old.entries.now) }
{
    for k in 0..n {
        m.put(2 * k, 2 * k + 1, 1.0);
        m.put(2 * k + 1, 2 * k, -1.0);
    }
}

// 001's `vacuum`: the slice holds the vacuum of n qubits.
pub fn vacuum(n: usize, state: &mut [f64])
    requires { HasState state.old n }
    ensures { state.new ≡ stored (dim_of n) spec.vacuum state.old }
{
    let dim = 2 * n;
    let a = dim * dim;
    state[..a].fill(0.0);
    let mut m = Square {
        entries: state,
        dim,
    };
    pair_up(&mut m, n);
    state[a..a + dim].fill(1.0);
}
