// A state that passed question 16, as the queries read it.

ghost use Rattle.std.specs.Prelude.{◌≡◌, ◌<◌, ◌≤◌, true, false, length, MatchResult};
ghost use Rattle.laws.specs.Bounds.{max_qubits};
ghost use Rattle.local.specs.Bounds.{state_places};
ghost use Rattle.state.specs.Modes.{is_permutation};
ghost use Rattle.laws.specs.Tables.{mode_at};
ghost use Rattle.local.specs.State.{state_at, get};
ghost use Rattle.state.specs.Bounds.{dim_of};
ghost use Rattle.state.specs.Questions.{state_ok};
ghost use Rattle.state.specs.Parts.{HasEntry};

use super::answer::Refusal;
use super::check::{check_state, mode_at};
use real::entry;

// The covariance of n qubits with its postponed signs, and the mode table.
#[derive(Clone, Copy)]
pub struct Checked<'a> {
    pub n: usize,
    pub state: &'a [f64],
    pub modes: &'a [u16],
    ghost few: { n ≤ max_qubits },
    ghost room: { state_places (dim_of n) ≤ length state.now },
    ghost permutation: { is_permutation n modes.now ≡ true },
}

// 001's `get`.
fn covariance(state: &[f64], dim: usize, r: usize, c: usize) -> f64
    requires { HasEntry state.now dim r c }
    ensures { result ≡ get (state_at dim state.now) r c }
{
    let x = entry(state, dim, r, c);
    x * state[dim * dim + r] * state[dim * dim + c]
}

impl<'a> Checked<'a> {
    // Question 16.
    pub fn new(n: usize, state: &'a [f64], modes: &'a [u16]) -> Result<Checked<'a>, Refusal>
        ensures { MatchResult result
            (λ checked. (state_ok n state.now modes.now ≡ true) × (checked.n ≡ n)
            × (checked.state.now ≡ state.now) × (checked.modes.now ≡ modes.now))
            (λ why. (why ≡ Refusal.BadState) × (state_ok n state.now modes.now ≡ false)) }
    {
        check_state(n, state, modes)?;
        Ok(Checked { n, state, modes })
    }

    // The mode of qubit q.
    pub fn mode_of(self, q: usize) -> usize
        requires { q < self.n }
        ensures value { result ≡ mode_at self.entry.modes.now q }
        ensures bound { result < self.entry.n }
    {
        mode_at(self.modes, q)
    }

    // The entry (r, c) of the covariance.
    pub fn get(self, r: usize, c: usize) -> f64
        requires row { r < dim_of self.n }
        requires column { c < dim_of self.n }
        ensures { result ≡ get (state_at (dim_of self.entry.n) self.entry.state.now) r c }
    {
        covariance(self.state, 2 * self.n, r, c)
    }
}
