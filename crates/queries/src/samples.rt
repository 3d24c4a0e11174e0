// Shots of every qubit.

ghost use Rattle.std.specs.Prelude.{◌≡◌, ◌+◌, ◌*◌, ◌≤◌, ◌<◌, length, MatchResult};
ghost use Rattle.laws.specs.Matrix.{matrix};
ghost use Rattle.real.specs.Squares.{Becomes};
ghost use Rattle.pfaffian.specs.Work.{Works};
ghost use Rattle.local.specs.State.{state_at, get};
ghost use Rattle.state.specs.Answers.{done};
ghost use Rattle.state.specs.Parts.{HasEntry};
ghost use Rattle.queries.specs.Samples.{draw_ok_of, bad_draw_of, sampled};
ghost use Rattle.queries.specs.Calls.{covariance_of, shots_of, shots_out, sample_of, sample_work, sample_out};
ghost use Rattle.queries.specs.Inner.{row_laid};

use super::matrices::fill;
use pfaffian::shot;
use real::{Square, entry};
use state::{Checked, Refusal};

const MAX_SHOTS: usize = 65536;

// Row r of the covariance. Beside `restrict_row`: a whole row needs no list, and is read in order with its own sign once.
fn copy_row(state: &[f64], m: &mut Square, r: usize)
    requires { HasEntry state.now m.old.dim r r }
    ensures { Becomes m.old m.new (row_laid m.old.dim r (get (state_at m.old.dim state.now)) m.old.entries.now) }
{
    let dim = m.dim;
    let signs = dim * dim;
    let d = state[signs + r];
    for c in 0..dim {
        let x = entry(state, dim, r, c);
        m.put(r, c, x * d * state[signs + c]);
    }
}

// The covariance with its signs, in work. The matrix has two rows for each mode (`rows`): an equation between two values, a fact of neither.
fn copy_covariance(checked: Checked, m: &mut Square)
    requires { m.old.dim ≡ 2 * checked.n }
    ensures { Becomes m.old m.new (matrix m.old.dim
        (covariance_of checked.entry.n checked.entry.state.now) m.old.entries.now) }
{
    for r in 0..m.dim {
        copy_row(checked.state, m, r);
    }
}

// At least 0 and below 1.
fn draw_ok(x: f64) -> bool
    ensures { result ≡ draw_ok_of x }
{
    x >= 0.0 && x < 1.0
}

// Each draw is: question 22.
fn check_draws(draws: &[f64]) -> Result<(), Refusal>
    ensures { let place = bad_draw_of (length draws.now) draws.now in
        MatchResult result (λ _. place ≡ length draws.now)
        (λ why. (place < length draws.now) × (why ≡ Refusal.BadDraw place)) }
{
    for (i, x) in draws.iter().enumerate() {
        if !draw_ok(*x) {
            return Err(Refusal::BadDraw(i));
        }
    }
    Ok(())
}

// All shots, each from the covariance anew, with its two words at its place of the output. Draws and output are C's, and may be longer than what is used.
fn take_shots(checked: Checked, shots: usize, draws: &[f64], m: &mut Square, out: &mut [u64])
    requires rows { m.old.dim ≡ 2 * checked.n }
    requires shots_in_bounds { (checked.n * shots ≤ length draws.now) × (2 * shots ≤ length out.old) }
    ensures out { out.new ≡ sampled (covariance_of checked.entry.n checked.entry.state.now)
        checked.entry.n checked.entry.modes.now shots draws.now out.old }
    ensures kept { Works m.old m.new }
{
    let n = checked.n;
    for i in 0..shots {
        copy_covariance(checked, m);
        let w = shot(m, n, &draws[i * n..], checked.modes);
        out[2 * i] = w.low;
        out[2 * i + 1] = w.high;
    }
}

// Questions 21 and 22, then the shots.
fn sample_worked(
    checked: Checked,
    shots: usize,
    draws: &[f64],
    m: &mut Square,
    out: &mut [u64],
) -> Result<(), Refusal>
    requires { m.old.dim ≡ 2 * checked.n }
    ensures answer { done result ≡ shots_of checked.entry.n shots draws.now out.old }
    ensures out { out.new ≡ shots_out (covariance_of checked.entry.n checked.entry.state.now)
        checked.entry.n checked.entry.modes.now shots draws.now out.old }
    ensures kept { Works m.old m.new }
{
    if shots > MAX_SHOTS {
        return Err(Refusal::BadShots);
    }
    let used = checked.n * shots;
    if draws.len() < used || out.len() < 2 * shots {
        return Err(Refusal::BadShots);
    }
    check_draws(&draws[..used])?;
    take_shots(checked, shots, draws, m, out);
    Ok(())
}

// Shots of the state, from the draws in their order: questions 16, 20, 21 and 22. The output is two words a shot, low first.
pub fn sample(
    n: usize,
    state: &[f64],
    modes: &[u16],
    shots: usize,
    draws: &[f64],
    work: &mut [f64],
    out: &mut [u64],
) -> Result<(), Refusal>
    ensures answer { done result ≡ sample_of n state.now modes.now shots draws.now work.old
        out.old }
    ensures work { work.new ≡ sample_work n state.now modes.now work.old }
    ensures out { out.new ≡ sample_out n state.now modes.now shots draws.now
        work.old out.old }
{
    let checked = Checked::new(n, state, modes)?;
    let dim = 2 * n;
    if work.len() < dim * dim {
        return Err(Refusal::SmallWork);
    }
    let mut m = Square { entries: work, dim };
    let answer = sample_worked(checked, shots, draws, &mut m, out);
    fill(&mut m, 0.0);
    answer
}
