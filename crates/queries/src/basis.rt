// The probability of a basis index, which comes as two words, as C hands it over.

ghost use Rattle.std.specs.Prelude.{◌≡◌, ◌<◌};
ghost use Rattle.laws.specs.Bounds.{max_qubits};
ghost use Rattle.pfaffian.specs.Shot.{bit};
ghost use Rattle.state.specs.Answers.{told};
ghost use Rattle.queries.specs.Basis.{basis_bit_of, basis_mark};
ghost use Rattle.queries.specs.Answers.{answered};
ghost use Rattle.queries.specs.Calls.{covariance_of, marked_answer, marked_work, probability_of, probability_work};
ghost use Rattle.queries.specs.Inner.{Asked};

use super::marginals::marked_probability;
use super::number::Number;
use laws::MAX_QUBITS;
use state::{Checked, Refusal};

const WORD_BITS: usize = 64;

// The bit of qubit q.
fn basis_bit(low: u64, high: u64, q: usize) -> bool
    requires { q < max_qubits }
    ensures { bit result ≡ basis_bit_of low high q }
{
    if q < WORD_BITS {
        (low >> q) % 2 == 1
    } else {
        (high >> (q - WORD_BITS)) % 2 == 1
    }
}

// Its qubit's bit is noted of each mode.
fn note_basis(checked: Checked, low: u64, high: u64, asked: &mut [Option<bool>])
    requires { Asked checked.n (λ k. 0) asked.old }
    ensures { Asked checked.entry.n (basis_mark checked.entry.n checked.entry.modes.now low high)
        asked.new }
{
    for q in 0..checked.n {
        let k = checked.mode_of(q);
        asked[k] = Some(basis_bit(low, high, q));
    }
}

// The marginal of all qubits: question 20.
fn basis_number(checked: Checked, low: u64, high: u64, work: &mut [f64]) -> Result<Number, Refusal>
    ensures answer { answered result ≡ marked_answer (covariance_of checked.entry.n checked.entry.state.now)
        checked.entry.n (basis_mark checked.entry.n checked.entry.modes.now low high) work.old }
    ensures work { work.new ≡ marked_work checked.entry.n
        (basis_mark checked.entry.n checked.entry.modes.now low high) work.old }
{
    let mut asked = [None; MAX_QUBITS];
    note_basis(checked, low, high, &mut asked);
    marked_probability(checked, &asked[..checked.n], work)
}

// The probability of the basis index with the given words, without a row: questions 16 and 20. Bits from n upward are ignored.
pub fn probability(
    n: usize,
    state: &[f64],
    modes: &[u16],
    low: u64,
    high: u64,
    work: &mut [f64],
) -> Result<f64, Refusal>
    ensures answer { told result ≡ probability_of n state.now modes.now low high work.old }
    ensures work { work.new ≡ probability_work n state.now modes.now low high work.old }
{
    let checked = Checked::new(n, state, modes)?;
    Ok(basis_number(checked, low, high, work)?.value)
}
