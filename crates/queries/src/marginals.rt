// The probability that some qubits read their bits.

ghost use Rattle.std.specs.Prelude.{◌≡◌, length};
ghost use Rattle.std.specs.Float.{binary64};
ghost use Rattle.std.specs.Float.Ieee.{mul};
ghost use Rattle.laws.specs.Zeros.{+1, sg};
ghost use Rattle.queries.specs.Marginals.{is_one, at_least_zero_of};
ghost use Rattle.queries.specs.Answers.{taken_apart, answered};
ghost use Rattle.queries.specs.Calls.{covariance_of, marked_answer, marked_work, marginal_probability_of, marginal_probability_work};
ghost use Rattle.queries.specs.Inner.{mark_at, Below, odd_among};

use super::lists::{Noted, Span, check_bits, list_modes, note_bits};
use super::matrices::{ask, pfaffian_cleared};
use super::number::Number;
use laws::MAX_QUBITS;
use pfaffian::End;
use real::Square;
use state::{Checked, Refusal};

// The listed modes that are asked for a one are odd in number. By the list: a walk over what is asked of all modes took as long as the rest of a query of one.
fn odd_ones(asked: &[Option<bool>], list: &[u16]) -> bool
    requires { Below (length asked.now) list.now }
    ensures { result ≡ odd_among (λ k. is_one (mark_at asked.now k)) list.now }
{
    let mut odd = false;
    for j in 0..list.len() {
        odd ^= asked[usize::from(list[j])].unwrap_or(false);
    }
    odd
}

// -1.0 for an odd number of ones, else 1.0.
fn sign(asked: &[Option<bool>], list: &[u16]) -> f64
    requires { Below (length asked.now) list.now }
    ensures { result ≡ sg (odd_among (λ k. is_one (mark_at asked.now k)) list.now) +1 }
{
    if odd_ones(asked, list) { -1.0 } else { 1.0 }
}

// Rust's `max(0.0)`, with 0.0 for either zero: which of them std's gives is left open.
fn at_least_zero(x: f64) -> f64
    ensures { result ≡ at_least_zero_of x }
{
    if x > 0.0 { x } else { 0.0 }
}

// The Pfaffian's answer as a marginal's: with the sign s, and never below zero.
fn marginal_number(s: f64, end: End) -> Number
    ensures { result ≡ taken_apart (λ x. at_least_zero_of (mul binary64 s x)) end }
{
    match end {
        End::Value(x) => Number::rowless(at_least_zero(s * x)),
        End::Stopped(row) => Number::stopped(row),
    }
}

// The probability that the modes read the bits that they are asked for: question 20.
pub fn marked_probability(
    checked: Checked,
    asked: &[Option<bool>],
    work: &mut [f64],
) -> Result<Number, Refusal>
    requires { length asked.now ≡ checked.n }
    ensures answer { answered result ≡ marked_answer (covariance_of checked.entry.n checked.entry.state.now)
        checked.entry.n (mark_at asked.now) work.old }
    ensures work { work.new ≡ marked_work checked.entry.n (mark_at asked.now) work.old }
{
    let all = Span {
        low: 0,
        end: checked.n,
    };
    let list = list_modes(all, |k| asked[k].is_some());
    let dim = 2 * list.len();
    if work.len() < dim * dim {
        return Err(Refusal::SmallWork);
    }
    let mut m = Square { entries: work, dim };
    ask(checked, list.as_slice(), asked, &mut m);
    let end = pfaffian_cleared(&mut m);
    Ok(marginal_number(sign(asked, list.as_slice()), end))
}

// The probability that the listed qubits read their bits: questions 16, 18, 19 and 20. A list that contradicts itself has the probability
// 0.0, whatever follows and however small work is.
pub fn marginal_probability(
    n: usize,
    state: &[f64],
    modes: &[u16],
    qubits: &[usize],
    bits: &[u8],
    work: &mut [f64],
) -> Result<Number, Refusal>
    ensures answer { answered result ≡ marginal_probability_of n state.now modes.now qubits.now
        bits.now work.old }
    ensures work { work.new ≡ marginal_probability_work n state.now modes.now qubits.now
        bits.now work.old }
{
    let checked = Checked::new(n, state, modes)?;
    check_bits(qubits, bits)?;
    let mut asked = [None; MAX_QUBITS];
    match note_bits(checked, qubits, bits, &mut asked)? {
        Noted::Agreeing => marked_probability(checked, &asked[..n], work),
        Noted::Contradictory => Ok(Number::rowless(0.0)),
    }
}
