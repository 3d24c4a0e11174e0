// Products of Z.

ghost use Rattle.std.specs.Prelude.{◌≡◌, false, ◌≤◌, length, get_or};
ghost use Rattle.queries.specs.Lists.{passing};
ghost use Rattle.queries.specs.Answers.{taken_apart, answered};
ghost use Rattle.queries.specs.Inner.{Spans};
ghost use Rattle.queries.specs.Calls.{covariance_of, product_answer, product_work};
ghost use Rattle.queries.specs.Calls.{expectation_z_product_of, expectation_z_product_work};

use super::lists::{Span, list_modes, mark_odd};
use super::matrices::{pfaffian_cleared, restrict};
use super::number::Number;
use laws::MAX_QUBITS;
use pfaffian::End;
use real::Square;
use state::{Checked, Refusal};

// The Pfaffian's answer as a product's.
fn product_number(end: End) -> Number
    ensures { result ≡ taken_apart (λ x. x) end }
{
    match end {
        End::Value(x) => Number::rowless(x),
        End::Stopped(row) => Number::stopped(row),
    }
}

// The product over the marked modes, which are among the given ones: question 20. Marks have a place for each mode that there can be; the first n count.
fn product_marked(
    checked: Checked,
    odd: &[bool],
    among: Span,
    work: &mut [f64],
) -> Result<Number, Refusal>
    requires long { checked.n ≤ length odd.now }
    requires among { Spans checked.n (λ k. get_or odd.now k false) among }
    ensures answer { let left = passing (λ k. get_or odd.now k false) checked.entry.n in
        answered result
        ≡ product_answer (covariance_of checked.entry.n checked.entry.state.now) left work.old }
    ensures work { work.new ≡ product_work (passing (λ k. get_or odd.now k false) checked.entry.n) work.old }
{
    let list = list_modes(among, |k| odd[k]);
    let dim = 2 * list.len();
    if work.len() < dim * dim {
        return Err(Refusal::SmallWork);
    }
    let mut m = Square { entries: work, dim };
    restrict(checked, list.as_slice(), &mut m);
    Ok(product_number(pfaffian_cleared(&mut m)))
}

// The product of Z over the listed qubits: questions 16, 19 and 20. A qubit listed twice cancels.
pub fn expectation_z_product(
    n: usize,
    state: &[f64],
    modes: &[u16],
    qubits: &[usize],
    work: &mut [f64],
) -> Result<Number, Refusal>
    ensures answer { answered result ≡ expectation_z_product_of n state.now modes.now qubits.now work.old }
    ensures work { work.new ≡ expectation_z_product_work n state.now modes.now qubits.now
        work.old }
{
    let checked = Checked::new(n, state, modes)?;
    let mut odd = [false; MAX_QUBITS];
    let among = mark_odd(checked, qubits, &mut odd)?;
    product_marked(checked, &odd, among, work)
}
