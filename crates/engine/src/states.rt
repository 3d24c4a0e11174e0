// Calls on a state. Each export asks for room and then makes its call: C names each by itself, with slices of its own, and what they share is in said.rt.
ghost use Rattle.std.specs.Prelude.{◌≡◌, cond, leb, length, set};
ghost use Rattle.state.specs.Calls.{apply_answer, apply_state};
ghost use Rattle.queries.specs.Calls.{expectation_z_product_of, expectation_z_product_work};
ghost use Rattle.queries.specs.Calls.{marginal_probability_of, marginal_probability_work, probability_of, probability_work, sample_of, sample_work, sample_out};
ghost use Rattle.engine.specs.Answers.{no_room, has_places, Tells};

use crate::said::{NO_ROOM, has_places, tell};
use state::Told;

// The operation in `op` is applied to the state.
#[unsafe(no_mangle)]
pub extern "C" fn jozkeral_apply(n: usize, state: &mut [f64], modes: &[u16], op: &[f64]) -> u64
    ensures number { result ≡ (apply_answer n state.old modes.now op.now).number }
    ensures state { state.new ≡ apply_state n state.old modes.now op.now }
{
    let t = Told::from(state::apply(n, state, modes, op));
    t.number
}

// The product of Z over the listed qubits.
#[unsafe(no_mangle)]
pub extern "C" fn jozkeral_expectation_z_product(
    n: usize,
    state: &[f64],
    modes: &[u16],
    qubits: &[usize],
    work: &mut [f64],
    place: &mut [u64],
    answer: &mut [f64],
    row: &mut [u64],
) -> u64
    ensures answer { Tells (expectation_z_product_of n state.now modes.now qubits.now work.old)
        place.old answer.old row.old result place.new answer.new row.new }
    ensures work { work.new ≡ cond (has_places (length place.old) (length answer.old) (length row.old))
        (expectation_z_product_work n state.now modes.now qubits.now work.old) work.old }
{
    if has_places(place.len(), answer.len(), row.len()) {
        let a = queries::expectation_z_product(n, state, modes, qubits, work);
        return tell(a, place, answer, row);
    }
    NO_ROOM
}

// The probability that the listed qubits read their bits.
#[unsafe(no_mangle)]
pub extern "C" fn jozkeral_marginal_probability(
    n: usize,
    state: &[f64],
    modes: &[u16],
    qubits: &[usize],
    bits: &[u8],
    work: &mut [f64],
    place: &mut [u64],
    answer: &mut [f64],
    row: &mut [u64],
) -> u64
    ensures answer { Tells (marginal_probability_of n state.now modes.now qubits.now bits.now
        work.old) place.old answer.old row.old result place.new answer.new row.new }
    ensures work { work.new ≡ cond (has_places (length place.old) (length answer.old) (length row.old))
        (marginal_probability_work n state.now modes.now qubits.now bits.now work.old)
        work.old }
{
    if has_places(place.len(), answer.len(), row.len()) {
        let a = queries::marginal_probability(n, state, modes, qubits, bits, work);
        return tell(a, place, answer, row);
    }
    NO_ROOM
}

// The probability of a basis index. Its refusals have no place.
#[unsafe(no_mangle)]
pub extern "C" fn jozkeral_probability(
    n: usize,
    state: &[f64],
    modes: &[u16],
    low: u64,
    high: u64,
    work: &mut [f64],
    answer: &mut [f64],
) -> u64
    ensures number { result ≡ cond (leb 1 (length answer.old))
        (probability_of n state.now modes.now low high work.old).number no_room }
    ensures answer { answer.new ≡ cond (leb 1 (length answer.old))
        (set answer.old 0 (probability_of n state.now modes.now low high work.old).value)
        answer.old }
    ensures work { work.new ≡ cond (leb 1 (length answer.old))
        (probability_work n state.now modes.now low high work.old) work.old }
{
    if answer.len() < 1 {
        return NO_ROOM;
    }
    let t = Told::from(queries::probability(n, state, modes, low, high, work));
    answer[0] = t.value;
    t.number
}

// Shots of every qubit, from the draws in their order.
#[unsafe(no_mangle)]
pub extern "C" fn jozkeral_sample(
    n: usize,
    state: &[f64],
    modes: &[u16],
    shots: usize,
    draws: &[f64],
    work: &mut [f64],
    out: &mut [u64],
    place: &mut [u64],
) -> u64
    ensures number { result ≡ cond (leb 1 (length place.old))
        (sample_of n state.now modes.now shots draws.now work.old out.old).number no_room }
    ensures place { place.new ≡ cond (leb 1 (length place.old))
        (set place.old 0
        (sample_of n state.now modes.now shots draws.now work.old out.old).place)
        place.old }
    ensures work { work.new ≡ cond (leb 1 (length place.old))
        (sample_work n state.now modes.now work.old) work.old }
    ensures out { out.new ≡ cond (leb 1 (length place.old))
        (sample_out n state.now modes.now shots draws.now work.old out.old)
        out.old }
{
    if place.len() < 1 {
        return NO_ROOM;
    }
    let t = Told::from(queries::sample(n, state, modes, shots, draws, work, out));
    place[0] = t.place;
    t.number
}
