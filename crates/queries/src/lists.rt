// The list of a query. Its places are read once, in their order, and what they say is kept for each mode. Qubits and bits are two slices, as C hands them
// over: question 18 compares their lengths.

ghost use Rattle.std.specs.Prelude.{◌≡◌, Bool, true, false, ℕ, suc, ◌<◌, ◌≤◌, length, get_or, MatchResult};
ghost use Rattle.arrayvec.specs.ArrayVec.{array_vec_len};
ghost use Rattle.laws.specs.Bounds.{max_qubits};
ghost use Rattle.pfaffian.specs.Shot.{bit};
ghost use Rattle.queries.specs.Lists.{bad_place, odd_mode, bits_ok, bit_listed, mode_listed, stop_place, conflicts_of, noted, passing};
ghost use Rattle.queries.specs.Inner.{Odd, Spans, Asked, Says, mark_of};

use arrayvec::ArrayVec;
use laws::MAX_QUBITS;
use state::{Checked, Refusal};

// What a list of qubits with their bits says as a whole.
#[derive(Clone, Copy, Debug, PartialEq, Eq)]
pub enum Noted {
    Agreeing, // no mode is asked for two bits
    Contradictory,
}

// The modes from `low` up to `end`: those that a list has are among them. So a list of one qubit does not look at all n modes.
#[derive(Clone, Copy)]
pub struct Span {
    pub low: usize,
    pub end: usize,
}

impl Span {
    // With mode k.
    fn with(self, k: usize) -> Span
        requires { k < max_qubits }
        ensures low { (result.low ≤ self.low) × (result.low ≤ k) }
        ensures end { (self.end ≤ result.end) × (k < result.end) }
        ensures least { (m : ℕ) → self.end ≤ m → k < m → result.end ≤ m }
    {
        let mut with = self;
        if k < with.low {
            with.low = k;
        }
        if with.end <= k {
            with.end = k + 1;
        }
        with
    }
}

// The modes of odd count are marked, and where they are is said; a qubit that is not below n is refused (question 19): then the marks are
// those of the places before it.
pub fn mark_odd(checked: Checked, qubits: &[usize], odd: &mut [bool]) -> Result<Span, Refusal>
    requires { Odd checked.n (λ k. false) odd.old }
    ensures answer { let place = bad_place checked.entry.n qubits.now in
        MatchResult result (λ span. (place ≡ length qubits.now)
        × Spans checked.entry.n (odd_mode checked.entry.modes.now qubits.now place) span)
        (λ why. (place < length qubits.now) × (why ≡ Refusal.BadQubit place)) }
    ensures marks { let place = bad_place checked.entry.n qubits.now in
        Odd checked.entry.n (odd_mode checked.entry.modes.now qubits.now place) odd.new }
{
    let mut span = Span {
        low: checked.n,
        end: 0,
    };
    for (i, q) in qubits.iter().enumerate() {
        if *q >= checked.n {
            return Err(Refusal::BadQubit(i));
        }
        let k = checked.mode_of(*q);
        span = span.with(k);
        odd[k] = !odd[k];
    }
    Ok(span)
}

// As many bits as qubits, each 0 or 1: question 18.
pub fn check_bits(qubits: &[usize], bits: &[u8]) -> Result<(), Refusal>
    ensures { MatchResult result (λ _. bits_ok qubits.now bits.now ≡ true)
        (λ why. (why ≡ Refusal.BadBits) × (bits_ok qubits.now bits.now ≡ false)) }
{
    if qubits.len() != bits.len() {
        return Err(Refusal::BadBits);
    }
    for bit in bits {
        if *bit > 1 {
            return Err(Refusal::BadBits);
        }
    }
    Ok(())
}

// A bit is asked for, and it is another.
fn conflicts(asked: Option<bool>, read: bool) -> bool
    ensures { result ≡ conflicts_of (mark_of asked) (suc (bit read)) }
{
    match asked {
        Some(first) => first != read,
        None => false,
    }
}

// The first bit listed is noted of each mode, up to the first qubit that is not below n (question 19) or contradicts an earlier place: then
// what is noted is what the places before it say.
pub fn note_bits(
    checked: Checked,
    qubits: &[usize],
    bits: &[u8],
    asked: &mut [Option<bool>],
) -> Result<Noted, Refusal>
    requires bits_value { bits_ok qubits.now bits.now ≡ true }
    requires none { Asked checked.n (λ k. 0) asked.old }
    ensures answer { let place = stop_place checked.entry.n checked.entry.modes.now qubits.now bits.now in
        MatchResult result (Says checked.entry.n qubits.now place)
        (λ why. (place < length qubits.now) × (checked.entry.n ≤ get_or qubits.now place 0)
        × (why ≡ Refusal.BadQubit place)) }
    ensures asked { let place = stop_place checked.entry.n checked.entry.modes.now qubits.now bits.now in
        Asked checked.entry.n
        (noted (mode_listed checked.entry.modes.now qubits.now) (bit_listed bits.now) place)
        asked.new }
{
    for (i, q) in qubits.iter().enumerate() {
        if *q >= checked.n {
            return Err(Refusal::BadQubit(i));
        }
        let k = checked.mode_of(*q);
        let bit = bits[i] == 1;
        if conflicts(asked[k], bit) {
            return Ok(Noted::Contradictory);
        }
        asked[k] = Some(bit);
    }
    Ok(Noted::Agreeing)
}

// The modes that pass a test, ascending, where those that do are among the given ones.
pub fn list_modes<F: Fn(usize) -> bool>(among: Span, left: F) -> ArrayVec<u16, MAX_QUBITS>
    requires room { among.end ≤ max_qubits }
    requires callable { (k : ℕ) → k < among.end → F.pre left k }
    ensures fits { array_vec_len result ≤ among.end }
    ensures modes { (n : ℕ) (p : ℕ → Bool) → Spans n p among
        → ((k : ℕ) (b : Bool) → k < among.end → F.post left k b → b ≡ p k)
        → result.items ≡ passing p n }
{
    let mut list = ArrayVec::new();
    for k in among.low..among.end {
        if left(k) {
            list.push(k as u16);
        }
    }
    list
}
