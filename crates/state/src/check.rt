// Question 16: what every state call asks first.

ghost use Rattle.std.specs.Prelude.{◌≡◌, ◌-◌, ◌^◌, ◌<◌, ◌≤◌, true, false, length, MatchResult, nat_eq, nat_lt, slice_index_or};
ghost use Rattle.laws.specs.Tests.{all_below};
ghost use Rattle.laws.specs.Tables.{mode_at};
ghost use Rattle.laws.specs.Bounds.{max_qubits};
ghost use Rattle.state.specs.Modes.{mode_ok, is_permutation};
ghost use Rattle.state.specs.Questions.{state_ok};
ghost use Rattle.state.specs.Parts.{NoMarks, Marked};

use super::answer::Refusal;
use laws::MAX_QUBITS;

const WORD: usize = 64; // bits of a word

const ONES: u64 = 0xffff_ffff_ffff_ffff;

// The mode of qubit q.
pub fn mode_at(modes: &[u16], q: usize) -> usize
    requires { q < length modes.now }
    ensures { result ≡ mode_at modes.now q }
{
    usize::from(modes[q])
}

// Each entry is its own number, as in the table of a fresh state. The last is looked at first, which settles most other
// tables; then all are, so that the compiler compares several at once. Few entries, here and below: their numbers fit a u16.
fn is_identity(table: &[u16]) -> bool
    requires { length table.now ≤ max_qubits }
    ensures { result ≡ all_below (λ q. nat_eq (mode_at table.now q) q) (length table.now) }
{
    let n = table.len();
    if n > 0 && mode_at(table, n - 1) != n - 1 {
        return false;
    }
    let mut same = true;
    for q in 0..n {
        same &= table[q] == q as u16;
    }
    same
}

// A word with bit k alone.
fn bit(k: usize) -> u64
    requires { k < 64 }
    ensures { result ≡ 2 ^ k }
{
    1u64 << k
}

// A word with the n lowest bits.
fn ones(n: usize) -> u64
    requires { (0 < n) × (n ≤ 64) }
    ensures { result ≡ 2 ^ n - 1 }
{
    ONES >> (WORD - n)
}

// Each of the n entries is below n, and each number below n is met: so no two are equal. The modes met are the bits of two
// words, which take turns, so that the processor need not wait for one entry before the next. The first entry is taken
// before the pairs: where n is even it is taken again, which does no harm.
fn all_met(table: &[u16]) -> bool
    requires { (0 < length table.now) × (length table.now ≤ 64) }
    ensures { result ≡ all_below (mode_ok (length table.now) table.now) (length table.now) }
{
    let n = table.len();
    let first = mode_at(table, 0);
    if first >= n {
        return false;
    }
    let mut a = bit(first);
    let mut b = 0u64;
    for i in 0..n / 2 {
        let q = n % 2 + 2 * i;
        let k = mode_at(table, q);
        let l = mode_at(table, q + 1);
        if k >= n || l >= n {
            return false;
        }
        a |= bit(k);
        b |= bit(l);
    }
    a | b == ones(n)
}

// Each of the n entries is below n. All are looked at, so that the compiler compares several at once.
fn all_below(table: &[u16]) -> bool
    requires { length table.now ≤ max_qubits }
    ensures { result ≡ all_below (λ q. nat_lt (mode_at table.now q) (length table.now)) (length table.now) }
{
    let top = table.len() as u16;
    let mut below = true;
    for mode in table {
        below &= *mode < top;
    }
    below
}

// The modes of all qubits are marked.
fn mark(table: &[u16], seen: &mut [bool])
    requires no_marks { NoMarks seen.old (length table.now) }
    requires below { all_below (λ q. nat_lt (mode_at table.now q) (length table.now)) (length table.now) ≡ true }
    ensures { Marked table.now (length table.now) seen.new }
{
    for mode in table {
        seen[usize::from(*mode)] = true;
    }
}

// Every mark is set. All are looked at, as above.
fn all_set(seen: &[bool]) -> bool
    ensures { result ≡ all_below (λ k. slice_index_or seen.now k false) (length seen.now) }
{
    let mut set = true;
    for mark in seen {
        set &= *mark;
    }
    set
}

// Each of the n entries is below n, and each number below n is met: so no two are equal. The modes met are marked; no mark
// is looked at before all are made, so that the processor need not wait for one.
fn each_once(table: &[u16], seen: &mut [bool]) -> bool
    requires few { length table.now ≤ max_qubits }
    requires no_marks { NoMarks seen.old (length table.now) }
    ensures { result ≡ all_below (mode_ok (length table.now) table.now) (length table.now) }
{
    if all_below(table) {
        mark(table, seen);
        return all_set(&seen[..table.len()]);
    }
    false
}

// The first n entries of the mode table are a permutation.
fn is_permutation(n: usize, modes: &[u16]) -> bool
    requires { n ≤ max_qubits }
    ensures { result ≡ is_permutation n modes.now }
{
    if modes.len() < n {
        return false;
    }
    let table = &modes[..n];
    if is_identity(table) {
        return true;
    }
    if n <= WORD {
        return all_met(table);
    }
    // a mark for each qubit that there can be: no heap
    let mut seen = [false; MAX_QUBITS];
    each_once(table, &mut seen)
}

// n is at most 128, the slice long enough, the mode table a permutation.
pub fn check_state(n: usize, state: &[f64], modes: &[u16]) -> Result<(), Refusal>
    ensures { MatchResult result (λ _. state_ok n state.now modes.now ≡ true)
        (λ why. (why ≡ Refusal.BadState) × (state_ok n state.now modes.now ≡ false)) }
{
    if n > MAX_QUBITS {
        return Err(Refusal::BadState);
    }
    let dim = 2 * n;
    if state.len() < dim * dim + dim || !is_permutation(n, modes) {
        return Err(Refusal::BadState);
    }
    Ok(())
}
