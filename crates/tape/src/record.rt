// One record at an offset of the tape: the questions 4 to 8, in their order. Lengths are required of the tape, as in gate: a part cut out first would owe
// the same bound.
ghost use Rattle.std.specs.Prelude.{ℕ, ◌≡◌, ◌+◌, ◌*◌, ◌<◌, ◌≤◌, length};
ghost use Rattle.tape.specs.Codes.{gate_length};
ghost use Rattle.tape.specs.Records.{marked_at, code_at, qubit_at, qubits_below, qubits_differ, small_entry, entries_small};
ghost use Rattle.tape.specs.Records.{gate_fault, sound, gate_record_at, label_bytes, label_record_at, record_at};
ghost use Rattle.tape.specs.Told.{told_gate, told_found, told_step};

use crate::bounds::{
    GATE_MARK, LABEL_MARK, LEADING, MARK, MAX_ENTRY, MAX_GATES, MAX_LABEL, byte_at,
};
use crate::codes::{floats_of, gate_length, qubits_of};
use crate::fault::Fault;
use crate::labels::Span;

// A gate and where the next record starts, or a label's bytes: the next record starts at their end.
#[derive(Clone, Copy)]
pub enum Record {
    Gate { next: usize },
    Label(Span),
}

// Whether the mark of a kind of record stands at `at`.
#[tactic(auto, using(crate::proofs::Asked::nat), unfolding(crate::specs::Records::marked_at))]
fn marked(t: &[u8], at: usize, kind: usize) -> bool
    requires { at < length t.now }
    ensures { result ≡ marked_at t.now at kind }
{
    t.len() - at >= 2 && byte_at(t, at) == MARK && byte_at(t, at + 1) == kind
}

// The qubit number j of the gate at `at`.
pub fn qubit_at(t: &[u8], at: usize, j: usize) -> usize
    requires { at + 3 + j < length t.now }
    ensures { result ≡ qubit_at t.now at j }
{
    byte_at(t, at + LEADING + j)
}

// Question 6, for k qubits.
#[tactic(auto, using(std::proofs::lemmas::Bool::Decides::nat_tests, laws::proofs::Tests::belows), unfolding(crate::specs::Records::qubits_below))]
fn qubits_below(t: &[u8], at: usize, k: usize, n: usize) -> bool
    requires { at + 3 + k ≤ length t.now }
    ensures { result ≡ qubits_below t.now at k n }
{
    for j in 0..k {
        if qubit_at(t, at, j) >= n {
            return false;
        }
    }
    true
}

// Question 7, for k qubits. By `if`: the qubits are bound to names on the way.
#[tactic(auto, using(crate::proofs::Asked::nat), unfolding(crate::specs::Records::qubits_differ))]
fn qubits_differ(t: &[u8], at: usize, k: usize) -> bool
    requires { at + 3 + k ≤ length t.now }
    ensures { result ≡ qubits_differ t.now at k }
{
    if k < 2 {
        return true;
    }
    let a = qubit_at(t, at, 0);
    let b = qubit_at(t, at, 1);
    if k < 3 {
        return a != b;
    }
    let c = qubit_at(t, at, 2);
    a != b && a != c && b != c
}

// A NaN and the infinities fail the test.
#[tactic(auto, using(std::proofs::lemmas::Bool::Decides::nat_tests), unfolding(crate::specs::Records::small_entry))]
fn small_entry(x: f64) -> bool
    ensures { result ≡ small_entry x }
{
    num::abs(x) <= MAX_ENTRY
}

// Question 8, for k entries from `at` on.
#[tactic(auto, using(std::proofs::lemmas::Bool::Decides::nat_tests, laws::proofs::Tests::belows), unfolding(crate::specs::Records::entries_small))]
fn entries_small(t: &[u8], at: usize, k: usize) -> bool
    requires { at + 8 * k ≤ length t.now }
    ensures { result ≡ entries_small t.now at k }
{
    for j in 0..k {
        if !small_entry(num::f64_at(t, at + 8 * j)) {
            return false;
        }
    }
    true
}

// The questions 6 to 8, of a whole gate.
#[tactic(auto, using(crate::proofs::Asked::nat), unfolding(crate::specs::Records::gate_fault, crate::specs::Records::sound, crate::specs::Codes::gate_length))]
fn check_gate(t: &[u8], at: usize, n: usize) -> Result<(), Fault>
    requires { at + gate_length (code_at t.now at) ≤ length t.now }
    ensures { (next : ℕ) → told_gate next result ≡ sound (gate_fault t.now at n) at next }
{
    let code = byte_at(t, at + 2);
    let k = qubits_of(code);
    if !qubits_below(t, at, k, n) {
        return Err(Fault::BadQubit(at));
    }
    if !qubits_differ(t, at, k) {
        return Err(Fault::SameQubit(at));
    }
    if !entries_small(t, at + LEADING + k, floats_of(code)) {
        return Err(Fault::LargeEntry(at));
    }
    Ok(())
}

// A record that begins 51 47.
#[tactic(auto, using(crate::proofs::Asked::nat), unfolding(crate::specs::Records::gate_record_at, crate::specs::Records::sound))]
fn gate_record(t: &[u8], at: usize, n: usize, gates: usize) -> Result<Record, Fault>
    requires { at < length t.now }
    ensures { told_found result ≡ gate_record_at t.now at n gates }
{
    if gates >= MAX_GATES {
        return Err(Fault::ManyGates(at));
    }
    if t.len() - at < LEADING {
        return Err(Fault::BadRecord(at));
    }
    let code = byte_at(t, at + 2);
    let length = gate_length(code);
    if qubits_of(code) == 0 || t.len() - at < length {
        return Err(Fault::BadRecord(at));
    }
    check_gate(t, at, n)?;
    Ok(Record::Gate { next: at + length })
}

// Whether each of the k bytes from `start` on is from 20 to 7E.
#[tactic(auto, using(std::proofs::lemmas::Bool::Decides::nat_tests, laws::proofs::Tests::belows), unfolding(crate::specs::Records::label_bytes))]
fn label_bytes(t: &[u8], start: usize, k: usize) -> bool
    requires { start + k ≤ length t.now }
    ensures { result ≡ label_bytes t.now start k }
{
    for j in 0..k {
        let b = byte_at(t, start + j);
        if b < 0x20 || b > 0x7e {
            return false;
        }
    }
    true
}

// A record that begins 51 4C.
#[tactic(auto, using(crate::proofs::Asked::nat), unfolding(crate::specs::Records::label_record_at))]
fn label_record(t: &[u8], at: usize) -> Result<Record, Fault>
    requires { at < length t.now }
    ensures { told_found result ≡ label_record_at t.now at }
{
    if t.len() - at < LEADING {
        return Err(Fault::BadRecord(at));
    }
    let k = byte_at(t, at + 2);
    let start = at + LEADING;
    if k > MAX_LABEL || t.len() - start < k || !label_bytes(t, start, k) {
        return Err(Fault::BadRecord(at));
    }
    Ok(Record::Label(Span {
        start,
        end: start + k,
    }))
}

// The record at `at`, wherever that is, on a tape of n qubits and with so many gates before it: none
// where the tape ends.
#[tactic(auto, using(crate::proofs::Asked::nat), unfolding(crate::specs::Records::record_at))]
pub fn record_at(t: &[u8], at: usize, n: usize, gates: usize) -> Result<Option<Record>, Fault>
    ensures { told_step result ≡ record_at t.now at n gates }
{
    if at >= t.len() {
        return Ok(None);
    }
    if marked(t, at, GATE_MARK) {
        return Ok(Some(gate_record(t, at, n, gates)?));
    }
    if marked(t, at, LABEL_MARK) {
        return Ok(Some(label_record(t, at)?));
    }
    Err(Fault::BadRecord(at))
}
