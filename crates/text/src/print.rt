// The text of a tape.
ghost use Rattle.std.specs.Prelude.{◌≡◌, false, ◌++◌, ◌+◌, ◌≤◌, [], length, drop};
ghost use Rattle.text.specs.Bounds.{printed_qubits, max_z_lines, max_text};
ghost use Rattle.text.specs.Lines.{z_lines};
ghost use Rattle.text.specs.Print.{is_too_big, z_at, done_text, printed};
ghost use Rattle.text.specs.Room.{Counts};

use crate::lines::{push_order_line, push_refused, push_report_line, push_z_line};
use crate::words::{MAX_TEXT, Text};
use detect::Report;
use gaussian::run;
use laws::OP_PLACES;
use queries::{Answered, expectation_z_product};
use tape::{Contents, check_tape};
use work::{RECORD_FLOATS, RECORD_MARKS};

const MAX_TAPE: usize = 60000;

const PRINTED_GATES: usize = 32;

const PRINTED_QUBITS: usize = 8;

// What is lent to the run: places for that many gates and qubits, as the questions 9, 10 and 15 count them. An item becomes at most three operations.
const RECORDS: usize = PRINTED_GATES + PRINTED_QUBITS;

const FLOATS: usize = RECORD_FLOATS * RECORDS;

const MARKS: usize = RECORD_MARKS * RECORDS;

const PLACES: usize = OP_PLACES * 3 * RECORDS;

const Z_WORK: usize = 4; // question 20 of one qubit

const STATE: usize = 4 * PRINTED_QUBITS * PRINTED_QUBITS + 2 * PRINTED_QUBITS;

// Whether the tape has too many bytes or, passing 1 to 8, too many gates or qubits.
#[tactic(auto, using(std::proofs::lemmas::Bool::Decides::nat_tests, crate::proofs::Large::large), unfolding(crate::specs::Print::is_too_big))]
fn is_too_big(tape: &[u8]) -> bool
    ensures { result ≡ is_too_big tape.now }
{
    let too_many = |c: Contents| c.gates > PRINTED_GATES || c.header.n > PRINTED_QUBITS;
    tape.len() > MAX_TAPE || check_tape(tape).is_ok_and(too_many)
}

// Z of qubit q, as the query answers it. One mode is left, so that work has four places.
fn z_of(n: usize, state: &[f64], modes: &[u16], q: usize) -> f64
    ensures { result ≡ z_at n state.now modes.now q }
{
    let mut work = [0.0; Z_WORK];
    let answer = expectation_z_product(n, state, modes, &[q], &mut work);
    Answered::from(answer).told.value
}

// The q lines of a report, from the state.
fn push_z_lines(text: &mut Text, r: &Report, state: &[f64])
    requires few { r.now.n ≤ printed_qubits }
    requires room { length text.old.bytes + max_z_lines ≤ max_text }
    ensures { text.new.bytes ≡ text.old.bytes ++ z_lines (z_at r.now.n state.now r.now.modes) r.now.n }
{
    for q in 0..r.n {
        push_z_line(text, q as u64, z_of(r.n, state, &r.modes, q));
    }
}

// The text of a run that was not refused.
fn push_done(text: &mut Text, r: &Report, state: &[f64])
    requires few { r.now.n ≤ printed_qubits }
    requires empty { text.old.bytes ≡ [] }
    ensures { text.new.bytes ≡ done_text r.now state.now }
{
    push_report_line(text, r);
    push_order_line(text, r.ordering, &r.order[..r.n]);
    push_z_lines(text, r, state);
}

// The text of a tape that is not too big.
fn push_run(text: &mut Text, tape: &[u8])
    requires fits { is_too_big tape.now ≡ false }
    requires empty { text.old.bytes ≡ [] }
    ensures { text.new.bytes ≡ printed tape.now }
{
    let mut work = [0.0; FLOATS];
    let mut marks = [0; MARKS];
    let mut ops = [0.0; PLACES];
    let mut state = [0.0; STATE];
    match run(tape, &mut work, &mut marks, &mut ops, &mut state) {
        Ok(report) => push_done(text, &report, &state),
        Err(refusal) => push_refused(text, refusal),
    }
}

#[tactic(auto, unfolding(crate::specs::Print::printed, crate::specs::Lines::too_big_line, crate::specs::Ascii::ascii))]
fn text_of(tape: &[u8]) -> Text
    ensures { result.bytes ≡ printed tape.now }
{
    let mut text = Text::new();
    if is_too_big(tape) {
        text.push_str("too big\n");
        return text;
    }
    push_run(&mut text, tape);
    text
}

// The text of a tape, at the start of `out`, and its length. The rest of `out` keeps its bytes: the caller has a buffer, and is promised this of it.
pub fn print_tape(tape: &[u8], out: &mut [u8; MAX_TEXT]) -> usize
    ensures end { result ≡ length (printed tape.now) }
    ensures text { out.new ≡ printed tape.now ++ drop (length (printed tape.now)) out.old }
    ensures inside { Counts result out.new }
{
    let text = text_of(tape);
    let end = text.len();
    out[..end].copy_from_slice(text.as_str().as_bytes());
    end
}
