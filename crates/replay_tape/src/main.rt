// Replays the stored tapes and prints how many answers of the proved reader agree with the stored
// ones, which tests/tape/make.py made from the format's description. That file says how they are
// laid out: words of two bytes, the lowest first.

#![tactic(auto)]

ghost use Rattle.std.specs.Prelude.{◌≡◌, length};
ghost use Rattle.tape.specs.Bounds.{header_length};
ghost use Rattle.tape.specs.Parse.{gates_of};
ghost use Rattle.tape.specs.Cursor.{Cursor};

mod records; // records.rt: the records of a list

use crate::records::{Check, List, Record};
use reading::large_buffer;
use std::io;
use std::rt::Files;
use stored::Tally;
use tape::{Gate, HEADER_LENGTH};

// The refusal, or the numbers of gates and labels, beside the stored ones.
fn check_agrees(tape: &[u8], check: Check) -> bool {
    let stored = [check.number, check.place, check.gates, check.labels];
    let found = match tape::check_tape(tape) {
        Ok(c) => [0, 0, c.gates, c.labels],
        Err(fault) => [fault.number() as usize, fault.place(), 0, 0],
    };
    found == stored
}

// The label's bytes beside those of the stored part.
fn label_agrees(tape: &[u8], check: Check) -> bool {
    match tape.get(check.start..check.end) {
        Some(part) => tape::label(tape, check.label) == part,
        None => false,
    }
}

// A gate and its place beside the next five stored words.
fn gate_agrees(gate: Gate, place: usize, stored: &mut List) -> Option<bool> {
    let words = [
        stored.word()?,
        stored.word()?,
        stored.word()?,
        stored.word()?,
        stored.word()?,
    ];
    let found = match gate {
        Gate::One { code, q, m: _ } => [place, code, q, 0, 0],
        Gate::Two { code, a, b, m: _ } => [place, code, a, b, 0],
        Gate::Three { a, b, c } => [place, 0x20, a, b, c],
    };
    Some(found == words)
}

// All gates of an accepted tape, one step each, beside the stored ones.
fn walk_agrees(tape: &[u8], gates: usize, mut stored: List) -> bool
    requires cursor { Cursor tape.now 0 header_length }
    requires gates_value { gates ≡ length (gates_of tape.now) }
{
    let mut at = HEADER_LENGTH;
    for k in 0..gates {
        let p = tape::next_gate(tape, k, at);
        let agrees = gate_agrees(tape::gate_at(tape, p.at), p.at, &mut stored);
        if agrees != Some(true) {
            return false;
        }
        at = p.next;
    }
    stored.is_empty()
}

fn gates_agree(tape: &[u8], stored: List) -> bool {
    match tape::check_tape(tape) {
        Ok(c) => walk_agrees(tape, c.gates, stored),
        Err(_) => false,
    }
}

// How many answers agree, and whether the list has its end.
#[derive(Clone, Copy)]
struct Answers {
    checks: Tally,
    labels: Tally,
    gates: Tally,
    whole: bool,
}

// The answers of a list, each put to as many bytes as it says, from the start of the tape before it or of the list. A record takes a byte at least, so that a
// count of turns ends the walk: an iterator would be an impl more for this one loop.
fn replayed(bytes: &[u8]) -> Answers {
    let none = Tally::default();
    let (mut checks, mut labels, mut gates) = (none, none, none);
    let mut list = List::new(bytes);
    let mut tape = bytes;
    for _ in 0..bytes.len() {
        match list.record() {
            Some(Record::Tape(from)) => tape = from,
            Some(Record::Check(check)) => {
                let asked = tape.get(..check.length);
                checks.note(asked.is_some_and(|t| check_agrees(t, check)));
                labels.note(asked.is_some_and(|t| label_agrees(t, check)));
            }
            Some(Record::Gates { length, stored }) => {
                let asked = tape.get(..length);
                gates.note(asked.is_some_and(|t| gates_agree(t, stored)));
            }
            None => break,
        }
    }
    Answers {
        checks,
        labels,
        gates,
        whole: list.is_at_end(),
    }
}

fn replay(rt: &(impl Files + Print + Eprint), path: &str) -> io::Result<()> {
    let mut space = large_buffer();
    let n = stored::read_list(rt, path.as_bytes(), &mut space)?;
    let all = replayed(&space[..n]);
    println!(rt;
        "{path} check_tape {} of {}",
        all.checks.right, all.checks.all
    )?;
    println!(rt; "{path} label {} of {}", all.labels.right, all.labels.all)?;
    println!(rt; "{path} gates {} of {}", all.gates.right, all.gates.all)?;
    if all.whole {
        println!(rt; "{path} end")?;
    }
    Ok(())
}

fn main(rt: HostRuntime) -> io::Result<()> {
    replay(&rt, "tapes.bin")?;
    replay(&rt, "many.bin")
}
