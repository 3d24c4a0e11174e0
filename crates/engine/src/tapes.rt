// Calls on a tape.
ghost use Rattle.std.specs.Prelude.{◌≡◌, true, cond, leb, length};
ghost use Rattle.tape.specs.Labels.{span_of};
ghost use Rattle.detect.specs.Questions.{compiled, compiled_work, compiled_marks, compiled_ops};
ghost use Rattle.gaussian.specs.Run.{ran, ran_work, ran_marks, ran_ops, ran_state};
ghost use Rattle.engine.specs.Answers.{no_room, span_written};
ghost use Rattle.engine.specs.Reports.{room_of, Reports};
ghost use Rattle.gaussian.specs.Signs.{SignClaim};
ghost use Rattle.gaussian.specs.Beside.{PlainRun};
ghost use Rattle.claim.specs.Queries.{answer};
ghost use Rattle.engine.specs.Claims.{left_in, operations_in, CallClaim};

use crate::reports::{has_report, put_report};
use crate::said::NO_ROOM;

// Where the label `which` is on the tape, counted from 0: offset and length, both 0 if there is none, since C has no Option.
#[tactic(auto, unfolding(crate::specs::Answers::span_written))]
#[unsafe(no_mangle)]
pub extern "C" fn jozkeral_label(tape: &[u8], which: usize, found: &mut [u64]) -> u64
    ensures number { result ≡ cond (leb 2 (length found.old)) 0 no_room }
    ensures found { found.new ≡ cond (leb 2 (length found.old))
        (span_written (span_of tape.now which) found.old) found.old }
{
    if found.len() < 2 {
        return NO_ROOM;
    }
    let s = tape::label_span(tape, which);
    found[0] = s.start as u64;
    found[1] = (s.end - s.start) as u64;
    0
}

// The report and the operations of a tape.
#[unsafe(no_mangle)]
pub extern "C" fn jozkeral_compile(
    tape: &[u8],
    work: &mut [f64],
    marks: &mut [u32],
    ops: &mut [f64],
    place: &mut [u64],
    report: &mut [u64],
    measures: &mut [f64],
    tables: &mut [u16],
) -> u64
    ensures answer { Reports (compiled tape.now work.old marks.old ops.old)
        place.old report.old measures.old tables.old result
        place.new report.new measures.new tables.new }
    ensures work { work.new ≡ cond
        (room_of place.old report.old measures.old tables.old)
        (compiled_work tape.now work.old marks.old ops.old) work.old }
    ensures marks { marks.new ≡ cond
        (room_of place.old report.old measures.old tables.old)
        (compiled_marks tape.now work.old marks.old ops.old) marks.old }
    ensures ops { ops.new ≡ cond
        (room_of place.old report.old measures.old tables.old)
        (compiled_ops tape.now work.old marks.old ops.old) ops.old }
{
    if has_report(place.len(), report.len(), measures.len(), tables.len()) {
        let c = detect::compile(tape, work, marks, ops);
        return put_report(c, place, report, measures, tables);
    }
    NO_ROOM
}

// A tape run: its report, its operations, and the state that they make of the vacuum.
#[unsafe(no_mangle)]
pub extern "C" fn jozkeral_run(
    tape: &[u8],
    work: &mut [f64],
    marks: &mut [u32],
    ops: &mut [f64],
    state: &mut [f64],
    place: &mut [u64],
    report: &mut [u64],
    measures: &mut [f64],
    tables: &mut [u16],
) -> u64
    ensures answer { Reports (ran tape.now work.old marks.old ops.old state.old)
        place.old report.old measures.old tables.old result
        place.new report.new measures.new tables.new }
    ensures work { work.new ≡ cond
        (room_of place.old report.old measures.old tables.old)
        (ran_work tape.now work.old marks.old ops.old state.old) work.old }
    ensures marks { marks.new ≡ cond
        (room_of place.old report.old measures.old tables.old)
        (ran_marks tape.now work.old marks.old ops.old state.old) marks.old }
    ensures ops { ops.new ≡ cond
        (room_of place.old report.old measures.old tables.old)
        (ran_ops tape.now work.old marks.old ops.old state.old) ops.old }
    ensures state { state.new ≡ cond
        (room_of place.old report.old measures.old tables.old)
        (ran_state tape.now work.old marks.old ops.old state.old) state.old }
    ensures register { CallClaim tape.now work.old marks.old ops.old state.old
        (room_of place.old report.old measures.old tables.old)
        (left_in result report.new tables.new state.new) }
    ensures signs { SignClaim answer (left_in result report.new tables.new state.new)
        (operations_in report.new) ops.new }
    ensures plain { PlainRun (left_in result report.new tables.new state.new)
        (operations_in report.new) ops.new }
{
    if has_report(place.len(), report.len(), measures.len(), tables.len()) {
        let c = gaussian::run(tape, work, marks, ops, state);
        return put_report(c, place, report, measures, tables);
    }
    NO_ROOM
}
