// The questions 1 to 10, the report and the operations. What is asked of a judge (`callable`, `room`) stands at each
// function that takes one: a closure has no field that could say it. Tape, work, marks and operations come one by one, as C hands them over.
ghost use Rattle.std.specs.Prelude.{◌≡◌, ◌*◌, ◌≤◌, length, Result, Ok, Err};
ghost use Rattle.laws.specs.Slices.{filled};
ghost use Rattle.laws.specs.Bounds.{max_qubits, op_places};
ghost use Rattle.gate.specs.Complex.{f0};
ghost use Rattle.tape.specs.Parse.{Content, content_of, parse};
ghost use Rattle.detect.specs.Lending.{Lent};
ghost use Rattle.detect.specs.Lent.{WorkFor};
ghost use Rattle.detect.specs.Questions.{Asked, answer_of, ops_after, asked_from, asked_ten, compiled, compiled_work, compiled_marks, compiled_ops};
ghost use Rattle.detect.specs.Told.{told, ten_of, AfterNine, JudgedAs, Judges, Leaves};

use crate::emit::emit_all;
use crate::lending::lend;
use crate::places::OP_PLACES;
use crate::program::detect;
use crate::refusal::Refusal;
use crate::report::Report;
use tape::{Contents, Header, check_tape};
use work::Work;

// Report, judgement and, if it is yes and no block is bad, operations.
fn answer<J: FnOnce(Header, Report) -> Result<(), Refusal>>(
    tape: &[u8],
    h: Header,
    work: &mut Work,
    ops: &mut [f64],
    judge: J,
) -> Result<Report, Refusal>
    requires tape { WorkFor tape.now h work.old }
    requires callable { (r : Report) → J.pre judge h r }
    requires room { (r : Report) → J.post judge h r (Ok tt) → op_places * r.operations ≤ length ops.old }
    ensures { (x : Asked) → JudgedAs (J.post judge) h (content_of (parse tape.now)) x
        → (told result ≡ answer_of x) × (ops.new ≡ ops_after x ops.old) × AfterNine x h (content_of (parse tape.now)) }
{
    let r = detect(tape, h, work);
    judge(h, r)?;
    if r.free {
        emit_all(work, ops);
    }
    Ok(r)
}

// The same in slices: what is lent is exactly the work of the tape's gates and qubits, and is zero afterwards.
fn compile_in<J: FnOnce(Header, Report) -> Result<(), Refusal>>(
    tape: &[u8],
    c: Contents,
    w: &mut [f64],
    u: &mut [u32],
    ops: &mut [f64],
    judge: J,
) -> Result<Report, Refusal>
    requires lent { Lent tape.now c.header c.gates w.old u.old }
    requires callable { (r : Report) → J.pre judge c.header r }
    requires room { (r : Report) → J.post judge c.header r (Ok tt) → op_places * r.operations ≤ length ops.old }
    ensures answer { (x : Asked) → JudgedAs (J.post judge) c.header (content_of (parse tape.now)) x
        → (told result ≡ answer_of x) × (ops.new ≡ ops_after x ops.old) × AfterNine x c.header (content_of (parse tape.now)) }
    ensures work { w.new ≡ filled (length w.old) f0 w.old }
    ensures marks { u.new ≡ filled (length u.old) 0 u.old }
{
    let h = c.header;
    let mut work = Work::over(&mut *w, &mut *u, c.gates, h.n);
    let report = answer(tape, h, &mut work, ops, judge);
    w.fill(0.0);
    u.fill(0);
    report
}

// The questions 1 to 9 and then those that the judge asks of the header and the report; if none has no for an answer, the operations. `work` and `marks`
// are lent to work in: from question 9 on the places that it names are zero afterwards, whatever the answer. A refusal leaves the operations alone.
pub fn compile_judged<J: FnOnce(Header, Report) -> Result<(), Refusal>>(
    tape: &[u8],
    work: &mut [f64],
    marks: &mut [u32],
    ops: &mut [f64],
    judge: J,
) -> Result<Report, Refusal>
    requires callable { (h : Header) (r : Report) → h.n ≤ max_qubits → J.pre judge h r }
    requires room { (h : Header) (r : Report) → J.post judge h r (Ok tt) → op_places * r.operations ≤ length ops.old }
    ensures { (next : Header → Content → Asked) → Judges (J.post judge) next
        → Leaves (asked_from next (parse tape.now) (length work.old) (length marks.old)) (told result) work.old work.new marks.old marks.new ops.old ops.new }
{
    let c = check_tape(tape)?;
    let parts = lend(c.gates, c.header.n, work.len(), marks.len())?;
    compile_in(
        tape,
        c,
        &mut work[..parts.floats],
        &mut marks[..parts.marks],
        ops,
        judge,
    )
}

// Question 10: there are places for the operations.
fn has_room(room: usize, r: Report) -> Result<(), Refusal>
    ensures { result ≡ ten_of room r.operations }
{
    if room < OP_PLACES * (r.operations as usize) {
        return Err(Refusal::SmallOperations);
    }
    Ok(())
}

// The report and the operations of a tape. `work` and `marks` are lent to work in: from question 9 on the places that it names are zero afterwards,
// whatever the answer. A refusal leaves the operations alone; blocks that are bad are reported, not refused.
pub fn compile(
    tape: &[u8],
    work: &mut [f64],
    marks: &mut [u32],
    ops: &mut [f64],
) -> Result<Report, Refusal>
    ensures answer { told result ≡ compiled tape.now work.old marks.old ops.old }
    ensures work { work.new ≡ compiled_work tape.now work.old marks.old ops.old }
    ensures marks { marks.new ≡ compiled_marks tape.now work.old marks.old ops.old }
    ensures ops { ops.new ≡ compiled_ops tape.now work.old marks.old ops.old }
{
    let room = ops.len();
    compile_judged(tape, work, marks, ops, |_, r| has_room(room, r))
}
