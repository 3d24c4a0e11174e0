// A tape fused in lent work, and what that counts and leaves there beside the words of its record.
ghost use Rattle.std.specs.Prelude.{◌≡◌, ◌<◌, length};
ghost use Rattle.work.specs.Sizes.{record_marks};
ghost use Rattle.work.specs.Lent.{SameSizes};
ghost use Rattle.fuse.specs.Slotted.{Gates};

use crate::items;
use crate::tallies::Tallies;
use resolve::Rules;
use stored::records::Taped;
use stored::words::{Plain, Words};
use tape::Header;
use work::{CONTENT, LAB, RECORD_FLOATS, RECORD_MARKS, Work};

// Gates and qubits of a stored tape together at most.
const ROOM: usize = 128;

const FLOATS: usize = RECORD_FLOATS * ROOM;

const MARKS: usize = RECORD_MARKS * ROOM;

const COUNTS: usize = 3; // words before the slots

// A record: the tape, the counts, the slots, the items. Nothing where it cannot be read.
pub fn compare(taped: Taped, mut words: Plain, tallies: &mut Tallies) -> Option<()> {
    let tape = words.tape()?;
    let Ok(contents) = tape::check_tape(tape) else {
        return None;
    };
    fused(taped, tape, contents.header, contents.gates, words, tallies)
}

fn fused(
    taped: Taped,
    tape: &[u8],
    header: Header,
    gates: usize,
    mut words: Plain,
    tallies: &mut Tallies,
) -> Option<()>
    requires { Gates tape.now gates header.n }
{
    let n = header.n;
    if n > ROOM || gates > ROOM - n || words.bytes.len() < 8 * (COUNTS + 2 * n) {
        return None;
    }
    let mut w = [0.0; FLOATS];
    let mut u = [0u32; MARKS];
    let mut work = Work::over(&mut w, &mut u, gates, n);
    let told = fuse_tape(tape, &mut work, header);
    tallies.counts.note(counts_agree(told, &mut words));
    let slots = column_agrees(&work, LAB, &mut words);
    let wires = column_agrees(&work, CONTENT, &mut words);
    tallies.slots.note(slots && wires);
    items::compare(taped, &work, &mut words, tallies);
    Some(())
}

// The gates of an accepted tape, fused in the lent work.
fn fuse_tape(tape: &[u8], work: &mut Work, header: Header) -> resolve::Tally
    requires { Gates tape.now work.old.gates work.old.slots }
    ensures { SameSizes work.old work.new × (length work.new.floats ≡ length work.old.floats)
        × (length work.new.marks ≡ length work.old.marks) }
{
    let rules = Rules {
        relabel: header.relabels(),
        tol: header.tolerance,
    };
    let swaps = fuse::relabel_all(tape, work, rules.relabel);
    resolve::fuse_events(work, rules, swaps)
}

fn counts_agree(told: resolve::Tally, words: &mut Plain) -> bool {
    let counts = [told.swaps, told.tried, usize::from(told.angled)];
    stored::values::compare(&counts, words).is_ok()
}

// Whether a column is what the words are: the slot of each qubit, or the wire in each slot.
fn column_agrees(work: &Work, column: usize, words: &mut Plain) -> bool
    requires { column < record_marks }
{
    let mut same = true;
    for q in 0..work.slots() {
        same &= words.word() == Some(u64::from(work.mark(q, column)));
    }
    same
}
