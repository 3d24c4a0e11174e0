// The slots before the first event and after the last.
ghost use Rattle.resolve.specs.Lent.{Begins, Finishes};

use work::{A, C, CONTENT, Kind, Work};

// Before the first event: nothing on a slot, and wire s in slot s.
pub fn begin(work: &mut Work)
    ensures { Begins work.old work.new }
{
    let gates = work.gates();
    for s in 0..work.slots() {
        work.put_kind(gates + s, Kind::Gone);
        work.put_mark(gates + s, C, 0);
        work.put_mark(s, CONTENT, s as u32);
    }
}

// After the last event: a remainder is an item on the wire that its slot holds.
pub fn finish(work: &mut Work)
    ensures { Finishes work.old work.new }
{
    let gates = work.gates();
    for s in 0..work.slots() {
        let rest = gates + s;
        if work.is(rest, Kind::OneItem) {
            let wire = work.mark(s, CONTENT);
            work.put_mark(rest, A, wire);
        } else {
            work.put_kind(rest, Kind::Gone);
        }
    }
}
