// The marks alone as one value: those of so many items and of so many wires, in a slice that the caller lends. Counting, sorting and covering know no more of
// the lent work, so that who has marks and no floats can order wires too.
ghost use Rattle.std.specs.Prelude.{◌≡◌, ◌<◌, eqb};
ghost use Rattle.work.specs.Sizes.{record_marks};
ghost use Rattle.work.specs.Marks.{mark_at, put_mark};
ghost use Rattle.work.specs.Columns.{kind_column};
ghost use Rattle.work.specs.Kinds.{kind_number};
ghost use Rattle.order.specs.Slice.{Room};

use work::{KIND, Kind, RECORD_MARKS};

// `records` is the larger of the two counts: record i is there if i is smaller, be it an item's, an edge's or a wire's.
#[derive(Drop)]
pub struct Marks<'a> {
    pub entries: &'a mut [u32],
    pub items: usize,
    pub wires: usize,
    pub records: usize,
    pub ghost room: { Room entries.now items wires records },
}

impl<'a> Marks<'a> {
    ghost use Rattle.order.specs.Marks.{Has, Becomes};

    #[tactic(auto, unfolding(work::specs::Marks::mark_at))]
    pub fn mark(&self, i: usize, c: usize) -> u32
        requires there { Has self.now i }
        requires column { c < record_marks }
        ensures { result ≡ mark_at self.now.entries.now i c }
    {
        self.entries[RECORD_MARKS * i + c]
    }

    #[tactic(auto, unfolding(work::specs::Marks::put_mark))]
    pub fn put_mark(&mut self, i: usize, c: usize, v: u32)
        requires there { Has self.old i }
        requires column { c < record_marks }
        ensures { Becomes self.old self.new (put_mark self.old.entries.now i c v) }
    {
        self.entries[RECORD_MARKS * i + c] = v;
    }

    // Record i has this kind.
    pub fn is(&self, i: usize, kind: Kind) -> bool
        requires { Has self.now i }
        ensures { result ≡ eqb (mark_at self.now.entries.now i kind_column) (kind_number kind) }
    {
        self.mark(i, KIND) == u32::from(kind)
    }
}
