// What an event leaves behind: the remainders and splits of its slots, the wires in them, an item.
ghost use Rattle.std.specs.Prelude.{◌≡◌, ◌^◌, ◌<◌, ◌≤◌};
ghost use Rattle.work.specs.Marks.{mark_at};
ghost use Rattle.work.specs.Columns.{kind_column, one_kind};
ghost use Rattle.work.specs.Kinds.{kind_number};
ghost use Rattle.work.specs.Lent.{Has, with_marks, with_floats};
ghost use Rattle.fuse.specs.Lent.{SlotsFrom};
ghost use Rattle.resolve.specs.Items.{kind_of};
ghost use Rattle.resolve.specs.Resolve.{opened};
ghost use Rattle.resolve.specs.Searched.{choice_of};
ghost use Rattle.resolve.specs.Slots.{kind_mark, emptied_marks, item_marks, item_floats, counted};
ghost use Rattle.resolve.specs.Lent.{rest_of, PassesOne, ClosesThree, SettlesTwo};

use crate::choose::Choice;
use classify::{Class2, Kind2};
use gate::Mat2;
use work::{A, B, C, CONTENT, Kind, RESIDUAL, Work};

// SWAPs made renamings, candidates classified, and whether one of them was angled.
#[derive(Clone, Copy)]
pub struct Tally {
    pub swaps: usize,
    pub tried: usize,
    pub angled: bool,
}

impl Tally {
    // With a block more, for which so many candidates were tried.
    pub fn counted(self, swap: bool, tried: usize, angled: bool) -> Tally
        requires { (tried ≤ 65536) × (self.tried < 2 ^ 32) × (self.swaps < 2 ^ 32) }
        ensures { result ≡ counted swap tried angled self }
    {
        Tally {
            swaps: self.swaps + usize::from(swap),
            tried: self.tried + tried,
            angled: self.angled | angled,
        }
    }
}

// What a block takes from slot s, whose remainder stands in the slot's record: this, or the identity if there is none.
#[tactic(auto, unfolding(crate::specs::Slots::rest_at))]
pub fn opening(work: &Work, s: usize) -> Mat2
    requires { s < work.now.slots }
    ensures { result ≡ opened (rest_of work.now s) }
{
    let rest = work.gates() + s;
    if work.is(rest, Kind::OneItem) {
        work.matrix(rest)
    } else {
        Mat2::IDENTITY
    }
}

// A block on slot s takes its remainder and the next k gates on it.
fn empty(work: &mut Work, s: usize, k: u32)
    requires { s < work.old.slots }
    ensures { work.new ≡ with_marks work.old (emptied_marks work.old.marks work.old.gates s k) }
{
    let rest = work.gates() + s;
    work.put_kind(rest, Kind::Gone);
    work.put_mark(rest, C, k);
}

// The kind of the item that a block of this kind becomes. No `From`: both types are of other crates, where an impl would have to stand.
fn item_kind(kind: Kind2) -> Kind
    ensures { kind_number result ≡ kind_mark (kind_of kind) }
{
    match kind {
        Kind2::Diag => Kind::DiagonalItem,
        Kind2::Interaction => Kind::InteractionItem,
        Kind2::Match(_) => Kind::MatchItem,
        Kind2::NonGaussian(_) => Kind::NeitherItem,
    }
}

// The marks of an item: kind and wires.
#[tactic(auto, unfolding(crate::specs::Slots::item_marks))]
fn put_item(work: &mut Work, i: usize, kind: Kind, a: u32, b: u32)
    requires { Has work.old i }
    ensures { work.new ≡ with_marks work.old (item_marks work.old.marks i (kind_number kind) a b) }
{
    work.put_kind(i, kind);
    work.put_mark(i, A, a);
    work.put_mark(i, B, b);
}

// The floats of a two-qubit item: the matrix to apply, and the residual after it.
#[tactic(auto, unfolding(crate::specs::Slots::item_floats))]
fn put_block(work: &mut Work, i: usize, class: Class2)
    requires { Has work.old i }
    ensures { work.new ≡ with_floats work.old (item_floats work.old.floats i class) }
{
    work.put_matrix(i, class.v);
    work.put_float(i, RESIDUAL, class.kind.residual());
}

// The one-qubit gate i: the next of its slot's remainder, unless the block before has taken it.
pub fn pass(work: &mut Work, i: usize)
    requires { (i < work.old.gates) × SlotsFrom work.old i × (mark_at work.old.marks i kind_column ≡ one_kind) }
    ensures { PassesOne work.old work.new i }
{
    let s = work.mark(i, A) as usize;
    let rest = work.gates() + s;
    let promised = work.mark(rest, C);
    if promised == 0 {
        let x = opening(work, s);
        work.put_matrix(rest, work.matrix::<Mat2>(i) * x);
        work.put_kind(rest, Kind::OneItem);
    } else {
        work.put_mark(rest, C, promised - 1);
    }
}

// The opaque block i: what was on its slots goes with it.
pub fn close(work: &mut Work, i: usize)
    requires { (i < work.old.gates) × SlotsFrom work.old i }
    ensures { ClosesThree work.old work.new i }
{
    let a = work.mark(i, A) as usize;
    let b = work.mark(i, B) as usize;
    let c = work.mark(i, C) as usize;
    empty(work, a, 0);
    empty(work, b, 0);
    empty(work, c, 0);
    put_item(work, i, Kind::OpaqueItem, 0, 0);
}

// The block i as it was chosen; where it is SWAP times what is applied, the wires in its slots are renamed.
pub fn settle(work: &mut Work, i: usize, best: Choice)
    requires { (i < work.old.gates) × SlotsFrom work.old i }
    ensures { SettlesTwo (choice_of best) work.old work.new i }
{
    let a = work.mark(i, A) as usize;
    let b = work.mark(i, B) as usize;
    let wa = work.mark(a, CONTENT);
    let wb = work.mark(b, CONTENT);
    let class = best.class;
    empty(work, a, best.ka);
    empty(work, b, best.kb);
    put_item(work, i, item_kind(class.kind), wa, wb);
    put_block(work, i, class);
    if class.swap {
        work.exchange(a, b, CONTENT);
    }
}
