// The operations of the items, in item order, 18 places each. Each function of one item writes from the front of the slice that it is given, and answers how
// many places it wrote: what comes after is given the rest of the slice.
ghost use Rattle.std.specs.Prelude.{◌≡◌, ◌≢◌, ◌≤◌, length};
ghost use Rattle.work.specs.Columns.{kind_column};
ghost use Rattle.work.specs.Kinds.{kind_number};
ghost use Rattle.work.specs.Marks.{mark_at};
ghost use Rattle.work.specs.declared.kinds.Kind.{Kind};
ghost use Rattle.resolve.specs.Slots.{kind_at};
ghost use Rattle.detect.specs.Operation.{all_places, written, Put};
ghost use Rattle.detect.specs.Emit.{rotated, rotations_of, two_operations, operations_at};
ghost use Rattle.detect.specs.Kept.{KeptAt};
ghost use Rattle.detect.specs.Lent.{all_operations, Held, ItemThere, AllKept};

use crate::count::wire_mode;
use crate::places::{OP_PLACES, interaction_places, one_places, put};
use classify::{interaction, phase_a, phase_b, rotation_of, unit};
use gate::Mat4;
use majorana::majorana_map1;
use real::Map2;
use work::{A, B, KEPT, Kind, Work};

// ---- one item

fn put_rotation(ops: &mut [f64], k: u32, x: Option<Map2>) -> usize
    requires { length (all_places (rotated k x)) ≤ length ops.old }
    ensures { Put (rotated k x) 0 ops.old ops.new result }
{
    match x {
        Some(q) => put(ops, &one_places(k, q)),
        None => 0,
    }
}

fn put_rotations(ops: &mut [f64], i: u32, j: u32, v: Mat4) -> usize
    requires { length (all_places (rotations_of i j v)) ≤ length ops.old }
    ensures { Put (rotations_of i j v) 0 ops.old ops.new result }
{
    let p = put_rotation(ops, i, rotation_of(phase_a(v)));
    p + put_rotation(&mut ops[p..], j, rotation_of(phase_b(v)))
}

// A block on the modes i and j that is no matchgate.
fn put_two(ops: &mut [f64], block: u32, kind: Kind, i: u32, j: u32, v: Mat4) -> usize
    requires no_match { kind ≢ Kind.MatchItem }
    requires room { length (all_places (two_operations block (kind_at (kind_number kind)) i j v)) ≤ length ops.old }
    ensures { Put (two_operations block (kind_at (kind_number kind)) i j v) 0 ops.old ops.new result }
{
    match kind {
        Kind::DiagonalItem => put_rotations(ops, i, j, v),
        Kind::InteractionItem => {
            let p = put_rotations(ops, i, j, v);
            let w = unit(interaction(v));
            p + put(&mut ops[p..], &interaction_places(i, block, j, w))
        }
        _ => 0,
    }
}

// The item of record i, which is of this kind and is block number `block`.
fn put_item(work: &Work, i: usize, kind: Kind, block: u32, ops: &mut [f64]) -> usize
    requires there { ItemThere work.now i × KeptAt work.now.floats work.now.marks i }
    requires kind { mark_at work.now.marks i kind_column ≡ kind_number kind }
    requires room { length (all_places (operations_at work.now.floats work.now.marks block i)) ≤ length ops.old }
    ensures { Put (operations_at work.now.floats work.now.marks block i) 0 ops.old ops.new result }
{
    match kind {
        Kind::OpaqueItem => 0,
        Kind::MatchItem => put(ops, work.places(i, KEPT, OP_PLACES)),
        Kind::OneItem => {
            let m = majorana_map1(work.matrix(i));
            put(ops, &one_places(wire_mode(work, i, A), m.q))
        }
        _ => {
            let a = wire_mode(work, i, A);
            let b = wire_mode(work, i, B);
            put_two(ops, block, kind, a, b, work.matrix(i))
        }
    }
}

// All items; the operations of the matchgates are in their records.
pub fn emit_all(work: &Work, ops: &mut [f64])
    requires there { Held work.now × AllKept work.now }
    requires room { length (all_places (all_operations work.now)) ≤ length ops.old }
    ensures { ops.new ≡ written (all_operations work.now) ops.old }
{
    let mut p = 0;
    let mut block: u32 = 0;
    for i in 0..work.gates() + work.slots() {
        if let Some(kind) = work.item_kind(i) {
            p += put_item(work, i, kind, block, &mut ops[p..]);
            block += 1;
        }
    }
}
