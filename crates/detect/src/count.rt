// The report's counts: each item's share, and their sum in item order.
ghost use Rattle.std.specs.Prelude.{◌≡◌, ◌≤◌, ◌<◌};
ghost use Rattle.work.specs.Sizes.{record_marks};
ghost use Rattle.work.specs.Columns.{kind_column};
ghost use Rattle.work.specs.Kinds.{kind_number};
ghost use Rattle.work.specs.Marks.{mark_at};
ghost use Rattle.work.specs.Lent.{Has, with_floats};
ghost use Rattle.order.specs.Arrangement.{beside_of};
ghost use Rattle.resolve.specs.Slots.{kind_at};
ghost use Rattle.detect.specs.Emit.{oriented_of, lower_of};
ghost use Rattle.detect.specs.Counts.{gaussian, bad, one_share, match_share, turns_in, two_share, plus_of, share_of, counts_of};
ghost use Rattle.detect.specs.Records.{record_item, modes_in, Small};
ghost use Rattle.detect.specs.Kept.{kept_place, match_kept, two_kept, record_kept};
ghost use Rattle.detect.specs.Lent.{all_items, Held, ItemThere, CountsAll};

use crate::places::two_places;
use classify::{phase_a, phase_b, rotation_of};
use gate::{Mat4, mat4_swap_qubits};
use majorana::{Mapped, commutes_j2, majorana_map1, majorana_map2, number_conserving4};
use real::Map2;
use std::ops::Add;
use work::{A, B, KEPT, Kind, POS, RESIDUAL, Work};

// Blocks, those on two wires, what they are, the operations that they become, the largest residual, and whether all commute with the particle number.
#[derive(Clone, Copy)]
pub struct Counts {
    pub blocks: u32,
    pub two: u32,
    pub gaussian: u32,
    pub bad: u32,
    pub nonadjacent: u32,
    pub interactions: u32,
    pub operations: u32,
    pub residual: f64,
    pub conserving: bool,
}

const NONE: Counts = Counts {
    blocks: 0,
    two: 0,
    gaussian: 0,
    bad: 0,
    nonadjacent: 0,
    interactions: 0,
    operations: 0,
    residual: 0.0,
    conserving: true,
};

// ---- shares

fn gaussian_share(two: u32, operations: u32, residual: f64, conserving: bool) -> Counts
    ensures { result ≡ gaussian two operations residual conserving }
{
    Counts {
        blocks: 1,
        two,
        gaussian: 1,
        operations,
        residual,
        conserving,
        ..NONE
    }
}

fn bad_share(two: u32, operations: u32, residual: f64) -> Counts
    ensures { result ≡ bad two operations residual }
{
    Counts {
        blocks: 1,
        two,
        bad: 1,
        operations,
        residual,
        ..NONE
    }
}

#[tactic(auto, using(std::proofs::lemmas::Bool::Decides::nat_tests), unfolding(crate::specs::Counts::one_share))]
fn one_share(tol: f64, m: Mapped<Map2>) -> Counts
    ensures { result ≡ one_share tol m }
{
    if m.residual <= tol {
        return gaussian_share(0, 1, m.residual, commutes_j2(m.q));
    }
    bad_share(0, 1, m.residual)
}

// Whether two modes are neighbours.
fn beside(i: u32, j: u32) -> bool
    ensures { result ≡ beside_of i j }
{
    i.abs_diff(j) == 1
}

// v with the lower mode as its first qubit.
#[tactic(auto, using(std::proofs::lemmas::Bool::Decides::nat_tests), unfolding(crate::specs::Emit::oriented_of))]
fn oriented(i: u32, j: u32, v: Mat4) -> Mat4
    ensures { result ≡ oriented_of i j v }
{
    if i < j { v } else { mat4_swap_qubits(v) }
}

// The lower of two modes.
fn lower(i: u32, j: u32) -> u32
    ensures { result ≡ lower_of i j }
{
    i.min(j)
}

// A matchgate on the modes a and b. If they are neighbours its operation is kept in record i, from KEPT on: emission needs the same map.
// Two modes are passed as two numbers, here and in emit.rt: nothing is true of the pair.
#[tactic(auto, using(std::proofs::lemmas::Bool::Decides::nat_tests), unfolding(crate::specs::Counts::match_share, crate::specs::Counts::adjacent_share))]
fn match_share(work: &mut Work, i: usize, a: u32, b: u32, residual: f64, v: Mat4) -> Counts
    requires { Has work.old i }
    ensures share { result ≡ match_share a b residual v }
    ensures kept { work.new ≡ with_floats work.old (match_kept (kept_place i) a b v work.old.floats) }
{
    if beside(a, b) {
        let m = majorana_map2(oriented(a, b, v));
        let conserving = number_conserving4(m.q);
        work.put_places(i, KEPT, &two_places(lower(a, b), m.q));
        return gaussian_share(1, 1, num::max(m.residual, residual), conserving);
    }
    Counts {
        nonadjacent: 1,
        ..bad_share(1, 1, 1.0)
    }
}

// How many wires a diagonal block turns.
fn turns_in(v: Mat4) -> u32
    ensures { (result ≡ turns_in v) × (result ≤ 2) }
{
    let a = rotation_of(phase_a(v)).is_some();
    let b = rotation_of(phase_b(v)).is_some();
    u32::from(a) + u32::from(b)
}

// A block on the modes a and b; of a matchgate the operation is kept in record i.
#[tactic(auto, using(crate::proofs::Items::neither), unfolding(crate::specs::Counts::two_share, crate::specs::Kept::two_kept, resolve::specs::Slots::kind_at))]
fn two_share(
    work: &mut Work,
    i: usize,
    kind: Kind,
    a: u32,
    b: u32,
    residual: f64,
    v: Mat4,
) -> Counts
    requires { Has work.old i }
    ensures share { result ≡ two_share (kind_at (kind_number kind)) a b residual v }
    ensures kept { work.new ≡ with_floats work.old (two_kept (kind_number kind) (kept_place i) a b v work.old.floats) }
{
    match kind {
        Kind::MatchItem => match_share(work, i, a, b, residual, v),
        Kind::DiagonalItem => gaussian_share(1, turns_in(v), 0.0, true),
        Kind::InteractionItem => Counts {
            blocks: 1,
            two: 1,
            interactions: 1,
            operations: turns_in(v) + 1,
            ..NONE
        },
        _ => bad_share(1, 0, residual),
    }
}

// ---- the sum

impl Add for Counts {
    type Output = Counts;

    ghost can_add = { λ c s. Small c × Small s };

    ghost add_gives = { λ c s r. r ≡ plus_of c s };

    #[tactic(auto, unfolding(crate::specs::Counts::plus_of))]
    fn add(self, s: Counts) -> Counts {
        Counts {
            blocks: self.blocks + s.blocks,
            two: self.two + s.two,
            gaussian: self.gaussian + s.gaussian,
            bad: self.bad + s.bad,
            nonadjacent: self.nonadjacent + s.nonadjacent,
            interactions: self.interactions + s.interactions,
            operations: self.operations + s.operations,
            residual: num::max(self.residual, s.residual),
            conserving: self.conserving && s.conserving,
        }
    }
}

// The mode of the wire that stands in column c of record i.
pub fn wire_mode(work: &Work, i: usize, c: usize) -> u32
    requires there { Has work.now i × (c < record_marks) }
    requires below { mark_at work.now.marks i c < work.now.slots }
    ensures { result ≡ modes_in work.now.marks (mark_at work.now.marks i c) }
{
    work.mark(work.mark(i, c) as usize, POS)
}

// The share of the item in record i, which is of this kind.
#[tactic(auto, unfolding(crate::specs::Kept::two_kept))]
fn share_at(work: &mut Work, i: usize, kind: Kind, tol: f64) -> Counts
    requires there { ItemThere work.old i }
    requires kind { mark_at work.old.marks i kind_column ≡ kind_number kind }
    ensures share { result ≡ share_of tol (modes_in work.old.marks) (record_item work.old.floats work.old.marks i) }
    ensures kept { work.new ≡ with_floats work.old (record_kept work.old.floats work.old.marks i) }
{
    match kind {
        Kind::OneItem => one_share(tol, majorana_map1(work.matrix(i))),
        Kind::OpaqueItem => bad_share(0, 0, 1.0),
        _ => {
            let a = wire_mode(work, i, A);
            let b = wire_mode(work, i, B);
            let residual = work.float(i, RESIDUAL);
            let v = work.matrix(i);
            two_share(work, i, kind, a, b, residual, v)
        }
    }
}

// All items; the operations of matchgates are kept in their records.
pub fn count_all(work: &mut Work, tol: f64) -> Counts
    requires { Held work.old }
    ensures counts { result ≡ counts_of tol (modes_in work.old.marks) (all_items work.old) }
    ensures kept { CountsAll result work.old work.new }
{
    let mut c = NONE;
    for i in 0..work.gates() + work.slots() {
        if let Some(kind) = work.item_kind(i) {
            c = c + share_at(work, i, kind, tol);
        }
    }
    c
}
