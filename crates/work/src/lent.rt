// The lent work as one value. Its floats and marks are slices that the caller lends, so that a record is read and written by its number, and by the column
// or the place in it. That a record is
// there (`Has`) is asked at each call, here and in the crates above: it is of the number, not of the work.
ghost use Rattle.std.specs.Prelude.{◌≡◌, List, ℕ, ◌+◌, ◌<◌, ◌≤◌, eqb, get_or, set, length, take, drop};
ghost use Rattle.std.specs.Borrow.{MutBor};
ghost use Rattle.std.specs.Fn.{FnOnceReturnsAtMut};
ghost use Rattle.std.proofs.Math.Seq.{paste};
ghost use Rattle.gate.specs.Complex.{f0};
ghost use Rattle.work.specs.Sizes.{record_marks, record_floats};
ghost use Rattle.work.specs.Rows.{record_at, float_place};
ghost use Rattle.work.specs.Marks.{mark_at, exchanged_marks};
ghost use Rattle.work.specs.Columns.{kind_column};
ghost use Rattle.work.specs.Kinds.{kind_number, kind_of, item_kind_of};
ghost use Rattle.work.specs.Lent.{Lent, Space, Whole, Has, marked, with_marks, with_floats};

use crate::columns::KIND;
use crate::kinds::Kind;
use crate::sizes::{RECORD_FLOATS, RECORD_MARKS};
use gate::Matrix;
use std::marker::Model;

#[derive(Drop)]
pub struct Work<'a> {
    floats: &'a mut [f64],
    marks: &'a mut [u32],
    gates: usize,
    slots: usize,
}

impl<'a> Model for Work<'a> {
    ghost Value = { Lent };

    ghost view = { λ w. record { floats = w.floats.now; marks = w.marks.now; gates = w.gates; slots = w.slots } };

    ghost invariant = { λ w. Space w.floats.now w.marks.now w.gates w.slots };
}

impl<'a> Work<'a> {
    // The records of so many gates and slots, in slices that have room for them.
    pub fn over(floats: &'a mut [f64], marks: &'a mut [u32], gates: usize, slots: usize) -> Work<'a>
        requires { Space floats.now marks.now gates slots }
        ensures { result ≡ record { floats = floats.entry.now; marks = marks.entry.now; gates = gates; slots = slots } }
    {
        Work {
            floats,
            marks,
            gates,
            slots,
        }
    }

    // Both slices again, with what the work left there: who lent them reads it when the work is no more.
    pub fn into_slices(self) -> (&'a mut [f64], &'a mut [u32])
        ensures floats { result.0.now ≡ self.entry.floats }
        ensures marks { result.1.now ≡ self.entry.marks }
        ensures whole { Whole self.entry }
    {
        (self.floats, self.marks)
    }

    pub fn gates(&self) -> usize
        ensures count { result ≡ self.now.gates }
        ensures whole { Whole self.now }
    {
        self.gates
    }

    pub fn slots(&self) -> usize
        ensures count { result ≡ self.now.slots }
        ensures whole { Whole self.now }
    {
        self.slots
    }

    // ---- marks

    #[tactic(auto, unfolding(crate::specs::Marks::mark_at))]
    pub fn mark(&self, i: usize, c: usize) -> u32
        requires there { Has self.now i }
        requires column { c < record_marks }
        ensures value { result ≡ mark_at self.now.marks i c }
        ensures whole { Whole self.now }
    {
        let marks = &self.marks;
        marks[RECORD_MARKS * i + c]
    }

    #[tactic(auto, unfolding(crate::specs::Marks::put_mark))]
    pub fn put_mark(&mut self, i: usize, c: usize, v: u32)
        requires there { Has self.old i }
        requires column { c < record_marks }
        ensures put { self.new ≡ marked self.old i c v }
        ensures whole { Whole self.old }
    {
        let marks = &mut self.marks;
        marks[RECORD_MARKS * i + c] = v;
    }

    // The kind of record i, if the number there is a kind's.
    pub fn kind(&self, i: usize) -> Option<Kind>
        requires { Has self.now i }
        ensures value { result ≡ kind_of (mark_at self.now.marks i kind_column) }
        ensures whole { Whole self.now }
    {
        Kind::of(self.mark(i, KIND))
    }

    // The kind of the item in record i, if it holds one.
    #[tactic(auto, using(crate::proofs::KindLaws::kind_back), unfolding(crate::specs::Kinds::item_kind_of))]
    pub fn item_kind(&self, i: usize) -> Option<Kind>
        requires { Has self.now i }
        ensures value { result ≡ item_kind_of (mark_at self.now.marks i kind_column) }
        ensures whole { Whole self.now }
    {
        match self.kind(i) {
            Some(kind) if kind.is_item() => Some(kind),
            _ => None,
        }
    }

    // Record i has this kind.
    pub fn is(&self, i: usize, kind: Kind) -> bool
        requires { Has self.now i }
        ensures value { result ≡ eqb (mark_at self.now.marks i kind_column) (kind_number kind) }
        ensures whole { Whole self.now }
    {
        self.mark(i, KIND) == u32::from(kind)
    }

    pub fn put_kind(&mut self, i: usize, kind: Kind)
        requires { Has self.old i }
        ensures put { self.new ≡ marked self.old i kind_column (kind_number kind) }
        ensures whole { Whole self.old }
    {
        self.put_mark(i, KIND, u32::from(kind));
    }

    // The marks of the records a and b in column c change places.
    #[tactic(auto, unfolding(crate::specs::Marks::exchanged_marks))]
    pub fn exchange(&mut self, a: usize, b: usize, c: usize)
        requires first { Has self.old a }
        requires second { Has self.old b }
        requires column { c < record_marks }
        ensures exchanged { self.new ≡ with_marks self.old (exchanged_marks self.old.marks a b c) }
        ensures whole { Whole self.old }
    {
        let x = self.mark(a, c);
        let y = self.mark(b, c);
        self.put_mark(a, c, y);
        self.put_mark(b, c, x);
    }

    // The marks, lent to a call, which may leave others there; all else stays. By a closure and no `&mut` that is handed out: of what a borrower leaves behind
    // one no proof knows the length, so that the records might be gone.
    pub fn lend_marks<A, F: FnOnce(&mut [u32]) -> A>(&mut self, call: F) -> A
        requires { Whole self.old → (lent : MutBor (List ℕ)) → lent.now ≡ self.old.marks → F.pre call lent }
        ensures called { FnOnceReturnsAtMut F.FnOnce call self.old.marks result self.new.marks }
        ensures rest { self.new ≡ with_marks self.old self.new.marks }
        ensures whole { Whole self.old }
    {
        call(self.marks)
    }

    // ---- floats: methods of their own, since the two slices are of two types, with other record lengths

    // The float at place r of record i.
    pub fn float(&self, i: usize, r: usize) -> f64
        requires there { Has self.now i }
        requires place { r < record_floats }
        ensures value { result ≡ get_or self.now.floats (float_place i r) f0 }
        ensures whole { Whole self.now }
    {
        let floats = &self.floats;
        floats[RECORD_FLOATS * i + r]
    }

    pub fn put_float(&mut self, i: usize, r: usize, x: f64)
        requires there { Has self.old i }
        requires place { r < record_floats }
        ensures put { self.new ≡ with_floats self.old (set self.old.floats (float_place i r) x) }
        ensures whole { Whole self.old }
    {
        let floats = &mut self.floats;
        floats[RECORD_FLOATS * i + r] = x;
    }

    // The matrix of record i.
    pub fn matrix<M: Matrix>(&self, i: usize) -> M
        requires { Has self.now i }
        ensures value { result ≡ M.loaded self.now.floats (record_at i) }
        ensures whole { Whole self.now }
    {
        M::load(self.floats, RECORD_FLOATS * i)
    }

    pub fn put_matrix<M: Matrix>(&mut self, i: usize, m: M)
        requires { Has self.old i }
        ensures put { self.new ≡ with_floats self.old (M.stored self.old.floats (record_at i) m) }
        ensures whole { Whole self.old }
    {
        m.store(self.floats, RECORD_FLOATS * i);
    }

    // The matrix in record i from place r on.
    pub fn matrix_at<M: Matrix>(&self, i: usize, r: usize) -> M
        requires there { Has self.now i }
        requires place { r + M.FLOATS ≤ record_floats }
        ensures value { result ≡ M.loaded self.now.floats (float_place i r) }
        ensures whole { Whole self.now }
    {
        M::load(self.floats, RECORD_FLOATS * i + r)
    }

    pub fn put_matrix_at<M: Matrix>(&mut self, i: usize, r: usize, m: M)
        requires there { Has self.old i }
        requires place { r + M.FLOATS ≤ record_floats }
        ensures put { self.new ≡ with_floats self.old (M.stored self.old.floats (float_place i r) m) }
        ensures whole { Whole self.old }
    {
        m.store(self.floats, RECORD_FLOATS * i + r);
    }

    // The `len` floats of record i from place r on.
    pub fn places(&self, i: usize, r: usize, len: usize) -> &[f64]
        requires there { Has self.now i }
        requires place { r + len ≤ record_floats }
        ensures value { result.now ≡ take len (drop (float_place i r) self.now.floats) }
        ensures whole { Whole self.now }
    {
        let floats = &self.floats;
        let at = RECORD_FLOATS * i + r;
        &floats[at..at + len]
    }

    pub fn put_places(&mut self, i: usize, r: usize, xs: &[f64])
        requires there { Has self.old i }
        requires place { r + length xs.now ≤ record_floats }
        ensures put { self.new ≡ with_floats self.old (paste self.old.floats (float_place i r) xs.now (length xs.now)) }
        ensures whole { Whole self.old }
    {
        let floats = &mut self.floats;
        let at = RECORD_FLOATS * i + r;
        floats[at..at + xs.len()].copy_from_slice(xs);
    }
}
