// The signs d, which stand after the matrix: settled on a map's own rows, turned for all later modes. Four wide has
// functions of its own, in place of a const for the width: they read the four signs before the matrix, as is said there.

ghost use Rattle.std.specs.Prelude.{◌≡◌, map, ◌+◌, ◌*◌, ◌-◌, ◌≤◌, ◌<◌};
ghost use Rattle.std.specs.Float.Ieee.{neg};
ghost use Rattle.laws.specs.Slices.{on_part};
ghost use Rattle.laws.specs.Matrix.{matrix};
ghost use Rattle.local.specs.Parts.{any_below, Below4, band, settled_state};
ghost use Rattle.local.specs.Parts.{row_negated, settled_row, rows_settled, settled_entry, part_settled, columns_settled};
ghost use Rattle.local.specs.Signed.{state_of, Becomes, Holds};

use super::signed::Signed;

// Row i is negated.
fn negate_row(t: &mut Signed, i: usize)
    requires { i < t.old.dim }
    ensures { Becomes t.old t.new (matrix t.old.dim (row_negated i (state_of t.old).m) t.old.entries.now) }
{
    for c in 0..t.dim {
        t.negate(i, c);
    }
}

// The sign of i is folded into row i, and is 1.0.
fn settle_row(t: &mut Signed, i: usize)
    requires { i < t.old.dim }
    ensures { Becomes t.old t.new (settled_row t.old.dim i t.old.entries.now) }
{
    if t.sign(i) < 0.0 {
        negate_row(t, i);
        t.put_sign(i, 1.0);
    }
}

// The signs of the k indices from s on are folded into their rows. A first index and a number, not a range: the definition's `band` has them so.
fn settle_rows(t: &mut Signed, s: usize, k: usize)
    requires { s + k ≤ t.old.dim }
    ensures { Holds t.old t.new (rows_settled (band s k) (state_of t.old)) }
{
    for j in 0..k {
        settle_row(t, s + j);
    }
}

// The sign of column i is folded into row r.
fn settle_entry(t: &mut Signed, r: usize, i: usize)
    requires row { r < t.old.dim }
    requires column { i < t.old.dim }
    ensures { Becomes t.old t.new (settled_entry t.old.dim r i t.old.entries.now) }
{
    if t.sign(i) < 0.0 {
        t.negate(r, i);
    }
}

// In row r the signs of the k indices from s on are folded into their columns.
fn settle_part(t: &mut Signed, r: usize, s: usize, k: usize)
    requires columns { s + k ≤ t.old.dim }
    requires row { r < t.old.dim }
    ensures { Becomes t.old t.new
        (matrix t.old.dim (part_settled (band s k) r (state_of t.old)) t.old.entries.now) }
{
    for j in 0..k {
        settle_entry(t, r, s + j);
    }
}

// The signs of the k indices from s on are folded into their columns, row by row: all of a row's
// part at once, since a column's entries lie far apart.
fn settle_columns(t: &mut Signed, s: usize, k: usize)
    requires { s + k ≤ t.old.dim }
    ensures { Becomes t.old t.new
        (matrix t.old.dim (columns_settled (band s k) (state_of t.old)) t.old.entries.now) }
{
    for r in 0..t.dim {
        settle_part(t, r, s, k);
    }
}

// One of the signs is below zero.
fn any_below(signs: &[f64]) -> bool
    ensures { result ≡ any_below signs.now }
{
    signs.iter().any(|x| *x < 0.0)
}

// The signs of the k indices from s on are folded into m. Where none is below zero, m is not read.
pub fn settle(t: &mut Signed, s: usize, k: usize)
    requires { s + k ≤ t.old.dim }
    ensures { Holds t.old t.new (settled_state (band s k) (state_of t.old)) }
{
    if any_below(t.signs(s, k)) {
        settle_columns(t, s, k);
        settle_rows(t, s, k);
    }
}

// Which of four signs are below zero.
#[derive(Clone, Copy)]
struct Below {
    pub x0: bool,
    pub x1: bool,
    pub x2: bool,
    pub x3: bool,
}

// The same four wide, with the signs read before: for all that the compiler knows a store to m may be
// one to d, so that it would read them again in every row.
fn settle_part4(t: &mut Signed, r: usize, s: usize, below: Below)
    requires columns { s + 4 ≤ t.old.dim }
    requires row { r < t.old.dim }
    requires below4 { Below4 t.old.entries.now t.old.dim s below }
    ensures { Becomes t.old t.new
        (matrix t.old.dim (part_settled (band s 4) r (state_of t.old)) t.old.entries.now) }
{
    if below.x0 {
        t.negate(r, s);
    }
    if below.x1 {
        t.negate(r, s + 1);
    }
    if below.x2 {
        t.negate(r, s + 2);
    }
    if below.x3 {
        t.negate(r, s + 3);
    }
}

// In every row.
fn settle_columns4(t: &mut Signed, s: usize, below: Below)
    requires columns { s + 4 ≤ t.old.dim }
    requires below4 { Below4 t.old.entries.now t.old.dim s below }
    ensures { Becomes t.old t.new
        (matrix t.old.dim (columns_settled (band s 4) (state_of t.old)) t.old.entries.now) }
{
    for r in 0..t.dim {
        settle_part4(t, r, s, below);
    }
}

// What `settle` does, four wide.
pub fn settle4(t: &mut Signed, s: usize)
    requires { s + 4 ≤ t.old.dim }
    ensures { Holds t.old t.new (settled_state (band s 4) (state_of t.old)) }
{
    let below = Below {
        x0: t.sign(s) < 0.0,
        x1: t.sign(s + 1) < 0.0,
        x2: t.sign(s + 2) < 0.0,
        x3: t.sign(s + 3) < 0.0,
    };
    if below.x0 || below.x1 || below.x2 || below.x3 {
        settle_columns4(t, s, below);
        settle_rows(t, s, 4);
    }
}

// Each float of a slice is negated: signs here, part of a row in crate `plain`.
pub fn negate_all(v: &mut [f64])
    ensures { v.new ≡ map neg v.old }
{
    for x in v.iter_mut() {
        *x = -*x;
    }
}

// The signs from s on are turned.
pub fn turn_from(t: &mut Signed, s: usize)
    requires { s ≤ t.old.dim }
    ensures { Becomes t.old t.new
        (on_part (t.old.dim * t.old.dim + s) (t.old.dim - s) (map neg) t.old.entries.now) }
{
    let a = t.dim * t.dim + s;
    let n = t.dim - s;
    negate_all(&mut t.entries[a..a + n]);
}
