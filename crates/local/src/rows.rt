// The rows step of 001's `apply_local` under a map of two modes, column by column. That of one mode has functions of its own (both.rt), in place
// of a const for the width: maps and rows are structs of floats by value.

ghost use Rattle.std.specs.Prelude.{◌≡◌, ◌+◌, ◌≤◌, ◌<◌};
ghost use Rattle.laws.specs.Matrix.{put_column, matrix};
ghost use Rattle.laws.specs.Maps.{rows};
ghost use Rattle.real.specs.Maps.{row4, local4};
ghost use Rattle.real.specs.Squares.{cells, Becomes};
ghost use Rattle.local.specs.Parts.{under4, column4_of};

use super::columns::dot4;
use real::{Map4, Real4, Square};

// The vector v under the map.
fn mapped4(q: Map4, v: Real4) -> Real4
    ensures { result ≡ under4 q v }
{
    let x0 = dot4(q.r0, v);
    let x1 = dot4(q.r1, v);
    let x2 = dot4(q.r2, v);
    let x3 = dot4(q.r3, v);
    Real4 { x0, x1, x2, x3 }
}

// The entries of column c from row s on, read and stored.
fn column4(m: &Square, s: usize, c: usize) -> Real4
    requires rows { s + 4 ≤ m.now.dim }
    requires column { c < m.now.dim }
    ensures { result ≡ column4_of m.now.dim m.now.entries.now s c }
{
    let x0 = m.entry(s, c);
    let x1 = m.entry(s + 1, c);
    let x2 = m.entry(s + 2, c);
    let x3 = m.entry(s + 3, c);
    Real4 { x0, x1, x2, x3 }
}

fn put_column4(m: &mut Square, s: usize, c: usize, v: Real4)
    requires rows { s + 4 ≤ m.old.dim }
    requires column { c < m.old.dim }
    ensures { Becomes m.old m.new (put_column 4 m.old.dim s c (row4 v) m.old.entries.now) }
{
    m.put(s, c, v.x0);
    m.put(s + 1, c, v.x1);
    m.put(s + 2, c, v.x2);
    m.put(s + 3, c, v.x3);
}

// In each column the map's rows, from s on, are put under the map.
pub fn rows4(m: &mut Square, s: usize, q: Map4)
    requires { s + 4 ≤ m.old.dim }
    ensures { Becomes m.old m.new (matrix m.old.dim (rows (local4 s q) (cells m.old)) m.old.entries.now) }
{
    for c in 0..m.dim {
        let v = column4(m, s, c);
        put_column4(m, s, c, mapped4(q, v));
    }
}
