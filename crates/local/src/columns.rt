// The columns step of 001's `apply_local`: each row's middle part is lent on and put under the map there; and both steps of a map of two modes.
// Two and four wide are two functions each, in place of a const for the width: maps and rows are structs of floats by value.

ghost use Rattle.std.specs.Prelude.{◌≡◌, ◌+◌, ◌≤◌, ◌<◌, length};
ghost use Rattle.laws.specs.Matrix.{at, matrix, Holds};
ghost use Rattle.laws.specs.Maps.{dot, rotated, rows, cols, row_turn};
ghost use Rattle.real.specs.Maps.{row2, row4, entry2, entry4, local4};
ghost use Rattle.real.specs.Squares.{cells, Becomes};

use super::rows::rows4;
use real::{Map2, Map4, Real2, Real4, Square};

// A row of a map times a vector.
pub fn dot2(q: Real2, v: Real2) -> f64
    ensures { result ≡ dot (row2 q) (row2 v) 2 }
{
    0.0 + q.x0 * v.x0 + q.x1 * v.x1
}

pub fn dot4(q: Real4, v: Real4) -> f64
    ensures { result ≡ dot (row4 q) (row4 v) 4 }
{
    0.0 + q.x0 * v.x0 + q.x1 * v.x1 + q.x2 * v.x2 + q.x3 * v.x3
}

// The same with the first two products in the other order, which gives the same sum. Every other row of a map is multiplied so:
// then the compiler takes the first two entries of a part as they stand for one row and exchanged for the next, where it would
// have to double each of them.
fn turned2(q: Real2, v: Real2) -> f64
    ensures { result ≡ dot (row2 q) (row2 v) 2 }
{
    0.0 + q.x1 * v.x1 + q.x0 * v.x0
}

fn turned4(q: Real4, v: Real4) -> f64
    ensures { result ≡ dot (row4 q) (row4 v) 4 }
{
    0.0 + q.x1 * v.x1 + q.x0 * v.x0 + q.x2 * v.x2 + q.x3 * v.x3
}

// A row's part under the map.
pub fn rotate2(row: &mut [f64], q: Map2)
    requires { length row.old ≡ 2 }
    ensures { row.new ≡ rotated 2 (entry2 q) row.old }
{
    let v = Real2 {
        x0: row[0],
        x1: row[1],
    };
    row[0] = dot2(q.r0, v);
    row[1] = turned2(q.r1, v);
}

fn rotate4(row: &mut [f64], q: Map4)
    requires { length row.old ≡ 4 }
    ensures { row.new ≡ rotated 4 (entry4 q) row.old }
{
    let v = Real4 {
        x0: row[0],
        x1: row[1],
        x2: row[2],
        x3: row[3],
    };
    row[0] = dot4(q.r0, v);
    row[1] = turned4(q.r1, v);
    row[2] = dot4(q.r2, v);
    row[3] = turned4(q.r3, v);
}

// In row r the map's columns, from s on, are put under the map.
fn map_row4(m: &mut Square, s: usize, r: usize, q: Map4)
    requires columns { s + 4 ≤ m.old.dim }
    requires row { r < m.old.dim }
    ensures { Becomes m.old m.new (row_turn (local4 s q) m.old.dim r m.old.entries.now) }
{
    let a = r * m.dim + s;
    rotate4(&mut m.entries[a..a + 4], q);
}

// In each row the map's columns, from s on, are put under the map.
fn columns4(m: &mut Square, s: usize, q: Map4)
    requires { s + 4 ≤ m.old.dim }
    ensures { Becomes m.old m.new (matrix m.old.dim (cols (local4 s q) (cells m.old)) m.old.entries.now) }
{
    for r in 0..m.dim {
        map_row4(m, s, r, q);
    }
}

// In each column the map's rows, from s on, are put under the map, and then in each row its columns. It takes the slice: of a field that a `Square` was made
// from nothing is known afterwards, so its caller has no proof of what the state became.
pub fn both4(a: &mut [f64], dim: usize, s: usize, q: Map4)
    requires { Holds a.old dim s 4 }
    ensures { a.new ≡ matrix dim (cols (local4 s q) (rows (local4 s q) (at dim a.old))) a.old }
{
    let mut m = Square { entries: a, dim };
    rows4(&mut m, s, q);
    columns4(&mut m, s, q);
}
