// Both steps of 001's `apply_local` under a map of one mode, in one loop. Each row's part lies on a line of the cache by
// itself: where only such parts are read and stored, the processor asks for more lines at once than fit into the few sets
// on which rows of 2,048 bytes fall, and n = 128 takes twice as long. Its functions have a twin for four indices, in place of a const for the size:
// rows are structs of floats by value, and a map of two modes goes row by row and column by column, in two loops.
// The matrix is a slice with its dimension here: as one value (`real::Square`) both columns are no longer taken at once, and a map of one mode takes 34 %
// more instructions on 60 qubits, 37 % on 128.

ghost use Rattle.std.specs.Prelude.{◌≡◌, ◌+◌, ◌*◌, ◌<◌, set};
ghost use Rattle.laws.specs.Matrix.{at, matrix, Holds};
ghost use Rattle.laws.specs.Maps.{rows, cols, column_turn, row_turn};
ghost use Rattle.real.specs.Maps.{local2};
ghost use Rattle.local.specs.Parts.{under2, column2_of};

use super::columns::{dot2, rotate2};
use real::{Map2, Real2, entry, put};

// The vector v under the map.
fn mapped2(q: Map2, v: Real2) -> Real2
    ensures { result ≡ under2 q v }
{
    let x0 = dot2(q.r0, v);
    let x1 = dot2(q.r1, v);
    Real2 { x0, x1 }
}

// The entries of column c from row s on.
fn column2(m: &[f64], dim: usize, s: usize, c: usize) -> Real2
    requires holds { Holds m.now dim s 2 }
    requires c_lt_dim { c < dim }
    ensures { result ≡ column2_of dim m.now s c }
{
    let x0 = entry(m, dim, s, c);
    let x1 = entry(m, dim, s + 1, c);
    Real2 { x0, x1 }
}

// x and y are stored in row r, in the columns c and c + 1.
fn put2(m: &mut [f64], dim: usize, r: usize, c: usize, x: f64, y: f64)
    requires holds { Holds m.old dim c 2 }
    requires r_lt_dim { r < dim }
    ensures { m.new ≡ set (set m.old (r * dim + c) x) (r * dim + (c + 1)) y }
{
    put(m, dim, r, c, x);
    put(m, dim, r, c + 1, y);
}

// In the columns c and c + 1 the map's rows, from s on, are put under the map. All is read before the first
// store, and stored by rows, so that the compiler takes both columns at once.
fn map_columns2(m: &mut [f64], dim: usize, s: usize, c: usize, q: Map2)
    requires map_rows { Holds m.old dim s 2 }
    requires columns { Holds m.old dim c 2 }
    ensures { m.new ≡ column_turn (local2 s q) dim (c + 1) (column_turn (local2 s q) dim c m.old) }
{
    let v = mapped2(q, column2(m, dim, s, c));
    let w = mapped2(q, column2(m, dim, s, c + 1));
    put2(m, dim, s, c, v.x0, w.x0);
    put2(m, dim, s + 1, c, v.x1, w.x1);
}

// In row r the map's columns, from s on, are put under the map.
fn map_row2(m: &mut [f64], dim: usize, s: usize, r: usize, q: Map2)
    requires holds { Holds m.old dim s 2 }
    requires r_lt_dim { r < dim }
    ensures { m.new ≡ row_turn (local2 s q) dim r m.old }
{
    let a = r * dim + s;
    rotate2(&mut m[a..a + 2], q);
}

// In each column the rows of a mode are put under the map, and then in each row its columns: mode by mode, first
// the two columns, then the two rows.
pub fn both2(m: &mut [f64], n: usize, mode: usize, q: Map2)
    requires { Holds m.old (2 * n) (2 * mode) 2 }
    ensures { m.new ≡ matrix (2 * n) (cols (local2 (2 * mode) q) (rows (local2 (2 * mode) q) (at (2 * n) m.old))) m.old }
{
    let dim = 2 * n;
    let s = 2 * mode;
    for t in 0..n {
        let k = 2 * t;
        map_columns2(m, dim, s, k, q);
        map_row2(m, dim, s, k, q);
        map_row2(m, dim, s, k + 1, q);
    }
}
