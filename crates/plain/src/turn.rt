// The turn of all rows and columns from one on, where a determinant is below zero: each entry is negated once for its row and once for its column.

ghost use Rattle.std.specs.Prelude.{◌≡◌, cond, ◌≤◌, ◌<◌};
ghost use Rattle.std.specs.Float.Ieee.{lt};
ghost use Rattle.laws.specs.Zeros.{+0};
ghost use Rattle.laws.specs.Matrix.{matrix};
ghost use Rattle.real.specs.Squares.{cells, Becomes};
ghost use Rattle.plain.specs.Plain.{turned_from};
ghost use Rattle.plain.specs.Parts.{part_negated, row_turned};

use local::negate_all;
use real::Square;

// In row r the entries from column c on are negated.
fn negate_part(m: &mut Square, r: usize, c: usize)
    requires row { r < m.old.dim }
    requires column { c ≤ m.old.dim }
    ensures { Becomes m.old m.new (matrix m.old.dim (part_negated r c (cells m.old)) m.old.entries.now) }
{
    let a = r * m.dim + c;
    let n = m.dim - c;
    negate_all(&mut m.entries[a..a + n]);
}

// Row r's part of the turn from s on: the whole row is negated if it is one of those, and so are its entries in the columns from s on.
fn turn_row(m: &mut Square, r: usize, s: usize)
    requires row { r < m.old.dim }
    requires from { s ≤ m.old.dim }
    ensures { Becomes m.old m.new (matrix m.old.dim (row_turned r s (cells m.old)) m.old.entries.now) }
{
    if s <= r {
        negate_part(m, r, 0);
    }
    negate_part(m, r, s);
}

// All rows and columns from s on are turned.
fn turn_from(m: &mut Square, s: usize)
    requires { s ≤ m.old.dim }
    ensures { Becomes m.old m.new (matrix m.old.dim (turned_from s (cells m.old)) m.old.entries.now) }
{
    for r in 0..m.dim {
        turn_row(m, r, s);
    }
}

// They are if the determinant is below zero.
pub fn turn_where(m: &mut Square, s: usize, det: f64)
    requires { s ≤ m.old.dim }
    ensures { Becomes m.old m.new
        (matrix m.old.dim (cond (lt det +0) (turned_from s (cells m.old)) (cells m.old)) m.old.entries.now) }
{
    if det < 0.0 {
        turn_from(m, s);
    }
}
