// The Pfaffian (001's `pfaffian`), by elimination of pairs of rows. Row k is divided by the pivot once, where the original divides
// in the inner loop: the quotients are the same, and row k is not read again.

ghost use Rattle.std.specs.Prelude.{◌≡◌, ◌+◌, ◌*◌, ◌≤◌, ◌<◌};
ghost use Rattle.laws.specs.Tables.{exchanged};
ghost use Rattle.laws.specs.Matrix.{matrix};
ghost use Rattle.laws.specs.Steps.{masked, rows_from, cols_from};
ghost use Rattle.real.specs.Squares.{cells, Becomes};
ghost use Rattle.pfaffian.specs.Work.{Works};
ghost use Rattle.pfaffian.specs.Pfaffian.{pivot_of, less, pfaffian_of};
ghost use Rattle.pfaffian.specs.Turns.{brought, scaled, swept_row, swept, Corners};

use num::abs;
use real::Square;

// What the pivot search found: the largest absolute value of a row, and its column.
#[derive(Clone, Copy)]
pub struct Found {
    pub best: f64,
    pub piv: usize,
}

// How the Pfaffian ends: with its value, or in the row where the search for a pivot ended at zero. Its number is 0.0 there.
#[derive(Clone, Copy)]
pub enum End {
    Value(f64),
    Stopped(usize),
}

// The first largest |m[k][j]|, j > k.
fn pivot(m: &Square, k: usize) -> Found
    requires { k + 2 ≤ m.now.dim }
    ensures value { (result.best, result.piv) ≡ pivot_of (cells m.now k) k m.now.dim }
    ensures bound { result.piv < m.now.dim }
{
    let mut piv = k + 1;
    let mut best = abs(m.entry(k, k + 1));
    for j in k + 2..m.dim {
        let v = abs(m.entry(k, j));
        if v > best {
            best = v;
            piv = j;
        }
    }
    Found { best, piv }
}

// From column k on the rows p and q change places. One function for rows and columns would walk by a stride, and its promise be of bare places.
fn exchange_rows(m: &mut Square, p: usize, q: usize, k: usize)
    requires rows { (p < m.old.dim) × (q < m.old.dim) }
    requires k_le_dim { k ≤ m.old.dim }
    ensures { Becomes m.old m.new
        (matrix m.old.dim (masked (cols_from k) (λ r c. cells m.old (exchanged p q r) c) (cells m.old)) m.old.entries.now) }
{
    for c in k..m.dim {
        m.exchange(p, c, q, c);
    }
}

// From row k on the columns p and q change places.
fn exchange_columns(m: &mut Square, p: usize, q: usize, k: usize)
    requires columns { (p < m.old.dim) × (q < m.old.dim) }
    requires k_le_dim { k ≤ m.old.dim }
    ensures { Becomes m.old m.new
        (matrix m.old.dim (masked (rows_from k) (λ r c. cells m.old r (exchanged p q c)) (cells m.old)) m.old.entries.now) }
{
    for r in k..m.dim {
        m.exchange(r, p, r, q);
    }
}

// Row and column p change places with row and column k + 1. What stands before row or column k is not read again, and
// is left.
fn bring(m: &mut Square, p: usize, k: usize)
    requires rows { (p < m.old.dim) × (k + 1 < m.old.dim) }
    requires k_le_p { k ≤ p }
    ensures { Corners k m.old (brought p (k + 1) (cells m.old)) m.new }
{
    if p != k + 1 {
        exchange_rows(m, p, k + 1, k);
        exchange_columns(m, p, k + 1, k);
    }
}

// Row k from column k + 2 on is divided by the pivot.
fn scale_row(m: &mut Square, k: usize, akk: f64)
    requires { k + 2 ≤ m.old.dim }
    ensures { Becomes m.old m.new (scaled m.old.dim k akk m.old.entries.now) }
{
    for j in k + 2..m.dim {
        let x = m.entry(k, j);
        m.put(k, j, x / akk);
    }
}

// Row i of the elimination at k, from column k + 2 on. The loop goes over the places of row k, of which the others are known
// by their distances: with a sum less the compiler takes four columns a turn.
fn eliminate_row(m: &mut Square, k: usize, i: usize)
    requires row { (k + 2 ≤ i) × (i < m.old.dim) }
    ensures { Becomes m.old m.new (swept_row m.old.dim k i m.old.entries.now) }
{
    let ti = m.entry(k, i);
    let rowi = m.entry(k + 1, i);
    let dim = m.dim;
    let top = k * dim;
    let down = i * dim - top;
    let a = &mut *m.entries;
    for x in top + (k + 2)..top + dim {
        let tj = a[x];
        let rowj = a[x + dim];
        let old = a[x + down];
        a[x + down] = old + (-ti * rowj + tj * rowi);
    }
}

// All rows of the elimination at k, row k being divided.
fn eliminate_rows(m: &mut Square, k: usize)
    requires { k + 2 ≤ m.old.dim }
    ensures { Becomes m.old m.new (swept m.old.dim k m.old.entries.now) }
{
    for i in k + 2..m.dim {
        eliminate_row(m, k, i);
    }
}

// The rows and columns from k + 2 on, by the rows k and k + 1.
fn eliminate(m: &mut Square, k: usize)
    requires { k + 2 ≤ m.old.dim }
    ensures { Corners (k + 2) m.old (less k (cells m.old)) m.new }
{
    let akk = m.entry(k, k + 1);
    scale_row(m, k, akk);
    eliminate_rows(m, k);
}

// The Pfaffian of the matrix, which is overwritten. One of odd dimension stops at row 0.
pub fn pfaffian(m: &mut Square) -> End
    ensures value { result ≡ pfaffian_of m.old.dim (cells m.old) }
    ensures kept { Works m.old m.new }
{
    if m.dim % 2 == 1 {
        return End::Stopped(0);
    }
    let mut pf = 1.0;
    for pair in 0..m.dim / 2 {
        let k = 2 * pair;
        let found = pivot(m, k);
        let piv = found.piv;
        if found.best == 0.0 {
            return End::Stopped(k);
        }
        if piv != k + 1 {
            pf = -pf;
        }
        bring(m, piv, k);
        pf = pf * m.entry(k, k + 1);
        eliminate(m, k);
    }
    End::Value(pf)
}
