// The covariance of the modes left, read from the state into work, and the Pfaffian of what stands there. The list of modes comes with the fact that they are
// below a bound (`Below`): the bound is n in one function and the length of another list in the next, so that a struct would need an equation in its place.
// State and matrix are two values: one is read, the other written. How many rows the matrix has (`rows`) is asked with each list, since it is that list's.

ghost use Rattle.std.specs.Prelude.{◌≡◌, ◌+◌, ◌*◌, ◌/◌, ◌≤◌, ◌<◌, map, length, get_or};
ghost use Rattle.std.specs.Float.{binary64};
ghost use Rattle.std.specs.Float.Ieee.{mul};
ghost use Rattle.laws.specs.Slices.{filled};
ghost use Rattle.laws.specs.Matrix.{matrix};
ghost use Rattle.laws.specs.Bounds.{max_qubits};
ghost use Rattle.real.specs.Squares.{cells, Becomes};
ghost use Rattle.pfaffian.specs.Pfaffian.{pfaffian_of};
ghost use Rattle.pfaffian.specs.Shot.{half};
ghost use Rattle.queries.specs.Products.{index_of, restricted};
ghost use Rattle.queries.specs.Marginals.{half_spin_of, asked_matrix};
ghost use Rattle.queries.specs.Calls.{covariance_of, cleared};
ghost use Rattle.queries.specs.Inner.{mark_of, mark_at, Below, row_laid, pair_shifted, pairs_shifted};

use pfaffian::End;
use real::Square;
use state::Checked;

// The state's row that is row r of the modes' matrix.
fn index(list: &[u16], r: usize) -> usize
    requires r_in_bounds { r / 2 < length list.now }
    requires r_bound { get_or list.now (r / 2) 0 ≤ max_qubits }
    ensures { result ≡ index_of list.now r }
{
    2 * usize::from(list[r / 2]) + r % 2
}

// Row r of the modes' matrix, the two columns of a mode at once.
fn restrict_row(checked: Checked, list: &[u16], m: &mut Square, r: usize)
    requires below { Below checked.n list.now }
    requires rows { m.old.dim ≡ 2 * length list.now }
    requires row { r < m.old.dim }
    ensures { Becomes m.old m.new (row_laid m.old.dim r
        (restricted (covariance_of checked.entry.n checked.entry.state.now) list.now)
        m.old.entries.now) }
{
    let x = index(list, r);
    for j in 0..list.len() {
        let y = index(list, 2 * j);
        let v = checked.get(x, y);
        let w = checked.get(x, y + 1);
        m.put(r, 2 * j, v);
        m.put(r, 2 * j + 1, w);
    }
}

// The modes' matrix: their rows and columns of the covariance.
pub fn restrict(checked: Checked, list: &[u16], m: &mut Square)
    requires below { Below checked.n list.now }
    requires rows { m.old.dim ≡ 2 * length list.now }
    ensures { Becomes m.old m.new (matrix m.old.dim
        (restricted (covariance_of checked.entry.n checked.entry.state.now) list.now)
        m.old.entries.now) }
{
    for r in 0..m.dim {
        restrict_row(checked, list, m, r);
    }
}

// Every place times 0.5.
fn halve(v: &mut [f64])
    ensures { v.new ≡ map (mul binary64 half) v.old }
{
    for x in v.iter_mut() {
        *x = 0.5 * *x;
    }
}

// -0.5 for a mode that is asked for a one, else 0.5.
fn half_spin(asked: Option<bool>) -> f64
    ensures { result ≡ half_spin_of (mark_of asked) }
{
    if asked.unwrap_or(false) { -0.5 } else { 0.5 }
}

// The pair of entries at a and a + 1.
fn shift_pair(m: &mut Square, a: usize, s: f64)
    requires { a + 2 ≤ m.old.dim }
    ensures { Becomes m.old m.new (pair_shifted m.old.dim a s m.old.entries.now) }
{
    let x = m.entry(a, a + 1);
    let y = m.entry(a + 1, a);
    m.put(a, a + 1, x + s);
    m.put(a + 1, a, y - s);
}

// Every pair, by what is asked of its mode.
fn shift_pairs(m: &mut Square, list: &[u16], asked: &[Option<bool>])
    requires rows { m.old.dim ≡ 2 * length list.now }
    requires below { Below (length asked.now) list.now }
    ensures { Becomes m.old m.new (pairs_shifted m.old.dim asked.now list.now m.old.entries.now) }
{
    for j in 0..list.len() {
        let s = half_spin(asked[usize::from(list[j])]);
        shift_pair(m, 2 * j, s);
    }
}

// The matrix of a marginal.
pub fn ask(checked: Checked, list: &[u16], asked: &[Option<bool>], m: &mut Square)
    requires below { Below checked.n list.now }
    requires asked { Below (length asked.now) list.now }
    requires rows { m.old.dim ≡ 2 * length list.now }
    ensures { Becomes m.old m.new (matrix m.old.dim
        (asked_matrix (covariance_of checked.entry.n checked.entry.state.now) (mark_at asked.now) list.now)
        m.old.entries.now) }
{
    restrict(checked, list, m);
    let places = m.dim * m.dim;
    halve(&mut m.entries[..places]);
    shift_pairs(m, list, asked);
}

// Every entry is x.
pub fn fill(m: &mut Square, x: f64)
    ensures { Becomes m.old m.new (filled (m.old.dim * m.old.dim) x m.old.entries.now) }
{
    let places = m.dim * m.dim;
    m.entries[..places].fill(x);
}

// The Pfaffian of the matrix in work, which is then zero.
pub fn pfaffian_cleared(m: &mut Square) -> End
    ensures value { result ≡ pfaffian_of m.old.dim (cells m.old) }
    ensures work { Becomes m.old m.new (cleared m.old.dim m.old.entries.now) }
{
    let end = pfaffian::pfaffian(m);
    fill(m, 0.0);
    end
}
