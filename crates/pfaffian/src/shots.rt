// One shot of a sample (001's `sample`). After the first update each later entry below the diagonal is minus the one above it, so
// only the places right of the diagonal are kept. Until then the matrix is fresh, and nothing is known of it: a mode's two columns
// are laid, negated, over its rows, which are not read again. A fresh matrix and a used one are the same slice, so that a flag tells them apart.

ghost use Rattle.std.specs.Prelude.{◌≡◌, false, ◌+◌, ◌*◌, ◌≤◌, ◌<◌, length, get_or};
ghost use Rattle.std.specs.Float.{nan};
ghost use Rattle.laws.specs.Tables.{mode_at};
ghost use Rattle.real.specs.Squares.{cells, Becomes};
ghost use Rattle.pfaffian.specs.Work.{Works};
ghost use Rattle.pfaffian.specs.Shot.{max_modes, drawn_of, spin_of, draw_from, bit, qubit_bit, word_of, shot_of};
ghost use Rattle.pfaffian.specs.Turns.{laid, projected_by, measured_row, measured, laid_pair, Measures, ShotListed};

use num::clamp;
use real::Square;

const MODES: usize = 128; // a shot is two words

// Column i from row s on, negated, over row i.
fn lay_row(m: &mut Square, i: usize, s: usize)
    requires { (i < s) × (s ≤ m.old.dim) }
    ensures { Becomes m.old m.new (laid m.old.dim i s m.old.entries.now) }
{
    for e in s..m.dim {
        let x = m.entry(e, i);
        m.put(i, e, -x);
    }
}

// An entry of the update, from itself and from what the rows a and a + 1 have in its row's and its column's place.
fn projected(f: f64, old: f64, ac: f64, ae: f64, bc: f64, be: f64) -> f64
    ensures { result ≡ projected_by f old ac ae bc be }
{
    old + f * (-bc * -ae - -ac * -be)
}

// The rows c and c + 1 right of the diagonal, by the rows a and a + 1, of which each entry is loaded once for both.
fn update_two(m: &mut Square, a: usize, c: usize, f: f64)
    requires { (a + 2 ≤ c) × (c + 1 < m.old.dim) }
    ensures { Becomes m.old m.new
        (measured_row m.old.dim a f (c + 1) (measured_row m.old.dim a f c m.old.entries.now)) }
{
    let b = a + 1;
    let d = c + 1;
    let ac = m.entry(a, c);
    let bc = m.entry(b, c);
    let ad = m.entry(a, d);
    let bd = m.entry(b, d);
    let between = m.entry(c, d);
    m.put(c, d, projected(f, between, ac, ad, bc, bd));
    for e in d + 1..m.dim {
        let ae = m.entry(a, e);
        let be = m.entry(b, e);
        let upper = m.entry(c, e);
        let lower = m.entry(d, e);
        m.put(c, e, projected(f, upper, ac, ae, bc, be));
        m.put(d, e, projected(f, lower, ad, ae, bd, be));
    }
}

// All rows after the pair a, a + 1, which hold minus the columns. The last row has nothing right of the diagonal.
fn update_rows(m: &mut Square, a: usize, f: f64)
    requires { a + 2 ≤ m.old.dim }
    ensures { Becomes m.old m.new (measured m.old.dim a f m.old.entries.now) }
{
    for pair in 0..(m.dim - (a + 2)) / 2 {
        update_two(m, a, a + 2 + 2 * pair, f);
    }
}

// The rows a and a + 1 made to hold minus the columns.
fn lay_pair(m: &mut Square, a: usize, fresh: bool)
    requires { a + 2 ≤ m.old.dim }
    ensures { Becomes m.old m.new (laid_pair m.old.dim a fresh m.old.entries.now) }
{
    if fresh {
        lay_row(m, a, a + 2);
        lay_row(m, a + 1, a + 2);
    }
}

// The places after the pair a, a + 1, right of the diagonal.
fn update(m: &mut Square, a: usize, f: f64, fresh: bool)
    requires { a + 2 ≤ m.old.dim }
    ensures { Becomes m.old m.new
        (measured m.old.dim a f (laid_pair m.old.dim a fresh m.old.entries.now)) }
{
    lay_pair(m, a, fresh);
    update_rows(m, a, f);
}

// The outcome for a draw. Beside a NaN it is 0.
fn drawn(mab: f64, draw: f64) -> bool
    ensures { result ≡ drawn_of mab draw }
{
    draw >= 0.5 * (1.0 + mab)
}

// 1.0, or -1.0 for the outcome one.
fn spin(one: bool) -> f64
    ensures { result ≡ spin_of one }
{
    if one { -1.0 } else { 1.0 }
}

// A measured mode: its outcome, whether the matrix is still fresh, and where the next draw stands.
#[derive(Clone, Copy)]
struct Measured {
    pub one: bool,
    pub fresh: bool,
    pub next: usize,
}

// Mode k is measured with the draw at `at`. The draw is used whatever den is.
fn measure(m: &mut Square, k: usize, fresh: bool, draws: &[f64], at: usize) -> Measured
    requires rows { 2 * k + 2 ≤ m.old.dim }
    requires at_in_bounds { at < length draws.now }
    ensures plain { Measures m.old.dim k (get_or draws.now at nan) fresh m.old.entries.now result.one result.fresh
        m.new.entries.now }
    ensures used { result.next ≡ at + 1 }
    ensures kept { Works m.old m.new }
{
    let a = 2 * k;
    let mab = clamp(m.entry(a, a + 1), -1.0, 1.0);
    let one = drawn(mab, draws[at]);
    let next = at + 1;
    let s = spin(one);
    let den = 1.0 + s * mab;
    if den <= 1e-300 {
        return Measured { one, fresh, next };
    }
    update(m, a, s / den, fresh);
    Measured {
        one,
        fresh: false,
        next,
    }
}

// All n modes in their order: mode k uses draw k, and bits[k] is its outcome. The slices may be longer than n: what comes after is not read.
fn measure_modes(m: &mut Square, n: usize, draws: &[f64], bits: &mut [bool])
    requires rows { m.old.dim ≡ 2 * n }
    requires n_in_bounds_2 { n ≤ length bits.old }
    requires n_in_bounds_3 { n ≤ length draws.now }
    ensures bits { ShotListed n (cells m.old) (draw_from draws.now 0) bits.old bits.new }
    ensures kept { Works m.old m.new }
{
    let mut fresh = true;
    let mut next = 0;
    for k in 0..n {
        let r = measure(m, k, fresh, draws, next);
        bits[k] = r.one;
        fresh = r.fresh;
        next = r.next;
    }
}

// The outcome of mode k, which is 0 for a mode that no shot has.
fn outcome(bits: &[bool], k: usize) -> bool
    ensures { result ≡ get_or bits.now k false }
{
    k < bits.len() && bits[k]
}

// The bit of qubit q: the outcome of its mode, if it has one.
fn qubit_bit(bits: &[bool], modes: &[u16], q: usize) -> u64
    ensures value { result ≡ bit (qubit_bit (mode_at modes.now) (length modes.now) bits.now q) }
    ensures bound { result ≤ 1 }
{
    u64::from(q < modes.len() && outcome(bits, usize::from(modes[q])))
}

// The bits of the 64 qubits from `low` on, the first the lowest.
fn word(bits: &[bool], modes: &[u16], low: usize) -> u64
    requires { low ≤ 64 }
    ensures { result ≡ word_of (qubit_bit (mode_at modes.now) (length modes.now) bits.now) low 64 }
{
    let mut w = 0;
    for i in (0..64).rev() {
        w = qubit_bit(bits, modes, low + i) + 2 * w;
    }
    w
}

// The two words of a shot.
#[derive(Clone, Copy)]
pub struct Words {
    pub low: u64,
    pub high: u64,
}

// One shot: bit q is the outcome of the mode that qubit q has. The matrix is overwritten; mode k uses draw k.
pub fn shot(m: &mut Square, n: usize, draws: &[f64], modes: &[u16]) -> Words
    requires rows { m.old.dim ≡ 2 * n }
    requires n_le_max_modes { n ≤ max_modes }
    requires n_in_bounds_2 { n ≤ length draws.now }
    requires n_in_bounds_3 { n ≤ length modes.now }
    ensures words { result ≡ shot_of (cells m.old) n (draw_from draws.now 0) (mode_at modes.now) }
    ensures kept { Works m.old m.new }
{
    // 128 places for every n: no heap
    let mut bits = [false; MODES];
    measure_modes(m, n, draws, &mut bits);
    let modes = &modes[..n];
    let low = word(&bits, modes, 0);
    let high = word(&bits, modes, 64);
    Words { low, high }
}
