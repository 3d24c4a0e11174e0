// Order, path starts and modes of the qubits as tables of fixed length. A report is copied and laid out whole for C: arrays of fixed length, no heap.
ghost use Rattle.std.specs.Prelude.{ℕ, ◌≡◌, ◌<◌, ◌≤◌};
ghost use Rattle.laws.specs.Bounds.{max_qubits};
ghost use Rattle.work.specs.Sizes.{record_marks};
ghost use Rattle.work.specs.Marks.{column};
ghost use Rattle.detect.specs.Report.{table};
ghost use Rattle.detect.specs.Records.{qubit_mode, tables_of, ColumnBelow};
ghost use Rattle.detect.specs.Lent.{QubitsThere, TablesThere};

use laws::MAX_QUBITS;
use work::{CONTENT, LAB, ORDER, POS, START, Work};

// The wire on each mode, whether a path starts there, the mode of each qubit.
#[derive(Clone, Copy)]
pub struct Tables {
    pub order: [u16; MAX_QUBITS],
    pub starts: [u16; MAX_QUBITS],
    pub modes: [u16; MAX_QUBITS],
}

// The table whose first n entries are those of the closure.
fn table<F: Fn(usize) -> u32>(n: usize, entry: F) -> [u16; MAX_QUBITS]
    requires few { n ≤ max_qubits }
    requires callable { (k : ℕ) → k < n → F.pre entry k }
    requires fits { (k v : ℕ) → k < n → F.post entry k v → v < 65536 }
    ensures { (e : ℕ → ℕ) → ((k v : ℕ) → k < n → F.post entry k v → v ≡ e k) → result ≡ table n e }
{
    let mut t = [0; MAX_QUBITS];
    for k in 0..n {
        t[k] = entry(k) as u16;
    }
    t
}

// The first marks of column c: the wire on each mode, the path starts.
fn column_table(work: &Work, c: usize) -> [u16; MAX_QUBITS]
    requires few { work.now.slots ≤ max_qubits }
    requires column { (c < record_marks) × ColumnBelow work.now.marks c work.now.slots 65536 }
    ensures { result ≡ table work.now.slots (column c work.now.marks) }
{
    table(work.slots(), |k| work.mark(k, c))
}

// The mode of qubit q: of the wire that is in its slot.
fn mode_of_qubit(work: &Work, q: usize) -> u32
    requires { QubitsThere work.now × (q < work.now.slots) }
    ensures { (result ≡ qubit_mode work.now.marks q) × (result < work.now.slots) }
{
    let s = work.mark(q, LAB) as usize;
    let w = work.mark(s, CONTENT) as usize;
    work.mark(w, POS)
}

// The mode of each qubit.
fn mode_table(work: &Work) -> [u16; MAX_QUBITS]
    requires { QubitsThere work.now }
    ensures { result ≡ table work.now.slots (qubit_mode work.now.marks) }
{
    table(work.slots(), |q| mode_of_qubit(work, q))
}

impl Tables {
    pub fn of(work: &Work) -> Tables
        requires { TablesThere work.now }
        ensures { result ≡ tables_of work.now.marks work.now.slots }
    {
        Tables {
            order: column_table(work, ORDER),
            starts: column_table(work, START),
            modes: mode_table(work),
        }
    }
}
