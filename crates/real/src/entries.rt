// A square matrix that lent entries hold by rows, as one value.

ghost use Rattle.std.specs.Prelude.{◌≡◌, ◌+◌, ◌*◌, ◌≤◌, ◌<◌, length, set};
ghost use Rattle.std.specs.Float.{nan};
ghost use Rattle.laws.specs.Slices.{traded};
ghost use Rattle.laws.specs.Matrix.{at, Inside};

// The first dim * dim of the entries; what lies after them is not the matrix's.
#[derive(Drop)]
pub struct Square<'a> {
    pub entries: &'a mut [f64],
    pub dim: usize,
    pub ghost room: { dim * dim ≤ length entries.now },
}

impl<'a> Square<'a> {
    ghost use Rattle.real.specs.Squares.{cells, Becomes};

    // The entry in row r and column c.
    pub fn entry(&self, r: usize, c: usize) -> f64
        requires row { r < self.now.dim }
        requires column { c < self.now.dim }
        ensures { result ≡ cells self.now r c }
    {
        self.entries[r * self.dim + c]
    }

    // x is stored there.
    pub fn put(&mut self, r: usize, c: usize, x: f64)
        requires row { r < self.old.dim }
        requires column { c < self.old.dim }
        ensures { Becomes self.old self.new (set self.old.entries.now (r * self.old.dim + c) x) }
    {
        self.entries[r * self.dim + c] = x;
    }

    // Two entries are exchanged. The library's `swap` asks which of them comes first: with it the Pfaffian of 16 rows takes 9 % more instructions, where
    // 5 % are the bar.
    pub fn exchange(&mut self, r: usize, c: usize, s: usize, d: usize)
        requires row { (r < self.old.dim) × (c < self.old.dim) }
        requires other { (s < self.old.dim) × (d < self.old.dim) }
        ensures { Becomes self.old self.new
            (traded nan (r * self.old.dim + c) (s * self.old.dim + d) self.old.entries.now) }
    {
        let i = r * self.dim + c;
        let j = s * self.dim + d;
        let x = self.entries[i];
        self.entries[i] = self.entries[j];
        self.entries[j] = x;
    }
}

// The entry in row r and column c of a matrix in a slice with its dimension beside it: for those that only read, to whom the slice is lent by `&`, and for
// `both.rt` of crate `local`, which says why.
pub fn entry(m: &[f64], dim: usize, r: usize, c: usize) -> f64
    requires { Inside m.now dim r c }
    ensures { result ≡ at dim m.now r c }
{
    m[r * dim + c]
}

// x is stored there.
pub fn put(m: &mut [f64], dim: usize, r: usize, c: usize, x: f64)
    requires { Inside m.old dim r c }
    ensures { m.new ≡ set m.old (r * dim + c) x }
{
    m[r * dim + c] = x;
}
