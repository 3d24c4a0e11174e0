// The state in lent places as one value: the covariance m by rows, and the postponed signs d after it. No `Square` within: of a field that one was made from
// nothing is known afterwards (columns.rt).

ghost use Rattle.std.specs.Prelude.{◌≡◌, ◌+◌, ◌*◌, ◌-◌, ◌≤◌, ◌<◌, length, set, take, drop};
ghost use Rattle.std.specs.Float.Ieee.{neg};
ghost use Rattle.local.specs.Bounds.{state_places};

#[derive(Drop)]
pub struct Signed<'a> {
    pub entries: &'a mut [f64],
    pub dim: usize,
    pub ghost room: { state_places dim ≤ length entries.now },
}

impl<'a> Signed<'a> {
    ghost use Rattle.local.specs.Signed.{state_of, Becomes};

    // The sign of index i.
    pub fn sign(&self, i: usize) -> f64
        requires { i < self.now.dim }
        ensures { result ≡ (state_of self.now).d i }
    {
        self.entries[self.dim * self.dim + i]
    }

    // The signs of the k indices from s on.
    pub fn signs(&self, s: usize, k: usize) -> &[f64]
        requires { s + k ≤ self.now.dim }
        ensures { let at = self.now.dim * self.now.dim + s in
            result.now ≡ take (at + k - at) (drop at self.now.entries.now) }
    {
        let entries = &self.entries;
        let at = self.dim * self.dim + s;
        &entries[at..at + k]
    }

    // x is the sign of index i.
    pub fn put_sign(&mut self, i: usize, x: f64)
        requires { i < self.old.dim }
        ensures { Becomes self.old self.new
            (set self.old.entries.now (self.old.dim * self.old.dim + i) x) }
    {
        self.entries[self.dim * self.dim + i] = x;
    }

    // The entry in row r and column c is negated.
    pub fn negate(&mut self, r: usize, c: usize)
        requires row { r < self.old.dim }
        requires column { c < self.old.dim }
        ensures { Becomes self.old self.new
            (set self.old.entries.now (r * self.old.dim + c) (neg ((state_of self.old).m r c))) }
    {
        let at = r * self.dim + c;
        self.entries[at] = -self.entries[at];
    }
}
