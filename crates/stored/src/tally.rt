// How many comparisons there are, and how many agree.
ghost use Rattle.std.specs.Prelude.{◌≡◌, ◌+◌, ◌%◌, ◌^◌, if◌then◌else◌};

use std::io;
use std::io::AsBytes;

#[derive(Clone, Copy, Default)]
pub struct Tally {
    pub right: u64,
    pub all: u64,
}

impl Tally {
    // One more comparison.
    pub fn note(&mut self, agrees: bool)
        ensures right { self.new.right ≡ (self.old.right + (if agrees then 1 else 0)) % 2 ^ 64 }
        ensures all { self.new.all ≡ (self.old.all + 1) % 2 ^ 64 }
    {
        self.right = self.right.wrapping_add(u64::from(agrees));
        self.all = self.all.wrapping_add(1);
    }
}

// A line for what the list has.
pub fn print_tally(rt: &impl Print, name: impl AsBytes + Drop, t: Tally) -> io::Result<()> {
    if t.all == 0 {
        return Ok(());
    }
    rt.write_all(name.as_byte_slice())?;
    println!(rt; " {} of {}", t.right, t.all)
}
