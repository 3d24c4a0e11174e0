// The comparisons of a list.
use std::io;
use stored::{Tally, print_tally};

#[derive(Clone, Copy, Default)]
pub struct Tallies {
    pub counts: Tally,
    pub slots: Tally,
    pub kinds: Tally,
    pub residuals: Tally,
    pub matrices: Tally,
}

impl Tallies {
    // A record that cannot be read agrees in nothing.
    pub fn unreadable(&mut self) {
        self.counts.note(false);
        self.slots.note(false);
        self.other_items();
    }

    // Items that are too few or too many.
    pub fn other_items(&mut self) {
        self.kinds.note(false);
        self.residuals.note(false);
        self.matrices.note(false);
    }

    pub fn print(&self, rt: &impl Print) -> io::Result<()> {
        print_tally(rt, "counts of swaps and cuts", self.counts)?;
        print_tally(rt, "slots and wires", self.slots)?;
        print_tally(rt, "kinds of items", self.kinds)?;
        print_tally(rt, "residuals", self.residuals)?;
        print_tally(rt, "matrices", self.matrices)
    }
}
