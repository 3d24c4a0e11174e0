// The comparisons of a list.
use std::io;
use stored::{Tally, print_tally};

#[derive(Clone, Copy, Default)]
pub struct Tallies {
    pub map1: Tally,
    pub commutes: Tally,
    pub map2: Tally,
    pub conserves: Tally,
    pub offdiag: Tally,
    pub original: Tally,
    pub rule: Tally,
    pub residual: Tally,
    pub applied: Tally,
    pub phase: Tally,
    pub unit: Tally,
    pub rotation: Tally,
    pub unreadable: Tally,
}

impl Tallies {
    pub fn print(&self, rt: &impl Print) -> io::Result<()> {
        print_tally(rt, "majorana_map1", self.map1)?;
        print_tally(rt, "commutes_j2", self.commutes)?;
        print_tally(rt, "majorana_map2", self.map2)?;
        print_tally(rt, "number_conserving4", self.conserves)?;
        print_tally(rt, "offdiag4", self.offdiag)?;
        print_tally(rt, "classes of the original", self.original)?;
        print_tally(rt, "classes of the rule", self.rule)?;
        print_tally(rt, "residuals", self.residual)?;
        print_tally(rt, "matrices to apply", self.applied)?;
        print_tally(rt, "phases", self.phase)?;
        print_tally(rt, "units", self.unit)?;
        print_tally(rt, "rotations", self.rotation)?;
        print_tally(rt, "unreadable", self.unreadable)
    }
}
