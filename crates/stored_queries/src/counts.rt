// How many comparisons there are of each kind, how many agree, and which is the first that does not.
use crate::asked::{QUERIES, Query};
use std::io;
use stored::{Tally, print_tally};

// Where a comparison differs: on which tape of the list, and at which place.
#[derive(Clone, Copy)]
struct Difference {
    tape: usize,
    place: usize,
}

// The comparisons of a kind.
#[derive(Clone, Copy, Default)]
pub struct Count {
    tally: Tally,
    first: Option<Difference>,
}

impl Count {
    // A comparison on a tape of the list: an error is the place where it differs.
    pub fn note(&mut self, tape: usize, compared: Result<(), usize>) {
        self.tally.note(compared.is_ok());
        if let Err(place) = compared {
            self.first = self.first.or(Some(Difference { tape, place }));
        }
    }

    // A line if there are any, and one for the first that differs.
    fn print(&self, rt: &impl Print, name: &str) -> io::Result<()> {
        print_tally(rt, name, self.tally)?;
        if let Some(first) = self.first {
            println!(rt; "  first at tape {} place {}", first.tape, first.place)?;
        }
        Ok(())
    }
}

// The comparisons of a list.
#[derive(Clone, Copy, Default)]
pub struct Counts {
    pub answers: Count,
    pub reports: Count,
    pub tables: Count,
    pub operations: Count,
    pub states: Count,
    pub work: Count,
    pub queries: [Count; Query::COUNT], // by the case's number: no heap, so no map
}

impl Counts {
    pub fn print(&self, rt: &impl Print) -> io::Result<()> {
        self.answers.print(rt, "numbers and places")?;
        self.reports.print(rt, "reports")?;
        self.tables.print(rt, "tables")?;
        self.operations.print(rt, "operations")?;
        self.states.print(rt, "states")?;
        self.work.print(rt, "work afterwards")?;
        for (query, name) in QUERIES {
            self.queries[query as usize].print(rt, name)?;
        }
        Ok(())
    }
}
