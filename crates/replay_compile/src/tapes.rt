// A tape compiled in lent slices, and what that answers and leaves there beside the words of its record.
use detect::{Report, Told};
use std::io;
use stored::values::{Stored, compare, compare_both, compare_table, list};
use stored::words::{Padded, Plain, Words, size};
use stored::{Tally, print_tally};

// Places of the largest operation slice.
const PLACES: usize = 1024;

// The comparisons of a list.
#[derive(Clone, Copy, Default)]
pub struct Tallies {
    answers: Tally,
    reports: Tally,
    tables: Tally,
    operations: Tally,
    work: Tally,
}

impl Tallies {
    // A record that cannot be read agrees in nothing.
    pub fn unreadable(&mut self) {
        self.answers.note(false);
        self.reports.note(false);
        self.tables.note(false);
        self.operations.note(false);
        self.work.note(false);
    }

    pub fn print(&self, rt: &impl Print) -> io::Result<()> {
        print_tally(rt, "numbers and places", self.answers)?;
        print_tally(rt, "reports", self.reports)?;
        print_tally(rt, "tables", self.tables)?;
        print_tally(rt, "operation places", self.operations)?;
        print_tally(rt, "work afterwards", self.work)
    }
}

// A record: the tape, the lengths of the lent slices, how many places of work are zero afterwards, number and place, the report, its tables, the
// operation slice; words that it does not have are 0. Every place is 7 before the call. Nothing where the record cannot be read.
pub fn replay(mut record: Plain, tallies: &mut Tallies) -> Option<()> {
    let tape = record.tape()?;
    let mut words = Padded { words: record };
    let [floats, marks, places]: [usize; 3] = list(&mut words)?;
    let zeros = list(&mut words)?;
    let mut ahead = words;
    let [_, _, n]: [usize; 3] = list(&mut ahead)?;
    let mut place_space = [7.0; PLACES];
    let lent = place_space.get_mut(..places)?;
    let (told, cleared) = stored::worked([floats, marks], zeros, |floats, marks| {
        Told::from(detect::compile(tape, floats, marks, lent))
    })?;
    let report = told.report;
    if n > report.order.len() {
        return None;
    }
    let operations = place_space.get(..places)?;
    let answer = compare(&[told.number, told.place], &mut words);
    tallies.work.note(cleared);
    tallies.answers.note(answer.is_ok());
    left(report, operations, n, words, tallies);
    Some(())
}

// The report with its tables of n entries, and the operation slice, of which every place is compared by itself. Beside replay_run's: there each comparison
// is noted with its tape, and words are packed.
fn left<W: Words>(
    report: Report,
    operations: &[f64],
    n: usize,
    mut words: W,
    tallies: &mut Tallies,
) {
    let counts = detect::report_words(report);
    let measures = [report.fraction, report.residual];
    let reports = compare_both(&counts, &measures, &mut words);
    let Report {
        order,
        starts,
        modes,
        ..
    } = report;
    let mut tables = Ok(());
    for table in [order, starts, modes] {
        tables = tables.and(compare_table(&table, n, &mut words));
    }
    tallies.reports.note(reports.is_ok());
    tallies.tables.note(tables.is_ok());
    for place in operations {
        tallies.operations.note(place.agrees(&mut words));
    }
}
