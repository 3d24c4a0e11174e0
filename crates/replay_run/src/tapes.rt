// A tape run in lent slices, and what it answers and leaves there beside the words of its record.
use detect::{Report, Told};
use stored::values::{compare, compare_both, compare_table, list};
use stored::words::{Plain, Words, size};
use stored_queries::asked::{Query, State, Widths};
use stored_queries::counts::Counts;
use stored_queries::packed::{Numbered, Packed};

// A tape has fewer queries.
const QUERIES: usize = 256;

// A record has at most so many words, unpacked.
const WORDS: usize = 90000;

// Record k of a list: the tape, the number of packed words, and these. They are the lengths of the lent slices, how many places of work are zero
// afterwards, number and place, the report, its tables, the operation slice, the state slice, the queries; what is not there is 0. Nothing where the record
// or a slice is too short or too long.
pub fn replay(mut record: Plain, k: usize, counts: &mut Counts) -> Option<()> {
    let tape = record.tape()?;
    let many = size(&mut record)?;
    if many > WORDS {
        return None;
    }
    let words = Numbered::new(Packed::new(record.bytes), many);
    Comparison { words, k, counts }.run(tape)
}

// Words that are still to be compared, on tape k of the list.
#[derive(Drop)]
struct Comparison<'a> {
    words: Numbered<Packed<'a>>,
    k: usize,
    counts: &'a mut Counts,
}

impl<'a> Comparison<'a> {
    // A run in slices of the lengths that the words name, with 7 in every place before.
    fn run(&mut self, tape: &[u8]) -> Option<()> {
        let [floats, marks, places, entries]: [usize; 4] = list(&mut self.words)?;
        let zeros = list(&mut self.words)?;
        let mut place_space = [7.0; stored::PLACES];
        let mut entry_space = [7.0; stored::STATE];
        let lent_places = place_space.get_mut(..places)?;
        let lent_entries = entry_space.get_mut(..entries)?;
        let (told, cleared) = stored::worked([floats, marks], zeros, |floats, marks| {
            Told::from(gaussian::run(tape, floats, marks, lent_places, lent_entries))
        })?;
        let operations = place_space.get(..places)?;
        let state = entry_space.get(..entries)?;
        let answer = compare(&[told.number, told.place], &mut self.words);
        self.counts
            .work
            .note(self.k, cleared.then_some(()).ok_or(0));
        self.counts.answers.note(self.k, answer);
        self.left(told.report, operations, state)
    }

    // The report with its tables, the slices, and the queries on the state.
    fn left(&mut self, report: Report, operations: &[f64], entries: &[f64]) -> Option<()> {
        let mut ahead = self.words;
        let n = size(&mut ahead)?;
        let counts = detect::report_words(report);
        let measures = [report.fraction, report.residual];
        let reports = compare_both(&counts, &measures, &mut self.words);
        self.counts.reports.note(self.k, reports);
        let Report {
            order,
            starts,
            modes,
            ..
        } = report;
        for table in [order, starts, modes] {
            let mut listed = self.words;
            let tables = compare_table(&table, n, &mut listed);
            self.counts.tables.note(self.k, tables);
            self.words.pass(n);
        }
        let left_operations = compare(operations, &mut self.words);
        let left_entries = compare(entries, &mut self.words);
        self.counts.operations.note(self.k, left_operations);
        self.counts.states.note(self.k, left_entries);
        self.queries(State {
            n: report.n,
            entries,
            modes: &modes,
        })
    }

    // The queries that the words go on with, up to a tag 0: each is its tag, the number of its words, and these.
    fn queries(&mut self, state: State) -> Option<()> {
        for place in 0..QUERIES {
            let tag = self.words.word()?;
            if tag == 0 {
                break;
            }
            let length = size(&mut self.words)?;
            match Query::of(tag) {
                Some(query) => self.query(query, state, place),
                None => self.no_query(tag, place),
            }
            self.words.pass(length);
        }
        Some(())
    }

    fn query(&mut self, query: Query, state: State, place: usize) {
        let mut asked = self.words;
        let mut work = [7.0; stored::WORK];
        let agrees = query.agrees_in(state, Widths::default(), &mut work, &mut asked) == Some(true);
        self.counts.queries[query as usize].note(self.k, agrees.then_some(()).ok_or(place));
    }

    // A tag of no query is passed over, and some stand for another comparison, which then differs.
    fn no_query(&mut self, tag: u64, place: usize) {
        match tag {
            1 => self.counts.reports.note(self.k, Err(place)),
            2 => self.counts.operations.note(self.k, Err(place)),
            3 => self.counts.states.note(self.k, Err(place)),
            10 => self.counts.tables.note(self.k, Err(place)),
            11 => self.counts.work.note(self.k, Err(place)),
            _ => {}
        }
    }
}
