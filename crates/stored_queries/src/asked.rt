// Queries put to a state. A query is a tag, the number of words that follow, what is asked, the length of work and how many of its places are zero
// after the call, the answer: number, place, value; then the row of a product or a marginal, or a sample's output. Before a call work and output are 7
// everywhere.
ghost use Rattle.std.specs.Prelude.{◌≡◌, ◌<◌, ◌≤◌, max, Some, MatchOption};

use laws::MAX_QUBITS;
use queries::Answered;
use state::Told;
use stored::records::numbered;
use stored::values::{Stored, Word, compare, is_cleared};
use stored::words::{Words, size};

// Entries of the longest list of a query, its draws too, and words of the largest output.
const LISTED: usize = 2 * MAX_QUBITS;

const OUT: usize = 64;

// What queries are put to. Passed beside the words: nothing is true of the pair.
#[derive(Clone, Copy)]
pub struct State<'a> {
    pub n: usize,
    pub entries: &'a [f64],
    pub modes: &'a [u16],
}

// In so many words each list of a query is stored; where none are named, in as many as it has entries.
#[derive(Clone, Copy, Default)]
pub struct Widths {
    pub qubits: usize,
    pub draws: usize,
    pub output: usize,
}

#[derive(Clone, Copy)]
pub enum Query {
    Product,
    Marginal,
    Probability,
    Sample,
}

// Each query with its name, in the order of their tags, the first of which is 4.
pub const QUERIES: [(Query, &str); Query::COUNT] = [
    (Query::Product, "expectation_z_product"),
    (Query::Marginal, "marginal_probability"),
    (Query::Probability, "probability"),
    (Query::Sample, "sample"),
];

impl Query {
    pub const COUNT: usize = 4;

    pub fn of(tag: u64) -> Option<Query> {
        let (query, _) = numbered(&QUERIES, 4, tag)?;
        Some(query)
    }

    // Whether the answer and what is left in work agree; nothing where the query cannot be read. A list with more entries than its width has as many words.
    pub fn agrees<W: Words>(self, state: State, widths: Widths, words: &mut W) -> Option<bool> {
        let mut work = [7.0; stored::WORK];
        self.asked::<AtLeast, W>(state, widths, &mut work, words)
    }

    // The same in lent work, of which every place is 7.0; nothing where a list has more entries than the width that is named for it.
    pub fn agrees_in<W: Words>(
        self,
        state: State,
        widths: Widths,
        lent: &mut [f64],
        words: &mut W,
    ) -> Option<bool> {
        self.asked::<Within, W>(state, widths, lent, words)
    }

    fn asked<L: Lists, W: Words>(
        self,
        state: State,
        widths: Widths,
        lent: &mut [f64],
        words: &mut W,
    ) -> Option<bool> {
        match self {
            Query::Product => product::<L, W>(state, widths, lent, words),
            Query::Marginal => marginal::<L, W>(state, widths, lent, words),
            Query::Probability => probability(state, lent, words),
            Query::Sample => sample::<L, W>(state, widths, lent, words),
        }
    }
}

// What a query answers.
trait Answer: Copy {
    // Whether the words, which are passed over, say the same; nothing where they are no answer.
    fn is_said<W: Words>(self, words: &mut W) -> Option<bool>;
}

// Number, place and value.
impl Answer for Told {
    fn is_said<W: Words>(self, words: &mut W) -> Option<bool> {
        let place = compare(&[self.number, self.place], words);
        let value = self.value.agrees(words);
        Some(place.is_ok() && value)
    }
}

// The same and the row, whose word is 0 if there is none, else the row and one.
impl Answer for Answered {
    fn is_said<W: Words>(self, words: &mut W) -> Option<bool> {
        let told = self.told.is_said(words)?;
        let row = size(words)?.checked_sub(1);
        Some(told && self.row == row)
    }
}

// How lists are stored.
trait Lists {
    // In how many words so many entries are stored; nothing where they cannot be.
    fn stored_in(count: usize, width: usize) -> Option<usize>;
}

// In the words of the width, where one is named, and no more.
struct Within;

impl Lists for Within {
    fn stored_in(count: usize, width: usize) -> Option<usize>
        ensures { MatchOption result ((0 < width) × (width < count)) (λ words. (0 < width → count ≤ width) × (words ≡ max count width)) }
    {
        if width == 0 {
            return Some(count);
        }
        (count <= width).then_some(width)
    }
}

// In at least as many.
struct AtLeast;

impl Lists for AtLeast {
    fn stored_in(count: usize, width: usize) -> Option<usize>
        ensures { result ≡ Some (max count width) }
    {
        Some(count.max(width))
    }
}

// So many entries. A longer array is filled and its first part taken, since the words behind the entries are read too.
fn listed<T: Word, L: Lists, W: Words>(
    count: usize,
    width: usize,
    words: &mut W,
) -> Option<[T; LISTED]> {
    let mut list = [T::of(0)?; LISTED];
    for i in 0..L::stored_in(count, width)? {
        *list.get_mut(i)? = T::of(words.word()?)?;
    }
    Some(list)
}

// A query that works in lent floats. The words are work's length, how many of its places are zero after the call, and the answer.
fn worked<A: Answer, W: Words, F: FnOnce(&mut [f64]) -> A>(
    lent: &mut [f64],
    words: &mut W,
    ask: F,
) -> Option<bool>
    requires { F.IsAlwaysCallable ask }
{
    let length = size(words)?;
    let zeros = size(words)?;
    let answer = ask(lent.get_mut(..length)?);
    Some(answer.is_said(words)? && is_cleared(lent, zeros, 7.0))
}

fn product<L: Lists, W: Words>(
    state: State,
    widths: Widths,
    lent: &mut [f64],
    words: &mut W,
) -> Option<bool> {
    let count = size(words)?;
    let list = listed::<_, L, W>(count, widths.qubits, words)?;
    let qubits = list.get(..count)?;
    worked(lent, words, |work| {
        Answered::from(queries::expectation_z_product(
            state.n,
            state.entries,
            state.modes,
            qubits,
            work,
        ))
    })
}

fn marginal<L: Lists, W: Words>(
    state: State,
    widths: Widths,
    lent: &mut [f64],
    words: &mut W,
) -> Option<bool> {
    let count = size(words)?;
    let bit_count = size(words)?;
    let list = listed::<_, L, W>(count, widths.qubits, words)?;
    let bit_list = listed::<_, L, W>(bit_count, widths.qubits, words)?;
    let qubits = list.get(..count)?;
    let bits = bit_list.get(..bit_count)?;
    worked(lent, words, |work| {
        Answered::from(queries::marginal_probability(
            state.n,
            state.entries,
            state.modes,
            qubits,
            bits,
            work,
        ))
    })
}

fn probability<W: Words>(state: State, lent: &mut [f64], words: &mut W) -> Option<bool> {
    let low = words.word()?;
    let high = words.word()?;
    worked(lent, words, |work| {
        Told::from(queries::probability(state.n, state.entries, state.modes, low, high, work))
    })
}

// The output's words stand after the answer.
fn sample<L: Lists, W: Words>(
    state: State,
    widths: Widths,
    lent: &mut [f64],
    words: &mut W,
) -> Option<bool> {
    let shots = size(words)?;
    let draw_count = size(words)?;
    let length = size(words)?;
    let draw_list = listed::<_, L, W>(draw_count, widths.draws, words)?;
    let draws = draw_list.get(..draw_count)?;
    let out_words = L::stored_in(length, widths.output)?;
    let mut out_space = [7u64; OUT];
    let out = out_space.get_mut(..length)?;
    let same = worked(lent, words, |work| {
        Told::from(queries::sample(state.n, state.entries, state.modes, shots, draws, work, out))
    })?;
    let written = out_space.get(..out_words)?;
    Some(compare(written, words).is_ok() && same)
}
