// The state that calls are on, and the plain engine's matrix beside it.
use arrayvec::ArrayVec;
use laws::OP_PLACES;
use state::Told;
use stored::values::{Stored, Word, compare, list};
use stored::words::{Words, size};
use stored_queries::asked::{Query, State, Widths};

const PLACES: usize = 288; // of the largest state, and of the largest work

const QUBITS: usize = 8; // of each list of qubits, of the mode table too

const OPERATION: usize = OP_PLACES + 2; // places in which an operation is stored

// In so many words each list of a query is stored.
const WIDTHS: Widths = Widths {
    qubits: QUBITS,
    draws: 32,
    output: 16,
};

// A state's n, its slice and its mode table; and the plain engine's slice, which starts as the state's, with what it was then: in a list that has operations
// for both, the state's signs are all 1.0 there.
#[derive(Drop)]
pub struct Held {
    n: usize,
    entries: ArrayVec<f64, PLACES>,
    modes: ArrayVec<u16, QUBITS>,
    plain: ArrayVec<f64, PLACES>,
    first: ArrayVec<f64, PLACES>,
}

// An operation's places, some of which may not be lent, and how many are.
fn operation<W: Words>(words: &mut W) -> Option<([f64; OPERATION], usize)> {
    let length = size(words)?;
    Some((list(words)?, length))
}

// Whether two entries are the same, zeros of either sign being one, since -0.0 + 0.0 is 0.0, and all NaNs, which have one word.
fn is_same_entry(a: f64, b: f64) -> bool {
    (a + 0.0).word() == (b + 0.0).word()
}

impl Held {
    // A state of no qubits, on which calls are before the list has another.
    pub fn none() -> Held {
        Held {
            n: 0,
            entries: ArrayVec::new(),
            modes: ArrayVec::new(),
            plain: ArrayVec::new(),
            first: ArrayVec::new(),
        }
    }

    // The state of a record; nothing where it is too large.
    pub fn read<W: Words>(words: &mut W) -> Option<Held> {
        let n = size(words)?;
        let length = size(words)?;
        let listed = size(words)?;
        let table: [u16; QUBITS] = list(words)?;
        let mut held = Held::none();
        held.n = n;
        held.modes.try_extend_from_slice(table.get(..listed)?).ok()?;
        for _ in 0..length {
            held.entries.try_push(f64::read(words)?).ok()?;
        }
        let entries = held.entries.as_slice();
        held.plain.try_extend_from_slice(entries).ok()?;
        held.first.try_extend_from_slice(entries).ok()?;
        Some(held)
    }

    // Whether an operation's answer agrees: number, place, and the value 0.0.
    pub fn apply<W: Words>(&mut self, words: &mut W) -> Option<bool> {
        let (places, length) = operation(words)?;
        let told = Told::from(state::apply(
            self.n,
            self.entries.as_mut_slice(),
            self.modes.as_slice(),
            places.get(..length)?,
        ));
        Some(compare(&[told.number, told.place, told.value.word()], words).is_ok())
    }

    // The same of the plain engine, whose answer has a number and a place.
    pub fn apply_plain<W: Words>(&mut self, words: &mut W) -> Option<bool> {
        let (places, length) = operation(words)?;
        let told = Told::from(plain::apply(
            self.n,
            self.plain.as_mut_slice(),
            places.get(..length)?,
        ));
        Some(compare(&[told.number, told.place], words).is_ok())
    }

    // Whether the state's slice is what the words are.
    pub fn holds<W: Words>(&self, words: &mut W) -> bool {
        compare(self.entries.as_slice(), words).is_ok()
    }

    pub fn answers<W: Words>(&self, query: Query, words: &mut W) -> Option<bool> {
        let state = State {
            n: self.n,
            entries: self.entries.as_slice(),
            modes: self.modes.as_slice(),
        };
        let mut work = [7.0; PLACES];
        query.agrees_in(state, WIDTHS, &mut work, words)
    }

    // Operators, and entries of the covariance.
    fn sizes(&self) -> Option<(usize, usize)> {
        let dim = self.n.checked_mul(2)?;
        Some((dim, dim.checked_mul(dim)?))
    }

    // Whether the plain engine's matrix is what the words are, and what lies behind it is as it was.
    pub fn is_matrix<W: Words>(&self, words: &mut W) -> Option<bool> {
        let (_, places) = self.sizes()?;
        let (matrix, behind) = self.plain.split_at_checked(places)?;
        let (_, first) = self.first.split_at_checked(places)?;
        let kept = behind.iter().zip(first).all(|(x, y)| x.word() == y.word());
        Some(compare(matrix, words).is_ok() && kept)
    }

    // Whether the engine's covariance, m times the sign of the row and then that of the column, is the plain engine's matrix.
    pub fn is_covariance(&self) -> Option<bool> {
        let (dim, places) = self.sizes()?;
        let (m, rest) = self.entries.split_at_checked(places)?;
        let signs = rest.get(..dim)?;
        let matrix = self.plain.get(..places)?;
        let rows = m
            .chunks_exact(dim.max(1))
            .zip(matrix.chunks_exact(dim.max(1)));
        Some(
            rows.zip(signs).all(|((row, other), sign)| {
                row.iter()
                    .zip(other)
                    .zip(signs)
                    .all(|((x, y), d)| is_same_entry(*x * *sign * *d, *y))
            }),
        )
    }
}
