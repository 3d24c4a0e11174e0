// The records of a list: states, and calls on the state that is held.
use stored::records::{AnyTag, counted};
use stored::words::Plain;
use stored_queries::asked::Query;

#[derive(Clone, Copy)]
pub enum Call {
    State, // another state
    Apply,
    Holds, // what the state's slice must be now
    Asked(Query),
    Matrix, // what the plain engine's matrix must be now
}

impl AnyTag for Call {
    const RECORDS: usize = 4096;

    fn tag_of(word: u64) -> Option<Call> {
        match word {
            1 => Some(Call::State),
            2 => Some(Call::Apply),
            3 => Some(Call::Holds),
            8 => Some(Call::Matrix),
            tag => Some(Call::Asked(Query::of(tag)?)),
        }
    }

    // The first word counts the others.
    fn length_of(_word: u64, words: Plain) -> usize {
        counted(words, 0)
    }
}
