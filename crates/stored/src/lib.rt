// Stored results, for the programs that replay them. A list is a file of words of eight bytes, the lowest
// first; a record is a tag and what follows it; the tag 0 ends the list. docs/TESTING.md says how the lists
// were made. Each program has its own loop over a list: what it does with a record, and its tallies, are most of it.

#![tactic(auto)]

mod lent; // lent.rt: a stored call in lent work
mod lists; // lists.rt: a list, read from its file
mod rooms; // rooms.rt: how long the slices are that a stored call is lent
mod tally; // tally.rt: how many comparisons agree
pub mod records; // records.rt: the records of a list
pub mod values; // values.rt: what words stand for
pub mod words; // words.rt: the words of a record, one after the other

pub use lent::worked;
pub use lists::{named_list, read_list};
pub use records::MAX_RECORDS;
pub use rooms::{FLOATS, MARKS, PLACES, STATE, WORK};
pub use tally::{Tally, print_tally};

#[cfg(test)]
mod tests;
