// The words of a stored run: unpacked, compared, counted; and queries, put to a state.

#![tactic(auto)]

pub mod asked; // asked.rt: queries put to a state
pub mod counts; // counts.rt: how many comparisons agree, and which is the first that does not
pub mod packed; // packed.rt: the words of a record, packed
#[cfg(test)]
mod tests;
