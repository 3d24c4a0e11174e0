// Resolving the splits (detect.rs of the original: `fuse`, its second loop and what follows): blocks
// in time order take the one-qubit gates before them and the best cuts of those after them, are
// classified, and become items, which stand in the lent work where their blocks stood. That the slots of the gates from i on are slots (`SlotsFrom`) goes with
// the loop's i and is no fact of the value: the gates before it have become items.

#![tactic(auto)]

mod cuts; // closing tails and their cuts
mod choose; // the best pair of cuts
mod settle; // what an event leaves behind
mod events; // all events in time order
mod slots; // the slots before the first event and after the last
mod whole; // all of it

pub use choose::Rules;
pub use settle::Tally;
pub use whole::fuse_events;
