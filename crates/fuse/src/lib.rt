// Fusing, up to the splits (detect.rs of the original: `fuse`, its first loop, and `compress`): the
// gates stand as events in the lent work, two-qubit gates are taken into blocks, and runs of
// diagonal one-qubit gates into one.

#![tactic(auto)]

mod records; // tests on the marks of a record
mod relabel; // the gates of a tape as events on slots
mod passes; // a pass over all events
mod back; // looking back from a gate
mod blocks; // two-qubit gates into blocks
mod runs; // runs of diagonal one-qubit gates into one

pub use blocks::Blocks;
pub use passes::{Pass, run_pass};
pub use records::{block_on, one_on};
pub use relabel::relabel_all;
pub use runs::Runs;
