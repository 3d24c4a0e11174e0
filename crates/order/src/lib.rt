// The order of the wires: the edges, `path_order` and the choice in `compile` of the original's detect.rs. Matchgate pairs weigh their block count; a greedy
// path cover, heaviest pair first, replaces the identity only if it covers strictly more. Of the lent work it takes the marks
// alone; the number of edges is passed, since it grows while they are counted. What stands in the columns (`EdgesThere`, `Chains`, `EndsThere`) is asked where
// it is used and is no fact of the value: it holds between two steps only.

#![tactic(auto)]

mod marks; // the lent marks as one value
mod edges; // pair weights: counted, summed
mod sort; // the edges, heaviest first
mod keys; // the path cover, as a key for each wire
mod choice; // the order, and the choice

pub use choice::{Ordering, choose_order, order_work};
