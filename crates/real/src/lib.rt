// Real matrices: maps of two and of four indices by value, and a square one in lent entries as one value.

#![tactic(auto)]

mod entries; // a square matrix in lent entries, and an entry of one in a slice
mod maps; // maps, as structs of rows

// for the crates above, which meet what they require
pub use entries::{Square, entry, put};
pub use maps::{Map2, Map4, Real2, Real4};
