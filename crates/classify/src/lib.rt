// What a two-qubit block is: diagonal blocks and their phases, and the class of a block, as detect.rs
// of the original has them up to `classify2`, with the paper's phase in the place of its angle.

#![tactic(auto)]

mod diagonal; // the off-diagonal norm, phases and rotations
mod classify; // what a two-qubit block is

pub use classify::{Class2, Kind2, Rank, classify2};
pub use diagonal::{interaction, offdiag4, phase_a, phase_b, rotation_of, unit};
