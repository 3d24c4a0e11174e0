// The constant table of the named gates, as gate.rs of the original has it.

#![tactic(auto)]

mod table; // the exact matrices of the named gates, by code

pub use table::{SWAP, X, Y, matrix_1q, matrix_2q};
