// Laws that the other crates cite. They stand in specs/ (definitions) and proofs/ (laws); the code is the bounds alone.

#![tactic(auto)]

mod bounds; // the bounds that more than one crate knows

pub use bounds::{MAX_QUBITS, OP_PLACES};
