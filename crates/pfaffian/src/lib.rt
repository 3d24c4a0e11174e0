// Kernels on a square matrix in lent work, for the queries and samples of a state: the Pfaffian, and one shot of a sample.
// Each leaves its matrix as work and anything after it as it was. The matrix is one value, `real::Square`; all is inlined where it is made, so that no
// loop reads the slice and the dimension anew.

#![tactic(auto)]

mod pairs; // pairs.rt: the Pfaffian
mod shots; // shots.rt: one shot

pub use pairs::{End, pfaffian};
pub use shots::shot;
