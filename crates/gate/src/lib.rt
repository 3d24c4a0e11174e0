// Complex numbers, 2 by 2 and 4 by 4 matrices by value, and their products: gate.rs of the original
// but for its named gates, and the small matrix products of its detect.rs.

#![tactic(auto)]

mod complex; // a complex number is a struct of two floats, as num-complex has it
mod matrix; // matrices as structs of rows, and their products
mod given; // matrices in bytes, as a tape gives them
mod lent; // matrices in a lent slice of floats
mod size; // what matrices of both sizes have in common

pub use complex::Complex;
pub use matrix::{Mat2, Mat4, Row2, Row4, kron, mat4_swap_qubits, time_step};
pub use size::Matrix;
