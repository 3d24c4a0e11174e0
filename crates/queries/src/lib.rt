// The queries on a state (001's state.rs): products of Z, marginals, basis indices and samples. Each reads the covariance of the modes
// that it is about into lent work, runs a kernel of `pfaffian` there, and leaves the work zero. A public call asks nothing of its
// caller: what is wrong with n, a slice, a list or the mode table is a refusal. n, state and modes come one by one, as C hands them over; once question 16
// has passed they are one value, `state::Checked`, and the matrix in work is `real::Square`. Marks have MAX_QUBITS places: no heap.

#![tactic(auto)]

mod basis; // basis.rt: the probability of a basis index
mod lists; // lists.rt: the list of a query, as marks of modes
mod marginals; // marginals.rt: the probability of some qubits' bits
mod matrices; // matrices.rt: the matrix of the modes left, in work
mod number; // number.rt: a number and the row where its Pfaffian stopped
mod products; // products.rt: products of Z
mod samples; // samples.rt: shots

pub use basis::probability;
pub use marginals::marginal_probability;
pub use number::{Answered, Number};
pub use products::expectation_z_product;
pub use samples::sample;
