// The Gaussian engine, from a tape's bytes to the state (`GaussianState::from_circuit` of the original's state.rs).

#![tactic(auto)]

mod questions; // the questions 10 to 15
mod engine; // public `run`, with the register claim, the signs, and the plain engine beside it

pub use engine::run;
