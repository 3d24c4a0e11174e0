// The plain engine: `apply` without postponed signs. It holds the covariance alone, and turns all later rows and columns at once. Nobody computes with it:
// it stands beside the engine, in a proof (crate `postponed`) and in tests, as one that has no postponed turn to lose.

#![tactic(auto)]

mod turn; // the later rows and columns turned
mod plain; // an operation applied to the matrix

pub use plain::apply;
