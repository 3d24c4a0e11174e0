// A map applied to the state, 001's `apply_local` with its `det`: the covariance m on the map's rows and columns,
// and the postponed signs d, settled on its own rows and turned for all later modes. Maps of one and of two modes have each their own functions,
// since maps and rows are structs of floats by value, of two sizes, and the loops of each size are laid out for the compiler in their own way.

#![tactic(auto)]

mod both; // both steps of a map of one mode
mod columns; // the columns step of a map, and both steps of one of two modes
mod det; // the determinant of a map
mod local; // a map applied to the state
mod rows; // the rows step of a map of two modes
mod signed; // the state in lent places as one value
mod signs; // the signs d settled and turned

// for `state`, which meets what they require
pub use local::{apply_local2, apply_local4};
pub use signed::Signed;
// for `plain`, which does the same without postponed signs
pub use both::both2;
pub use columns::both4;
pub use det::{det2, det4};
pub use signs::negate_all;
