// The state of the engine, 001's state.rs: the covariance m of the Majorana operators with its postponed
// signs d, in one slice that the caller lends, and the calls on it. A public call asks nothing of its
// caller: what is wrong with n, a slice or the mode table is a refusal. n, state and modes come one by one, as C hands them over; inside they are one value
// for who reads, `Checked`, and the slice is one for who applies, `local::Signed`.

#![tactic(auto)]

mod answer; // why a call is refused
mod application; // an operation applied to the state
mod check; // question 16
mod checked; // a state that passed it
mod operation; // operations, decoded from their places
mod told; // answers as plain numbers
pub mod vacuum; // the first state: for the crates above, like those named last

// for users
pub use answer::Refusal;
pub use application::apply;
pub use told::Told;
// for the crates above, which meet what they require
pub use application::apply_places;
pub use checked::Checked;
pub use operation::{Operation, decode};
