// The Majorana maps of one and two modes, with their residuals: detect.rs of the original from
// `majoranas2` to `majorana_map2`, and its tests on the particle number.

#![tactic(auto)]

mod maps; // a map of Majorana operators with its residual, and a row of one
mod operators; // the Majorana operators of two modes, and products by them and by SWAP
mod one_mode; // the map of one mode
mod two_modes; // the map of two modes
mod numbers; // whether a map commutes with the particle number

pub use maps::Mapped;
pub use numbers::{commutes_j2, number_conserving4};
pub use one_mode::majorana_map1;
pub use operators::swap4;
pub use two_modes::majorana_map2;
