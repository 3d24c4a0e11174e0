// f64 as IEEE 754 and Rust's methods have it, each function equal to a definition: the square root,
// what goes by sign and order, and numbers as bits and bytes. Only a read of bytes asks anything of
// its caller: that the bytes are there.

#![tactic(auto)]

mod bits; // bits.rt: f64 from and to its bits, little-endian numbers in bytes
mod order; // order.rt: abs, max, min, clamp
mod root; // root.rt: the square root

pub use bits::{SIGN, f64_at, from_bits, to_bits, u16_at, u64_at};
pub use order::{abs, clamp, max, min};
pub use root::sqrt;
