//! The field of 256 elements that RAID P+Q computes in.
//!
//! A byte is a polynomial over bits. The sum of two elements is their XOR, and the product that of
//! polynomials, reduced by `x^8 + x^4 + x^3 + x^2 + 1` (Anvin, The mathematics of RAID-6). The powers
//! of 2 run through all elements but 0. No call takes memory.
#![tactic(auto)]

mod addition;
mod elements;
pub mod lanes;
mod products;
mod tables;

pub use addition::add;
pub use elements::{inverse, mul, power};
pub use products::add_scaled;
