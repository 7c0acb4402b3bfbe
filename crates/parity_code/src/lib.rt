//! Parity over the rows of a stripe: none, XOR (RAID 4 and 5), and P+Q.
//!
//! A stripe is a list of rows of one length, first the data, then P, then Q. Its codes go column by
//! column, over byte `k` of each row: P is the sum of the data bytes `D_i`, and Q that of `2^i D_i`, in the
//! field of 256 elements (Anvin, The mathematics of RAID-6). All calls work in place, and take no memory.
#![tactic(auto)]

mod code;
mod columns;
mod decoder;
mod delta;
mod encoder;
mod erasures;
mod repair;
mod sums;

pub use code::{Code, CodeErr};
pub use decoder::decode;
pub use delta::parity_delta;
pub use encoder::encode;
