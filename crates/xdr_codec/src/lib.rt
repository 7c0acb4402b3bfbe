//! The items of XDR (RFC 4506), read from bytes and written.
//!
//! A [`Reader`] takes one item after another from the front of its bytes, and a [`Writer`] adds one
//! after another at the end of its own. What an item looks like stands in `specs/Items.antt`, apart
//! from both. Each item has one spelling, and none begins another of its kind: padding other than
//! zero and a bool other than 0 or 1 are refused, though RFC 4506 leaves the padding's reader free.
#![tactic(auto)]

mod err;
mod items;
mod padding;
mod reader;
mod writer;

pub use err::XdrErr;
pub use reader::Reader;
pub use writer::Writer;
