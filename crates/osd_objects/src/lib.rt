//! The objects of a drive: sparse bytes, attributes, and the lanes of their holders.
//!
//! A [`Store`] keeps objects by number, which share a capacity. An object has bytes, a policy access
//! tag (RFC 5664 13.4), attributes, and a lane for each holder that changed it. Bytes are kept
//! in pages of 4,096, those alone that a write touched; what was never written is 0 and takes no
//! memory. What an object takes of the capacity is its length all the same.
//!
//! A contract sees the bytes of an object as one list. Calls that change an object ask for what their
//! caller can test: [`Store::state`], [`Store::free`], [`Store::lane`] and [`Store::has_attr`] tell it.
#![tactic(auto)]

mod attributes;
mod lanes;
mod object;
mod pages;
mod sparse;
mod store;

pub use attributes::{FIRST_USER_ATTRIBUTE, MAX_ATTRIBUTES};
pub use lanes::{LaneEntry, MAX_LANES};
pub use object::ObjectState;
pub use store::Store;
