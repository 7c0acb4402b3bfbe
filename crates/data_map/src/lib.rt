//! The data map: on which component, and at which offset in it, each byte of a file lies.
//!
//! A map is first checked; then [`DataMap::place`] gives the place of any byte by arithmetic alone, and
//! [`DataMap::logical`] the byte of any place. Maps have stripe units, groups with a depth, mirrors, and
//! RAID 0, RAID 4, RAID 5 with rotating parity, or RAID P+Q (RFC 5664 5.3 and 5.4; the formulas, in
//! `specs/Striping.antt`, are this project's own).
#![tactic(auto)]

mod check;
mod map;
mod place;
mod ranges;

pub use check::{
    MAX_COMPONENTS, MAX_DEPTH, MAX_STRIPE_UNIT, MAX_WIDTH, MapErr, RAID_0, RAID_4, RAID_5, RAID_PQ,
    RawMap,
};
pub use map::DataMap;
pub use place::Place;
pub use ranges::{Extent, Extents, MAX_FILE_SIZE};
