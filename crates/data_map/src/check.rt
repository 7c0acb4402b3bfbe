use thiserror::Error;

/// The most components of a map.
pub const MAX_COMPONENTS: u32 = 1_024;

/// The most positions of a group.
pub const MAX_WIDTH: u32 = 64;

/// The most stripes of a group before the next group follows.
pub const MAX_DEPTH: u32 = 1_048_576;

/// The longest stripe unit in bytes.
pub const MAX_STRIPE_UNIT: u64 = 1_048_576;

/// RAID 0: no parity (`PNFS_OSD_RAID_0`, RFC 5664 3.4 and 5.4.1).
pub const RAID_0: u32 = 1;

/// RAID 4: a parity unit in each stripe, at the last position of its group (RFC 5664 5.4.2).
pub const RAID_4: u32 = 2;

/// RAID 5: a parity unit in each stripe, one position further to the front with each stripe (RFC
/// 5664 5.4.3).
pub const RAID_5: u32 = 3;

/// RAID P+Q: two parity units in each stripe, at the last positions of its group (RFC 5664 5.4.4).
pub const RAID_PQ: u32 = 4;

/// A data map as it is written down, not yet checked (`pnfs_osd_data_map4`, RFC 5664 5.1).
#[derive(Clone, Copy, PartialEq, Eq)]
pub struct RawMap {
    /// The number of components.
    pub comps: u32,
    /// The length of a stripe unit in bytes.
    pub unit: u64,
    /// The positions of a group, or 0 where all positions are one group.
    pub width: u32,
    /// The stripes of a group before the next group follows, or 0 without groups.
    pub depth: u32,
    /// The further replicas of each component.
    pub mirrors: u32,
    /// The RAID algorithm: [`RAID_0`], [`RAID_4`], [`RAID_5`] or [`RAID_PQ`].
    pub algorithm: u32,
}

/// Why a map can't be used; of several reasons the first in this order.
#[derive(Clone, Copy, Debug, PartialEq, Eq, Error)]
pub enum MapErr {
    /// The stripe unit is 0 or above [`MAX_STRIPE_UNIT`].
    #[error("the stripe unit is 0 or too long")]
    Unit,
    /// There are more than [`MAX_COMPONENTS`] components.
    #[error("there are too many components")]
    TooMany,
    /// There is no component.
    #[error("there is no component")]
    TooFew,
    /// The number of components isn't a multiple of the replicas of a position.
    #[error("the components aren't whole positions")]
    Multiple,
    /// A group has more than [`MAX_WIDTH`] positions or no data unit, or the groups don't take up the
    /// positions.
    #[error("the groups are too wide or too narrow, or don't take up the positions")]
    Width,
    /// There is a depth without groups, or with groups none or one above [`MAX_DEPTH`].
    #[error("the depth is none of this map's groups")]
    Depth,
}
