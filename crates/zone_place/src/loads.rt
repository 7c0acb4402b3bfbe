/// A drive that was put into a zone, and what it holds.
#[derive(Clone, Copy, PartialEq, Eq)]
pub struct ZoneLoad {
    /// The number of the drive.
    pub drive: u32,
    /// The drive wasn't declared as failed.
    pub online: bool,
    /// How many present components stand on it.
    pub objects: u32,
    /// The zone that it is in: a room, a rack or a power supply.
    pub zone: u32,
}

/// A component of a file, and the drive on which it stands, or last stood if it is missing.
#[derive(Clone, Copy, PartialEq, Eq)]
pub struct Holder {
    /// The number of the component.
    pub component: u32,
    /// The number of the drive.
    pub drive: u32,
}

/// The most drives over which a file is spread.
pub const MAX_DRIVES: usize = 64;
