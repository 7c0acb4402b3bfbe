// The numbers that the rules name.

/// The most bytes that a call reads or writes.
pub const MAX_CALL: u64 = 262_144;

/// The most components that a file has.
pub const MAX_FILE_COMPONENTS: u32 = 64;

/// The greatest number of a client.
pub const MAX_CLIENT: u32 = 15;

/// The greatest number of a drive.
pub const MAX_DRIVE: u32 = 63;

/// The most bytes of an answer that a LAYOUTGET allows.
pub const MAX_LAYOUT: u32 = 65_536;

/// How many answers that tell to ask again end a call.
pub const MAX_TRIES: u32 = 3;

/// A grant under which more commands than these were sent covers nothing more.
pub const MAX_COUNT: u64 = 4_000_000_000;

/// How many nonces each grant has.
pub const NONCES: u64 = 4_294_967_296;

/// The greatest sequence number of a request.
pub const GREATEST_SEQUENCE: u32 = 4_294_967_295;

/// A call is refused where fewer sequence numbers than these are left behind the last one.
pub const SPARE_REQUESTS: u32 = 16;

/// The length of a range that takes in a whole file.
pub const WHOLE_FILE: u64 = 18_446_744_073_709_551_615;

/// The detail of an answer that is refused for no component's sake.
pub const NO_COMPONENT: u32 = 4_294_967_295;

/// The detail of the answer to a report that was taken as a loss.
pub const LOSS_TAKEN: u32 = 1;

/// The number of the verdict that a command was performed.
pub const PERFORMED: u16 = 0;

/// The number of the verdict that the drive has no key of the capability's version.
pub const NO_KEY: u16 = 1;

/// The number of the verdict that a check value doesn't hold.
pub const BAD_CHECK_VALUE: u16 = 2;

/// The number of the verdict that a capability is expired.
pub const EXPIRED: u16 = 3;

/// The number of the verdict that a capability doesn't have the right.
pub const NO_RIGHT: u16 = 4;

/// The number of the verdict that a capability is of another object.
pub const OTHER_OBJECT: u16 = 5;

/// The number of the verdict that a command leaves the range of its capability.
pub const OUT_OF_RANGE: u16 = 6;

/// The number of the verdict that there is no such object.
pub const NO_OBJECT: u16 = 7;

/// The number of the verdict that an object has another tag.
pub const OTHER_TAG: u16 = 9;

/// The number of the verdict that a command passes a limit of the drive.
pub const OVER_LIMIT: u16 = 10;

/// The number of the verdict that a drive has no space.
pub const NO_SPACE: u16 = 11;

/// The number of the verdict that an object has no room for a further holder.
pub const LANE_FULL: u16 = 12;
