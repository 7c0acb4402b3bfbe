// The numbers that the rules name.

/// The most components that a file has.
pub const MAX_FILE_COMPONENTS: u32 = 64;

/// The most columns of a stripe that are worked at once, and so the most bytes of a READ or a WRITE.
pub const MAX_PIECE: u64 = 262_144;

/// The greatest length that an object has.
pub const MAX_OBJECT_LENGTH: u64 = 17_825_792;

/// The greatest number of a client.
pub const MAX_CLIENT: u32 = 15;

/// How many seconds of the server's clock a grant lasts.
pub const LEASE: u64 = 90;

/// The greatest expiry, which never passes.
pub const NO_EXPIRY: u64 = 18_446_744_073_709_551_615;

/// The greatest tag, which no fence raises.
pub const GREATEST_TAG: u32 = 4_294_967_295;

/// The greatest number of a grant.
pub const GREATEST_GRANT: u32 = 4_294_967_295;

/// The greatest sequence number of a request.
pub const GREATEST_SEQUENCE: u32 = 4_294_967_295;

/// The detail of an answer that is refused for no component's sake.
pub const NO_COMPONENT: u32 = 4_294_967_295;

/// The detail of the answer to a report that was taken as a loss.
pub const LOSS_TAKEN: u32 = 1;

/// The holder that the server's own capabilities name.
pub const SERVER_HOLDER: u32 = 4_294_967_295;

/// The sum of all rights.
pub const ALL_RIGHTS: u32 = 63;

/// The rights of a grant for reading.
pub const READ_RIGHTS: u32 = 2;

/// The rights of a grant for writing.
pub const WRITE_RIGHTS: u32 = 6;

/// The length of a range that takes in a whole object.
pub const WHOLE_OBJECT: u64 = 18_446_744_073_709_551_615;

/// The length of a range that takes in a whole file.
pub const WHOLE_FILE: u64 = 18_446_744_073_709_551_615;

/// How many numbers recalls have before they begin again.
pub const RECALL_NUMBERS: u64 = 4_294_967_296;

/// The version of the drives' keys.
pub const KEY_VERSION: u16 = 1;

/// The attribute of an object that is its length.
pub const LENGTH_ATTRIBUTE: u32 = 1;

/// Drive d has this partition and d.
pub const FIRST_PARTITION: u64 = 65_536;

/// The first number of an object.
pub const FIRST_OBJECT: u64 = 65_536;

/// Where the counters of 64 bits have no room any more.
pub const COUNTERS_END: u64 = 9_223_372_036_854_775_808;

/// The number of the verdict that a command was performed.
pub const PERFORMED: u16 = 0;

/// The number of the verdict that a new object is there already.
pub const EXISTS: u16 = 8;

/// The number of the verdict that an object has another tag.
pub const OTHER_TAG: u16 = 9;

/// The number of the verdict that a drive has no space.
pub const NO_SPACE: u16 = 11;

/// The number of the verdict that a capability's format is below the drive's least.
pub const OLD_FORMAT: u16 = 17;
