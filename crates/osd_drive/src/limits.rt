/// The most bytes that one command may read or write.
pub const MAX_LENGTH: u64 = 262_144;

/// The end of the longest object.
pub const MAX_END: u64 = 17_825_792;

/// The most bytes of an attribute.
pub const MAX_VALUE: usize = 256;

/// The most objects of a drive.
pub const MAX_OBJECTS: u64 = 65_536;

/// The greatest tag of an object, which no SET TAG raises.
pub const MAX_TAG: u32 = 4_294_967_295;

/// The partition of drive 0; that of drive d is d more.
pub const FIRST_PARTITION: u64 = 65_536;

/// The least format of capabilities.
pub const FIRST_FORMAT: u8 = 1;
