/// The bit of [`Capability::rights`](crate::Capability) that lets its holder make the object.
pub const RIGHT_CREATE: u32 = 1;

/// The bit for reading bytes.
pub const RIGHT_READ: u32 = 2;

/// The bit for writing bytes.
pub const RIGHT_WRITE: u32 = 4;

/// The bit for reading attributes.
pub const RIGHT_GET_ATTR: u32 = 8;

/// The bit for setting attributes.
pub const RIGHT_SET_ATTR: u32 = 16;

/// The bit for raising the policy access tag.
pub const RIGHT_SET_TAG: u32 = 32;
