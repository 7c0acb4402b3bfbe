//! Capabilities of the object drives: their bytes, and the check values that they give.
//!
//! A capability says what its holder may do with one object. It is the credential of a RFC 5664
//! layout (`oc_capability`, with `oc_capability_key` beside it); its 96 bytes are this project's
//! own profile of the capabilities of SCSI object storage (OSD-2, ANSI INCITS 458). Nobody can alter
//! one without the drive's key: the capability key is an HMAC of the bytes under that key, and each
//! command carries a check value under the capability key. Format 1 computes both over SHA-1,
//! format 2 over SHA-256.
//!
//! No call takes memory.
#![tactic(auto)]

mod keys;
mod layout;
mod rights;

pub use keys::{
    CHECK_BYTES, CapKey, DRIVE_KEY_BYTES, IssuingKey, SHA1_TAG_BYTES, SealingKey, capability_key,
    check_value,
};
pub use layout::{CAPABILITY_BYTES, CapErr, Capability, FORMAT_SHA1, FORMAT_SHA256};
pub use rights::{
    RIGHT_CREATE, RIGHT_GET_ATTR, RIGHT_READ, RIGHT_SET_ATTR, RIGHT_SET_TAG, RIGHT_WRITE,
};
