//! The structures of object-based layouts (RFC 5664): read from XDR, written, and shown.
//!
//! Each structure is a Rust type with the fields of its standard and the two calls of [`Structure`].
//! How it is spelled stands in `specs/Spelling.antt`, apart from reading and writing. A value has one
//! spelling, and no spelling begins another of its type.
#![tactic(auto)]

mod again;
mod cred;
mod device_addr;
mod err;
mod hint;
mod ioerrs;
mod kind;
mod layout;
mod lines;
mod lists;
mod map;
mod objid;
mod parts;
mod show;
mod structure;
mod update;

pub use again::written_again;
pub use cred::{KeySecurity, ObjectCred, OsdVersion};
pub use device_addr::{DeviceAddr, LUN_BYTES, NetAddr, TargetId};
pub use err::LayoutErr;
pub use hint::LayoutHint;
pub use ioerrs::{Errno, IoErr, IoErrs};
pub use kind::{Kind, leaves};
pub use layout::Layout;
pub use objid::{DEVICE_ID_BYTES, ObjId};
pub use parts::{MAX_MEMBERS, MAX_OPAQUE};
pub use structure::{Part, Structure};
pub use update::LayoutUpdate;
