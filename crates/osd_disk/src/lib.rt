//! A disk as a log sees it: which bytes a read gives, and which a crash at any moment may leave.
//!
//! The trait [`Disk`] is what is asked of a disk. [`MemDisk`] is one in memory, for tests and for
//! worlds: it can fail at each call, and be crashed between any two. The calls of [`FaultlessDisk`] don't fail,
//! and it keeps its bytes alone.
#![tactic(auto)]

mod calls;
mod disk;
mod faultless;
mod images;
mod mem_disk;
mod past;
mod whole;

pub use calls::Call;
pub use disk::{Disk, DiskErr};
pub use faultless::FaultlessDisk;
pub use mem_disk::MemDisk;
pub use whole::read_whole;
