//! A drive that keeps what it performed on a disk: after a crash at any moment it is opened again as it was.
//!
//! A store is a log whose header names the drive, and whose records are the commands that changed it, in
//! order. The drive that it stands for is the one that performs these, one after the other, from no objects
//! on. [`StoredDrive`] has the record of a change on the disk before it answers the command;
//! [`GatheringDrive`] has the records of several changes there together.
#![tactic(auto)]

mod change;
mod errors;
mod gathering;
mod header;
mod laws;
mod opening;
mod record;
mod store;

pub use errors::StoreErr;
pub use gathering::GatheringDrive;
pub use header::StoreHeader;
pub use laws::contents_stand_for_one_drive;
pub use record::SECOND_FORMAT;
pub use store::StoredDrive;
