//! What the metadata server keeps through a crash, as entries of a journal.
//!
//! An [`Entry`] is one change of what is kept. A [`Record`] lists the entries of a step, and has one spelling in XDR. What
//! entries make of a server is a definition in `specs/Applying.antt`.
#![tactic(auto)]

mod applied;
mod entry;
mod fields;
mod lists;
mod reading;
mod record;
mod writable;
mod writing;

pub use applied::{Applied, MAX_FILES};
pub use entry::{
    Counters, DriveEntry, Entries, Entry, FileChange, FileEntry, Placed, Places, SlotEntry,
};
pub use fields::MAX_ANSWER;
pub use record::Record;
pub use writable::is_writable;
