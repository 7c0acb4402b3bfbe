//! The object drive: verdicts on commands, their effects and replies.
//!
//! A drive judges each command by a table of rows, each with a test of its own: the first that applies
//! is the [`Verdict`], and where none does the command is performed. A change that was performed is
//! kept, with its short reply, in its holder's lane of the object, so that a repeat gets that reply
//! again. `docs/rules/DRIVE.md` has the table, the effects and the replies.
//!
//! The commands are this project's own profile of those of SCSI object storage (OSD-2, ANSI INCITS
//! 458); the tag that a capability must name is the policy access tag of RFC 5664 13.4.
#![tactic(auto)]

mod drive;
mod effects;
mod keys;
mod known;
mod laws;
mod limits;
mod replies;
mod rows;
mod store_view;
mod verdict;

pub use drive::DriveCore;
pub use keys::{DriveKey, KeyTable};
pub use laws::answers_repeats;
pub use limits::{
    FIRST_FORMAT, FIRST_PARTITION, MAX_END, MAX_LENGTH, MAX_OBJECTS, MAX_TAG, MAX_VALUE,
};
pub use verdict::Verdict;
