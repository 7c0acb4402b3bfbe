//! The notes of the metadata server that ask for something, and how a journal tells of them.
//!
//! A note asks for something if bytes may be other than those that were written, or if a component has no drive. A [`Remark`]
//! tells of such a note, or that an operator has dealt with those of a file. It has one spelling in XDR, and changes nothing of
//! what the server is.
#![tactic(auto)]

mod kept;
mod laws;
mod positions;
mod reading;
mod remark;
mod writing;

pub use kept::{KeptNotes, asks, keep_asking, take_remark, told_again};
pub use laws::remarks_are_read_again;
pub use reading::read_remark;
pub use remark::{NOTED, Remark};
pub use writing::{dealt_bytes, note_bytes};
