//! A metadata server that keeps itself on a disk: after a crash at any moment it is opened again as it was.
//!
//! A journal is a log of records, each a list of entries that say what a step changed. The server that it stands for is the one
//! that these make, one after the other, from a server without drives and files. [`JournaledServer`] has the record of a step on
//! the disk before it answers, so before anything that the step sends goes out.
#![tactic(auto)]

mod dealing;
mod drives;
mod errors;
mod header;
mod laws;
mod made;
mod making;
mod opening;
mod orders;
mod record;
mod server;

pub use errors::{JournalErr, JournalFileErr};
pub use laws::contents_stand_for_one_server;
pub use made::{MadeObject, MadeObjects};
pub use server::JournaledServer;
