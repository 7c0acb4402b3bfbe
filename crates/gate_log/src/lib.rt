//! A log on a disk, which a crash at any moment leaves as it was before a record was added, or with
//! the record.
//!
//! The bytes are a header, then for each record an open gate, its length, its body and a checksum, and
//! last a closed gate. A gate is one byte, which is 0 where it is closed.
#![tactic(auto)]

mod checksum;
mod entries;
mod entry;
mod errors;
mod form;
mod header;
mod laws;
mod log;
mod opening;
mod reader;
mod record;
mod table;

pub use checksum::crc_32;
pub use entries::Entries;
pub use entry::{Entry, MAX_BODY, OPEN_GATE};
pub use errors::LogErr;
pub use form::Form;
pub use header::{HEADER_SIZE, Header};
pub use laws::{contents_are_one_log, turned_bits_show};
pub use log::GateLog;
pub use reader::LogReader;
