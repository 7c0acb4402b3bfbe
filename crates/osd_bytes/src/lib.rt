//! The ends through which bytes come from the outside and go to it.
//!
//! It has the traits [`Source`], [`Sink`], [`Links`] and [`Clock`] with ends in memory, the reading of lines, records on
//! streams, exchanges of a message for a record, and the records of an accepted connection. A drive and a server both
//! take these up to the connection's end, a call that fails, a record that is too long, or [`MAX_TAKEN`] bytes. The
//! lists of `osd_lists` are named here too.
#![tactic(auto)]

mod answer;
mod clock;
mod conversation;
mod ends;
mod exchanges;
mod header;
mod in_memory;
mod inbox;
mod lines;
mod links;
mod mem_links;
mod outbox;
mod put;
mod records;
mod serve_err;
mod sink;
mod source;

pub use answer::asked;
pub use clock::{Clock, MemClock};
pub use ends::{Accepted, Asking};
pub use exchanges::{ExchangeErr, exchange};
pub use in_memory::{MemSink, MemSource};
pub use inbox::{Inbox, MAX_TAKEN};
pub use lines::{LineErr, LineReader, MAX_INPUT, MAX_LINE, MAX_READ};
pub use links::{Links, Peer, Peers};
pub use mem_links::MemLinks;
pub use osd_lists::{
    ByteLists, Bytes, Memory, Node, Numbers, Rows, Sequence, Times, first_nonzero_in, put_at,
    put_u16, put_u32, put_u64, u16_at, u32_at, u64_at,
};
pub use outbox::put_record;
pub use put::{PutErr, put_all};
pub use records::{MAX_FRAGMENTS, MAX_RECORD, RecordErr, Records, frame, joins_fragments};
pub use serve_err::ServeErr;
pub use sink::Sink;
pub use source::{Fault, Source};
