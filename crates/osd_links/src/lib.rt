//! The real ends: standard input and output, the system's clock, connections over TCP, and a file as a disk.
//!
//! They are the trusted edge of the program. They tell nothing of the bytes that they hand on; they
//! only count the calls that failed.
#![tactic(auto)]

mod clock;
mod faults;
mod file_causes;
mod file_disk;
mod patience;
mod printable;
mod read_ahead;
mod resting;
mod stopwatch;
mod streams;
mod tcp;
mod timed;
mod write_ahead;

pub use clock::SystemClock;
pub use faults::{Cause, LinkFault, Party};
pub use file_causes::FileCause;
pub use file_disk::FileDisk;
pub use patience::{
    CALLER_PATIENCE_SECONDS, CLIENT_PATIENCE_SECONDS, DRIVE_PATIENCE_SECONDS, Limits, Patience,
    RECORD_SECONDS, REST_SECONDS, SERVER_PATIENCE_SECONDS,
};
pub use printable::Printable;
pub use streams::{StdSink, StdSource};
pub use tcp::TcpLinks;
