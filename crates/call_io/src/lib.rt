//! The dealings of one call of a client with the drives.
//!
//! Under the grant that covers it a call reads, or gathers and writes: it sends commands to the drives, takes their
//! replies, works on where drives don't answer, and ends or needs the metadata server. What each step does is stated
//! by the definitions of `client_rules`; here it is done at the cost of what comes and goes, whatever is awaited.
#![tactic(auto)]

mod begin;
mod moves;
mod phase;
mod probing;
mod reading;
mod replies;
mod sending;
mod timeouts;
mod waiting;
mod writing;

pub use begin::begin_call;
pub use call_commands::{PendingCommands, WriteQueue};
pub use moves::{clipped_span, end_or_report};
pub use phase::{CallIo, CallMove, CallPhase, CallTurn};
pub use replies::{errno_of, error_at, take_reply};
pub use timeouts::{report_of, timed_out};
