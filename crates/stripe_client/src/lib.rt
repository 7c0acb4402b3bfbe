//! A client of files that are striped over object drives (RFC 5664).
//!
//! [`ClientCore`] is a client without a network: it is given calls, messages and timeouts, and says what goes out and
//! how each call ended. Its rules stand in `client_rules`; each public call says with them what it does.
//!
//! [`State`] is what a client keeps, and [`Made`] what a step has made so far: [`turn`] and [`apply`] say what
//! becomes of the pending call, [`progress`] sends the request that is due, and [`close`] spells what goes out.
#![tactic(auto)]

mod answers;
mod asking;
mod begin;
mod calling;
mod client;
mod driving;
mod outstanding;
mod sending;
mod state;
mod stepping;
mod turning;

pub use asking::progress;
pub use client::ClientCore;
pub use client_rules::{Awaits, CallErr, CallOp, Outcome, Why};
pub use outstanding::Outstanding;
pub use sending::{CStep, Sends, Sent, close, push_commands, push_request};
pub use state::{Made, PendingCall, State};
pub use turning::{apply, end, go_on, turn};
