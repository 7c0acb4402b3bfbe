//! The command of a client over a network: it reads the cluster text, carries out one call, or hands the server one
//! order, and tells what came of it.
//!
//! Each message that the client sends goes to its node over a connection of its own, and the record that comes is given
//! to the client ([`deal`]). A drive of which no record comes is asked once more before its component times out. A client
//! that isn't given the number of its first request learns one that is fresh.
#![tactic(auto)]

mod calls;
mod command;
mod drive;
mod exchanges;
mod inputs;
mod lines;
mod notices;
mod numbering;
mod orders;
mod reports;
mod server;
mod work_ends;

pub use command::client_command;
pub use drive::NONCE_AT;
pub use exchanges::{DealErr, deal};
pub use notices::{Notice, Notices};
pub use work_ends::{ClientEnd, Refusal};
