//! The command of a metadata server that keeps itself in a file: it reads the cluster text, listens at its own address,
//! opens its journal or makes one, sends what the opening gives to send, adds the drives and makes the files of the
//! cluster that the journal lacks, and serves connections.
#![tactic(auto)]

mod again;
mod beginning;
mod command;
mod differences;
mod lacking;
mod opened;
mod preparing;
mod stored_server;

pub use command::stored_server_command;
pub use lacking::{add_lacking, make_lacking};
pub use stored_server::StoredServer;
