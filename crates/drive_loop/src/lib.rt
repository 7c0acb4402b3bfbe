//! The commands of a drive, which serves many connections at once: each reads the cluster text, listens at the drive's own
//! address, and serves.
//!
//! [`DriveHandler`] is what answers the records of a drive in the loop of `port_loop`, and [`serve_drive`] that loop.
#![tactic(auto)]

mod command;
mod drive_handler;
mod service;
mod serving;
mod stored_command;

pub use command::drive_command;
pub use drive_handler::DriveHandler;
pub use serving::{MOST_TURNS, serve_drive};
pub use stored_command::{Lent, stored_drive_command};
