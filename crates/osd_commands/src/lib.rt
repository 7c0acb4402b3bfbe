//! The commands of the object drives and their replies, as bytes.
//!
//! A command is a block of 256 bytes and a payload, a reply one of 40 bytes and a payload; numbers
//! are big-endian. The layouts are this project's own profile of the commands of SCSI object storage
//! (OSD-2, ANSI INCITS 458). A command carries a capability and a check value: [`seal`] makes it, and
//! [`holds`] tells whether it is right under a drive's key. [`seal_with`] and [`holds_with`] do the same
//! with a capability's key that was made ready once for many commands.
#![tactic(auto)]

mod actions;
mod commands;
mod replies;
mod seals;

pub use actions::Action;
pub use commands::{
    Command, CommandBlock, CommandErr, check_len, read_block, read_command, write_command,
};
pub use replies::{Reply, read_reply, write_reply};
pub use seals::{holds, holds_with, seal, seal_with};
