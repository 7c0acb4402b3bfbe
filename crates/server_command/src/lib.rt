//! The command of a metadata server over a network: it reads the cluster text, listens at its own address, makes the
//! cluster's files, and serves connections.
//!
//! Making a file takes one exchange for each CREATE, and for what its answer brings. An exchange that gives no record
//! ends that, and so does a drive that holds the object already: a note names the drive.
//!
//! Each record that comes on a connection is handled at a time of its own. What the server notes then is told through
//! the links, and what it gives to send is worked at once: a command goes to its drive in an exchange, whose record is
//! handled too; what is for who sent the record is put on the accepted connection; a message to any other client is
//! lost.
//!
//! Serving and the making of files are over a [`MetadataServer`]: a server in memory, or one that a disk keeps.
#![tactic(auto)]

mod command;
mod connections;
mod creates;
mod drives;
mod faults;
mod files;
mod messages;
mod metadata_server;
mod notes;
mod records;
mod serve_err;
mod server_stop;
mod service;

pub use command::server_command;
pub use connections::serve;
pub use creates::make_all;
pub use drives::server_of;
pub use files::{FIRST_TAG, make_file, make_files};
pub use messages::work_all;
pub use metadata_server::{MakeErr, MetadataServer, StepErr};
pub use notes::tell_notes;
pub use records::hear_drive;
pub use serve_err::ServerServeErr;
pub use server_stop::ServerStop;
pub use service::serve_told;
