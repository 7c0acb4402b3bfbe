//! The text that describes a cluster, and what the commands over a network share.
//!
//! The text is a TOML document with the keys `server`, `format`, `[[drive]]` and `[[file]]`: where the drives and the
//! server are reached, and the files that the server makes. [`read_cluster`] reads it or names the first kind of fault
//! in it. A command reads it from a source ([`cluster_from`]), settles its links by it ([`settle_at`]), and says why it
//! stopped ([`CommandStop`]).
#![tactic(auto)]

mod cluster;
mod cluster_document;
mod cluster_source;
mod errors;
mod fields;
mod lines;
mod peers;
mod shape;
mod stop;
mod tables;
mod whole;

pub use cluster::{Cluster, ClusterDrive, ClusterFile, Reader};
pub use cluster_document::read_cluster;
pub use cluster_source::cluster_from;
pub use errors::{ClusterErr, ClusterKind};
pub use fields::{MAX_DRIVES, MAX_FILES};
pub use lines::{put_stop, served_line, stop_of_serving};
pub use peers::{peers_of, settle_at};
pub use stop::CommandStop;
pub use whole::read_whole;
