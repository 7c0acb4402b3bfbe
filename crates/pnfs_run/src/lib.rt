//! Runs the program's commands over any source, sink, links, ports, clock and disk: scenarios, structures, and the parties of
//! a cluster over a network.
#![tactic(auto)]

mod network;
mod party;
mod status;
mod stored;
mod top_call;

/// What a drive that has a store is lent, and so any command.
pub use drive_loop::Lent;
/// Scenarios and their transcripts, by which those who call `run` choose how components are placed, and tell how a run stopped.
pub use osd_replay as replay;
pub use status::Status;
pub use top_call::run;
