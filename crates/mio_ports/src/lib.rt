//! Connections over TCP that stand side by side, by the readiness that `mio` tells.
//!
//! They are a trusted edge of the program, as the ends of `osd_links` are: they tell nothing of the bytes that they hand on.
#![tactic(auto)]

mod limits;
mod poller;
mod slot;
mod std_notes;
mod table;
mod tcp_ports;

pub use limits::{IDLE_SECONDS, MOST_CONNECTIONS, PortLimits};
pub use std_notes::StdNotes;
pub use tcp_ports::TcpPorts;
