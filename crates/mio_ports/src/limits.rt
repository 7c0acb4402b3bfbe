// How many connections stand at once, and how long they are waited for.
use osd_links::{Limits, Patience};
use std::time::Duration;

/// How many connections stand at once at most. Together with listeners and files they stay below 1,024 descriptors, which is
/// what systems usually allow a process.
pub const MOST_CONNECTIONS: usize = 960;

/// For how many seconds a connection may stay without a byte between two records.
pub const IDLE_SECONDS: u64 = 60;

/// How many connections stand side by side, and how long they are waited for.
#[derive(Clone, Copy)]
pub struct PortLimits {
    /// How many of them stand at once at most. For one more, the one goes that was silent longest.
    pub connections: usize,
    /// How long a connection may stay without a byte between two records.
    pub idle: Duration,
    /// How long a peer may keep silent within a record or a reply, and how long it may take over a whole one.
    pub record: Limits,
    /// How long a node that is asked may take to connect or to begin an answer, and how long it may take over a whole command.
    pub asked: Limits,
}

impl PortLimits {
    /// The limits of the program: [`MOST_CONNECTIONS`], [`IDLE_SECONDS`], and what [`Patience`] has for a peer that connected,
    /// and for a drive that a server asks.
    pub fn usual() -> Self {
        PortLimits {
            connections: MOST_CONNECTIONS,
            idle: Duration::from_secs(IDLE_SECONDS),
            record: Patience::usual().caller,
            asked: Patience::usual().drive_of_server,
        }
    }
}
