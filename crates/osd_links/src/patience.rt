// How long links wait. Who listens waits less than those who may stand in the queue before it: a server less for a drive
// than a client for the server, and any party less for a silent caller than a client for a drive.
use std::time::Duration;

/// For how many seconds a party that listens waits for a silent peer that connected to it.
pub const CALLER_PATIENCE_SECONDS: u64 = 5;

/// Within how many seconds a record has to come whole on a connection that was accepted, and within how many
/// its answer has to be taken.
pub const RECORD_SECONDS: u64 = 8;

/// For how many seconds a party that listens, the server, waits for a silent drive.
pub const DRIVE_PATIENCE_SECONDS: u64 = 3;

/// For how many seconds a client waits for a silent drive.
pub const CLIENT_PATIENCE_SECONDS: u64 = 10;

/// For how many seconds a client waits for a silent server, which may wait for drives itself.
pub const SERVER_PATIENCE_SECONDS: u64 = 30;

/// For how many seconds the server doesn't ask a drive again that didn't answer in time.
pub const REST_SECONDS: u64 = 15;

// How many times as long as its patience for silence an asking party waits for the whole of an exchange.
const EXCHANGE_FACTOR: u64 = 2;

/// How long links wait for a peer.
#[derive(Clone, Copy)]
pub struct Limits {
    /// How long it may keep silent: connect, send or take nothing.
    pub silence: Duration,
    /// How long it may take over a whole record, or as one that is asked over the whole exchange.
    pub whole: Duration,
}

/// How long links wait for whom.
#[derive(Clone, Copy)]
pub struct Patience {
    /// For a peer that connected.
    pub caller: Limits,
    /// For a drive, as a party that listens.
    pub drive_of_server: Limits,
    /// For a drive, as a client.
    pub drive: Limits,
    /// For the server.
    pub server: Limits,
    /// How long a party that listens doesn't ask a drive again that didn't answer in time.
    pub rest: Duration,
}

// The limits of an exchange with a peer for which one waits so many seconds.
fn asking(seconds: u64) -> Limits {
    Limits {
        silence: Duration::from_secs(seconds),
        whole: Duration::from_secs(seconds.saturating_mul(EXCHANGE_FACTOR)),
    }
}

impl Patience {
    /// The patience of the program, by the constants beside this type. An exchange lasts at most twice as long as
    /// the peer may keep silent.
    pub fn usual() -> Self {
        Patience {
            caller: Limits {
                silence: Duration::from_secs(CALLER_PATIENCE_SECONDS),
                whole: Duration::from_secs(RECORD_SECONDS),
            },
            drive_of_server: asking(DRIVE_PATIENCE_SECONDS),
            drive: asking(CLIENT_PATIENCE_SECONDS),
            server: asking(SERVER_PATIENCE_SECONDS),
            rest: Duration::from_secs(REST_SECONDS),
        }
    }
}
