use crate::outcomes::Outcome;
use layout_types::IoErr;
use osd_commands::Command;
use osd_lists::{Bytes, Sequence};
use stripe_plan::{Ask, Column, Store};

/// What a call asks.
#[derive(Drop)]
pub enum CallOp {
    Write {
        file: u32,
        offset: u64,
        bytes: Bytes,
    },
    Read {
        file: u32,
        offset: u64,
        length: u64,
    },
}

/// A command of which the reply is awaited.
#[derive(Drop)]
pub struct Awaited {
    /// A WRITE, else a READ.
    pub write: bool,
    /// The bytes that it is for.
    pub ask: Ask,
    pub drive: u32,
    pub command: Command,
}

/// Commands of which the replies are awaited.
pub type AwaitedCommands = Sequence<Awaited>;

/// A component that timed out in a call, by the first command to it that was awaited then.
#[derive(Clone, Copy, PartialEq, Eq)]
pub struct TimedOut {
    pub write: bool,
    pub ask: Ask,
}

/// The components that timed out, rising.
pub type TimedOuts = Sequence<TimedOut>;

/// A call's dealings with the drives.
#[derive(Drop)]
pub struct Io {
    pub awaited: AwaitedCommands,
    /// What was read, in the order of the replies.
    pub got: Sequence<Column>,
    pub timed: TimedOuts,
}

/// What a call needs of the server.
#[derive(Drop)]
pub enum Need {
    /// That it takes back a grant that doesn't cover the call.
    First,
    /// A layout, after so many answers that told to ask again.
    Get {
        tries: u32,
    },
    /// That it takes the new size.
    Commit {
        timed: TimedOuts,
    },
    /// That it takes the components that timed out as lost.
    Report {
        timed: TimedOuts,
    },
    /// That it takes back the grant. The call then ends so.
    Close {
        outcome: Outcome,
        report: Sequence<IoErr>,
    },
}

/// How far a call has come.
#[derive(Drop)]
pub enum Phase {
    /// It has sent nothing that counts, and begins where it can.
    Starts,
    /// It has a request to send, and sends it once no other is outstanding.
    Needs { need: Need },
    /// It waits for the answer to that request.
    Waits { need: Need },
    /// It reads.
    Reads { io: Io },
    /// It reads a range without bytes, and wants a reply all the same.
    Probes { io: Io },
    /// It reads what the parity of its write needs.
    Gathers { io: Io },
    /// It writes. What is queued isn't sent yet.
    Scatters { io: Io, queue: Sequence<Store> },
}

/// A pending call.
#[derive(Drop)]
pub struct Call {
    pub op: CallOp,
    pub phase: Phase,
}
