use call_commands::{PendingCommands, WriteQueue};
use client_rules::{AwaitedCommands, Need, Outcome, TimedOuts};
use stripe_plan::Columns;

/// What a call has of the drives.
#[derive(Drop)]
pub struct CallIo {
    /// The commands of which the replies are awaited.
    pub pending: PendingCommands,
    /// What was read, in the order of the replies.
    pub got: Columns,
    /// The components that timed out, rising.
    pub timed: TimedOuts,
}

/// How far a call has come.
#[derive(Drop)]
pub enum CallPhase {
    /// It has sent nothing that counts, and begins where it can.
    Starts,
    /// It has a request to send, and sends it once no other is outstanding.
    Needs { need: Need },
    /// It waits for the answer to that request.
    Waits { need: Need },
    /// It reads.
    Reads { io: CallIo },
    /// It reads a range without bytes, and wants a reply all the same.
    Probes { io: CallIo },
    /// It reads what the parity of its write needs.
    Gathers { io: CallIo },
    /// It writes. What is queued isn't sent yet.
    Scatters { io: CallIo, queue: WriteQueue },
}

/// What becomes of a call.
#[derive(Drop)]
pub enum CallTurn {
    /// It goes on in this phase.
    Goes { phase: CallPhase },
    /// It ends.
    Ends { outcome: Outcome },
    /// It ends, and its grant is forgotten.
    Forgets { outcome: Outcome },
}

/// What a call's dealings with the drives did.
#[derive(Drop)]
pub struct CallMove {
    pub turn: CallTurn,
    /// The commands that are to be sent, in order. Each is also kept until its reply comes.
    pub sent: AwaitedCommands,
}
