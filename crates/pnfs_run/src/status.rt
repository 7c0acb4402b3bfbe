// How a run of the program ends.
ghost use Rattle.std.specs.Prelude.{◌≡◌};
ghost use Rattle.pnfs_run.specs.Exit.{exit_code_of};

use client_command::{ClientEnd, Refusal};
use cluster_text::{ClusterKind, CommandStop};
use drive_command::StoredStop;
use osd_replay::{Quantity, ScenarioKind, Status as ReplayStatus};

/// How a run ended.
#[derive(Drop)]
pub enum Status {
    /// Its work was done, and all was written.
    Done,
    /// The words aren't those of a command.
    BadWords,
    /// The line of this number, from 1, was refused.
    BadScenario { line: u64, kind: ScenarioKind },
    /// The source failed.
    ReadFault,
    /// The sink failed.
    WriteFault,
    /// Want of memory.
    Memory,
    /// A quantity would have passed its limit.
    Full { quantity: Quantity },
    /// A call of the links failed that the command can't do without, or the server didn't answer.
    LinkFault,
    /// The cluster text is refused.
    BadCluster { kind: ClusterKind },
    /// What the client was asked to do was refused.
    Refused { outcome: Refusal },
    /// The client didn't begin its call: the server didn't tell the number that it expects, or didn't take it.
    Unnumbered,
    /// The disk of a store failed.
    DiskFault,
    /// What the disk has isn't in the form of a store from this byte on, or with 8 may be the store of a drive with another
    /// number.
    BadStore { at: u64 },
}

impl From<ReplayStatus> for Status {
    ghost use Rattle.pnfs_run.specs.Exit.{by_replay};

    ghost from_gives = { λ from status. status ≡ by_replay from };

    fn from(status: ReplayStatus) -> Self {
        match status {
            ReplayStatus::Done => Status::Done,
            ReplayStatus::BadWords => Status::BadWords,
            ReplayStatus::BadScenario { line, kind } => Status::BadScenario { line, kind },
            ReplayStatus::ReadFault => Status::ReadFault,
            ReplayStatus::WriteFault => Status::WriteFault,
            ReplayStatus::Memory => Status::Memory,
            ReplayStatus::Full { quantity } => Status::Full { quantity },
        }
    }
}

impl From<CommandStop> for Status {
    ghost use Rattle.pnfs_run.specs.Exit.{by_stop};

    ghost from_gives = { λ from status. status ≡ by_stop from };

    fn from(stop: CommandStop) -> Self {
        match stop {
            CommandStop::BadCluster(kind) => Status::BadCluster { kind },
            CommandStop::ReadFault => Status::ReadFault,
            CommandStop::WriteFault => Status::WriteFault,
            CommandStop::Memory => Status::Memory,
            CommandStop::Full => Status::Full {
                quantity: Quantity::Input,
            },
            CommandStop::LinkFault => Status::LinkFault,
        }
    }
}

impl From<StoredStop> for Status {
    ghost use Rattle.pnfs_run.specs.Exit.{by_stored};

    ghost from_gives = { λ from status. status ≡ by_stored from };

    fn from(stop: StoredStop) -> Self {
        match stop {
            StoredStop::Command(stop) => Status::from(stop),
            StoredStop::DiskFault => Status::DiskFault,
            StoredStop::BadStore { at } => Status::BadStore { at },
        }
    }
}

impl From<ClientEnd> for Status {
    ghost use Rattle.pnfs_run.specs.Exit.{by_client};

    ghost from_gives = { λ from status. status ≡ by_client from };

    fn from(end: ClientEnd) -> Self {
        match end {
            ClientEnd::Done => Status::Done,
            ClientEnd::Refused(outcome) => Status::Refused { outcome },
            ClientEnd::Unnumbered => Status::Unnumbered,
        }
    }
}

impl Status {
    /// The exit status of the program.
    pub fn exit_code(&self) -> u8
        ensures { result ≡ exit_code_of self.now }
    {
        match self {
            Status::Done => 0,
            Status::BadWords => 2,
            Status::BadScenario { .. } => 3,
            Status::ReadFault => 4,
            Status::WriteFault => 5,
            Status::Memory => 6,
            Status::Full { .. } => 7,
            Status::LinkFault | Status::Unnumbered => 8,
            Status::BadCluster { .. } => 9,
            Status::Refused { .. } => 10,
            Status::DiskFault => 11,
            Status::BadStore { .. } => 12,
        }
    }
}
