ghost use Rattle.std.specs.Prelude.{◌≡◌};
ghost use Rattle.scenario_text.specs.Errors.{event_error_name};

use crate::names::{ClientName, DriveName, FileName};
use osd_lists::{Bytes, Memory};
use thiserror::Error;

/// The numbers of a file's data map, as the scenario gives them (RFC 5664 3).
///
/// Any numbers of their types may stand here, but for `algorithm`, which is 1 to 4: RAID_0, RAID_4,
/// RAID_5 and RAID_PQ. Whether they are a map is judged by whoever makes the file.
#[derive(Clone, Copy, PartialEq, Eq)]
pub struct FileMap {
    /// The number of components.
    pub components: u32,
    /// The bytes of a stripe unit.
    pub unit: u64,
    /// The number of components of a group, 0 without groups.
    pub width: u32,
    /// The number of stripes of a group before the next group, 0 without groups.
    pub depth: u32,
    /// The number of further copies.
    pub mirrors: u32,
    /// The parity algorithm, 1 to 4.
    pub algorithm: u32,
}

/// What a client is called to do.
#[derive(Drop, PartialEq)]
pub enum Call {
    /// Writes `bytes` from `offset` on.
    Write {
        file: FileName,
        offset: u64,
        bytes: Bytes,
    },
    /// Reads `length` bytes from `offset` on.
    Read {
        file: FileName,
        offset: u64,
        length: u64,
    },
}

/// A client or the server, as one that sends again what it waits for.
#[derive(Clone, Copy, PartialEq, Eq)]
pub enum Sender {
    Client { client: ClientName },
    Server,
}

/// A drive or the server, as a machine that has a clock and can crash.
#[derive(Clone, Copy, PartialEq, Eq)]
pub enum Machine {
    Drive { drive: DriveName },
    Server,
}

/// An event of a scenario.
#[derive(Drop)]
pub enum Event {
    /// Makes a drive with that key and that capacity in bytes.
    Drive {
        drive: DriveName,
        key: [u8; 20],
        capacity: u64,
    },
    /// Makes a drive in the same way, which is kept on a memory disk.
    Disk {
        drive: DriveName,
        key: [u8; 20],
        capacity: u64,
    },
    /// Makes a client.
    Client {
        client: ClientName,
    },
    /// Makes a file with that data map and that policy access tag, which is from 1.
    File {
        file: FileName,
        map: FileMap,
        tag: u32,
    },
    /// Makes a file in the same way, whose components are spread over zones.
    ZonedFile {
        file: FileName,
        map: FileMap,
        tag: u32,
    },
    /// Puts a drive into a zone.
    Zone {
        drive: DriveName,
        zone: u32,
    },
    /// Raises a drive's least capability format to 1 or 2.
    Least {
        drive: DriveName,
        format: u8,
    },
    /// Raises the server's capability format to 1 or 2.
    Format {
        format: u8,
    },
    /// A call with prompt delivery.
    Do {
        client: ClientName,
        call: Call,
    },
    /// A call whose messages wait.
    Call {
        client: ClientName,
        call: Call,
    },
    /// Delivers a message, by its number in the order of sending, from 0.
    Deliver {
        message: u64,
    },
    /// Drops a message: it is left out when messages are settled.
    DropMessage {
        message: u64,
    },
    /// Delivers every message that was never delivered and not left out.
    Settle,
    /// Sends again what a client or the server waits for.
    Resend {
        sender: Sender,
    },
    /// A component of the pending call's file times out at a client.
    Timeout {
        client: ClientName,
        component: u32,
    },
    /// An idle client returns its grants.
    Leave {
        client: ClientName,
    },
    /// Hands bytes to a drive, whose reply goes nowhere.
    Inject {
        drive: DriveName,
        bytes: Bytes,
    },
    /// Sets a clock.
    Clock {
        machine: Machine,
        time: u64,
    },
    /// Recalls every grant of a file.
    Recall {
        file: FileName,
    },
    /// Fences a file and repairs it.
    Revoke {
        file: FileName,
    },
    /// Rebuilds a file's missing components.
    Rebuild {
        file: FileName,
    },
    /// Audits a file.
    Audit {
        file: FileName,
    },
    /// The server takes a failed drive out.
    Declare {
        drive: DriveName,
    },
    /// A client is deaf from now on.
    Stop {
        client: ClientName,
    },
    /// A drive has lost everything and is deaf from now on.
    Fail {
        drive: DriveName,
    },
    /// A machine stops and is deaf until it is opened again.
    Crash {
        machine: Machine,
    },
    /// Opens a crashed machine again.
    Reopen {
        machine: Machine,
    },
}

/// Why a line gave no event.
#[derive(Clone, Copy, Debug, PartialEq, Eq, Error)]
pub enum EventErr {
    /// No event, call or line has this word in its place.
    #[error("an unknown word")]
    UnknownWord,
    /// A word in the place of a name isn't one.
    #[error("a word that is no name")]
    BadName,
    /// A word in the place of a number isn't one, or not one of the range of its place.
    #[error("a word that is no number of its range")]
    BadNumber,
    /// A word in the place of bytes isn't pairs of hexadecimal digits or `-`, or doesn't have the bytes of its place.
    #[error("a word that spells no bytes")]
    BadHex,
    /// A word is lacking.
    #[error("a word is lacking")]
    Missing,
    /// A further word follows.
    #[error("a word too many")]
    Extra,
    /// There was no memory.
    #[error("out of memory")]
    Memory,
}

impl EventErr {
    /// The name of the cause, as an error line has it.
    pub fn name(self) -> &'static str
        ensures { result.now ≡ event_error_name self }
    {
        match self {
            EventErr::UnknownWord => "UnknownWord",
            EventErr::BadName => "BadName",
            EventErr::BadNumber => "BadNumber",
            EventErr::BadHex => "BadHex",
            EventErr::Missing => "Missing",
            EventErr::Extra => "Extra",
            EventErr::Memory => "Memory",
        }
    }
}

impl From<Memory> for EventErr {
    ghost use Rattle.std.specs.Prelude.{◌≡◌};
    ghost use Rattle.scenario_text.specs.declared.event.EventErr.TheVariants.{Memory};

    ghost from_gives = { λ _ e. e ≡ Memory };

    fn from(_: Memory) -> Self {
        EventErr::Memory
    }
}
