use crate::files::File;
use crate::jobs::AwaitedCommands;
use crate::notes::{Mended, Note};
use data_map::MapErr;
use layout_ops::{Answer, OrderAnswer, Recall};
use osd_commands::Command;
use osd_lists::Sequence;

/// A drive as the server has it.
#[derive(Clone, Copy, PartialEq, Eq)]
pub struct Drive {
    pub number: u32,
    pub key: [u8; 20],
    /// In bytes.
    pub capacity: u64,
    /// It wasn't declared.
    pub online: bool,
    /// The zone that it was put into: a room, a rack or a power supply that fails as one.
    pub zone: Option<u32>,
}

/// The slot of a client: its last sequence number, and the answer to that.
#[derive(Drop)]
pub struct Slot {
    pub client: u32,
    /// The number of its last request.
    pub last: u32,
    /// The answer to that.
    pub kept: Answer,
}

/// The metadata server.
#[derive(Drop)]
pub struct Server {
    /// In order of their numbers.
    pub files: Sequence<File>,
    /// Those of the clients that made a request.
    pub slots: Sequence<Slot>,
    /// In order of their numbers.
    pub drives: Sequence<Drive>,
    /// The number of the next grant, above [`GREATEST_GRANT`](crate::GREATEST_GRANT) where none is left.
    pub next_grant: u64,
    /// The number of the next object.
    pub next_object: u64,
    /// The nonce of the next command.
    pub next_nonce: u64,
    /// The count of the next recall.
    pub next_recall: u64,
    /// The least format that a fence leaves a file with.
    pub format: u8,
}

/// What a step did so far: the next nonce and object number, and what it sent and noted.
#[derive(Drop)]
pub struct Effects {
    pub nonce: u64,
    pub object: u64,
    pub sent: AwaitedCommands,
    pub notes: Sequence<Note>,
    pub mended: Sequence<Mended>,
}

/// Why a file isn't made.
#[derive(Clone, Copy, Debug, PartialEq, Eq)]
pub enum Refusal {
    /// There is a file of that number.
    FileExists,
    /// The map can't be used.
    BadMap(MapErr),
    /// There are fewer drives online than the map has components; for a zoned file those in a zone count.
    TooFewDrives { online: u32 },
    /// So many online drives in zones can't spread a zoned file's components.
    NoSpread { online: u32 },
}

/// A message that the server sends.
#[derive(Drop)]
pub enum Outgoing {
    /// A command to a drive, sealed.
    ToDrive { drive: u32, command: Command },
    /// A recall to the client that it names.
    Recalls { recall: Recall },
    /// An answer to the client that it names.
    Answers { answer: Answer },
    /// An answer to who gave the order.
    AnswersOrder { answer: OrderAnswer },
}
