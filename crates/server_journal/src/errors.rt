ghost use Rattle.std.specs.Prelude.{◌≡◌};

use data_map::MapErr;
use gate_log::LogErr;
use layout_server::FileErr;
use osd_lists::Memory as WantOfMemory;
use thiserror::Error;

/// Why a journal wasn't made or opened, or why its server doesn't go on.
#[derive(Clone, Copy, Debug, PartialEq, Eq, Error)]
pub enum JournalErr {
    /// A journal can't be made on a disk that has bytes, here so many.
    #[error("the disk has {size} bytes already")]
    NotEmpty { size: u64 },
    /// The bytes are no journal: the header, at 0, or the record whose gate stands at this place isn't in its form, or the record
    /// names what none before it made.
    #[error("no journal from byte {at} on")]
    NotAJournal { at: u64 },
    /// The disk failed. This comes only if its count of faults rose in the call.
    #[error("the disk failed")]
    DiskFault,
    /// Want of memory. It stands also for a step of more entries or bytes than a record takes, and for a counter of 64 bits
    /// without room in the middle of a step.
    #[error("out of memory")]
    Memory,
}

impl From<WantOfMemory> for JournalErr {
    ghost use Rattle.server_journal.specs.declared.errors.JournalErr.TheVariants.{Memory};

    ghost from_gives = { λ _ e. e ≡ Memory };

    fn from(_: WantOfMemory) -> Self {
        JournalErr::Memory
    }
}

impl From<LogErr> for JournalErr {
    ghost use Rattle.server_journal.specs.Errors.{told_by};

    ghost from_gives = { λ cause e. e ≡ told_by cause };

    fn from(cause: LogErr) -> Self {
        match cause {
            LogErr::NotEmpty { size } => JournalErr::NotEmpty { size },
            LogErr::NotALog { at } => JournalErr::NotAJournal { at },
            LogErr::DiskFault => JournalErr::DiskFault,
            LogErr::Memory => JournalErr::Memory,
        }
    }
}

/// Why a file isn't made; of several reasons the first in this order.
#[derive(Clone, Copy, Debug, PartialEq, Eq, Error)]
pub enum JournalFileErr {
    /// There is a file of that number.
    #[error("the file exists")]
    FileExists,
    /// The map can't be used, or has more than 64 components.
    #[error("the map can't be used: {0}")]
    BadMap(MapErr),
    /// There are fewer drives online than the map has components. For a file that is spread over zones those in a zone
    /// count.
    #[error("only {online} drives are online")]
    TooFewDrives { online: u32 },
    /// The online drives in zones have no room for a file that is spread over them.
    #[error("{online} online drives in zones have no room for it")]
    NoSpread { online: u32 },
    /// The journal failed, or there was no memory.
    #[error("{0}")]
    Journal(JournalErr),
}

impl From<FileErr> for JournalFileErr {
    ghost use Rattle.server_journal.specs.Errors.{file_told_by};

    ghost from_gives = { λ cause e. e ≡ file_told_by cause };

    fn from(cause: FileErr) -> Self {
        match cause {
            FileErr::FileExists => JournalFileErr::FileExists,
            FileErr::BadMap(why) => JournalFileErr::BadMap(why),
            FileErr::TooFewDrives { online } => JournalFileErr::TooFewDrives { online },
            FileErr::NoSpread { online } => JournalFileErr::NoSpread { online },
            FileErr::Memory => JournalFileErr::Journal(JournalErr::Memory),
        }
    }
}
