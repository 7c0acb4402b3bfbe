ghost use Rattle.std.specs.Prelude.{◌≡◌};

use gate_log::LogErr;
use osd_lists::Memory as WantOfMemory;
use thiserror::Error;

/// Why a store wasn't made or opened, or why it doesn't go on.
#[derive(Clone, Copy, Debug, PartialEq, Eq, Error)]
pub enum StoreErr {
    /// A store can't be made on a disk that has bytes, here so many.
    #[error("the disk has {size} bytes already")]
    NotEmpty { size: u64 },
    /// The disk failed. This comes only if its count of faults rose in the call.
    #[error("the disk failed")]
    DiskFault,
    /// The bytes are no store: the header, at 0, or the record whose gate stands at this place isn't in its form.
    #[error("no store from byte {at} on")]
    NotAStore { at: u64 },
    /// Want of memory, and nothing else.
    #[error("out of memory")]
    Memory,
}

impl From<WantOfMemory> for StoreErr {
    ghost use Rattle.drive_store.specs.declared.errors.StoreErr.TheVariants.{Memory};

    ghost from_gives = { λ _ e. e ≡ Memory };

    fn from(_: WantOfMemory) -> Self {
        StoreErr::Memory
    }
}

impl From<LogErr> for StoreErr {
    ghost use Rattle.drive_store.specs.Errors.{told_by};

    ghost from_gives = { λ cause e. e ≡ told_by cause };

    fn from(cause: LogErr) -> Self {
        match cause {
            LogErr::NotEmpty { size } => StoreErr::NotEmpty { size },
            LogErr::NotALog { at } => StoreErr::NotAStore { at },
            LogErr::DiskFault => StoreErr::DiskFault,
            LogErr::Memory => StoreErr::Memory,
        }
    }
}
