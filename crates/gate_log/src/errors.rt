ghost use Rattle.std.specs.Prelude.{◌≡◌};

use osd_disk::DiskErr;
use osd_lists::Memory as WantOfMemory;
use thiserror::Error;

/// Why a call of a log failed.
#[derive(Clone, Copy, Debug, PartialEq, Eq, Error)]
pub enum LogErr {
    /// A log can't be made on a disk that has bytes, here so many.
    #[error("the disk has {size} bytes already")]
    NotEmpty { size: u64 },
    /// The bytes aren't a log: they end before the first gate, where `at` is 24, or the open gate at
    /// this place has no whole record with a gate behind it. The record was cut off, or it was changed
    /// since it was written: no crash leaves it so.
    #[error("no whole record at byte {at}: it was cut off or changed")]
    NotALog { at: u64 },
    /// The disk failed. This comes only where its count of faults rose in the call.
    #[error("the disk failed")]
    DiskFault,
    /// Want of memory, and nothing else.
    #[error("out of memory")]
    Memory,
}

impl From<DiskErr> for LogErr {
    ghost use Rattle.gate_log.specs.Causes.{told_by};

    ghost from_gives = { λ cause e. e ≡ told_by cause };

    fn from(cause: DiskErr) -> Self {
        match cause {
            DiskErr::Fault => LogErr::DiskFault,
            DiskErr::Memory => LogErr::Memory,
        }
    }
}

impl From<WantOfMemory> for LogErr {
    ghost use Rattle.gate_log.specs.declared.errors.LogErr.TheVariants.{Memory};

    ghost from_gives = { λ _ e. e ≡ Memory };

    fn from(_: WantOfMemory) -> Self {
        LogErr::Memory
    }
}
