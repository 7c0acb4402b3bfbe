// Why a drive or a server with a store stops.
ghost use Rattle.std.specs.Prelude.{◌≡◌};
ghost use Rattle.drive_command.specs.StoredStops.{stop_of_serving};

use crate::serve_err::DriveServeErr;
use cluster_text::CommandStop;
use drive_store::StoreErr;
use osd_disk::DiskErr;
use osd_lists::Memory;

/// Why a drive or a server with a store stopped, or didn't begin.
#[derive(Clone, Copy, PartialEq, Eq)]
pub enum StoredStop {
    /// For a cause that one in memory has too.
    Command(CommandStop),
    /// The disk failed. This comes only if its count of faults rose.
    DiskFault,
    /// What the disk has isn't in the form of a store from this byte on. With 8, it may be the store of a drive with another
    /// number.
    BadStore { at: u64 },
}

impl From<Memory> for StoredStop {
    ghost use Rattle.drive_command.specs.StoredStops.{no_memory};

    ghost from_gives = { λ _ stop. stop ≡ no_memory };

    fn from(_: Memory) -> Self {
        StoredStop::Command(CommandStop::Memory)
    }
}

impl From<DiskErr> for StoredStop {
    ghost use Rattle.drive_command.specs.StoredStops.{stop_of_disk};

    ghost from_gives = { λ cause stop. stop ≡ stop_of_disk cause };

    fn from(cause: DiskErr) -> Self {
        match cause {
            DiskErr::Fault => StoredStop::DiskFault,
            DiskErr::Memory => StoredStop::Command(CommandStop::Memory),
        }
    }
}

impl From<StoreErr> for StoredStop {
    ghost use Rattle.drive_command.specs.StoredStops.{stop_of_store};

    ghost from_gives = { λ cause stop. stop ≡ stop_of_store cause };

    fn from(cause: StoreErr) -> Self {
        match cause {
            StoreErr::NotEmpty { .. } => StoredStop::BadStore { at: 0 },
            StoreErr::DiskFault => StoredStop::DiskFault,
            StoreErr::NotAStore { at } => StoredStop::BadStore { at },
            StoreErr::Memory => StoredStop::Command(CommandStop::Memory),
        }
    }
}

/// Why a drive with a store stops if serving stops for this reason.
pub fn stop_of_serving(e: DriveServeErr) -> StoredStop
    ensures { result ≡ stop_of_serving e }
{
    match e {
        DriveServeErr::LinkFault => StoredStop::Command(CommandStop::LinkFault),
        DriveServeErr::DiskFault => StoredStop::DiskFault,
        DriveServeErr::Memory => StoredStop::Command(CommandStop::Memory),
    }
}
