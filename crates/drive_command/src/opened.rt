// The store of a drive on a disk.
ghost use Rattle.std.specs.Prelude.{◌≡◌, false, IsTrue, IfOk, IfErr};
ghost use Rattle.osd_disk.specs.Crashes.{OnlyRead};
ghost use Rattle.osd_drive.specs.State.{DriveState};
ghost use Rattle.drive_command.specs.Opened.{BeginsWith, IsOwnStore, LeavesOpenable, StopsOpening, first_of};
ghost use Rattle.drive_store.specs.Stores.{IsKept, core_of, disk_in, is_over_in};

use crate::own::keys_with;
use crate::stored_stop::StoredStop;
use drive_store::StoredDrive;
use osd_disk::Disk;
use osd_drive::KeyTable;
use std::alloc::Global;

/// The place of a drive's number in the header of its store.
const NUMBER_PLACE: u64 = 8;

/// Which drive a store is of.
#[derive(Clone, Copy)]
pub struct OwnStore {
    /// The drive's number.
    pub number: u32,
    /// The key that it has in common with the server.
    pub key: [u8; 20],
    /// How many bytes it may have, if the store is made.
    pub capacity: u64,
}

// The store of the drive of this number on a disk that has bytes.
fn opened_store<D: Disk>(
    alloc: Global,
    disk: D,
    number: u32,
    keys: KeyTable,
) -> Result<StoredDrive<D>, (StoredStop, D)>
    ensures own { IfOk result (λ store. IsTrue (D.tells disk) → (first : DriveState) → first.number ≡ number → first.keys ≡ keys
        → IsOwnStore first (D.seen disk) (core_of store)) }
    ensures kept { IfOk result (λ store. IsTrue (D.tells disk) → IsKept D.tells D.seen D.may_leave store) }
    ensures goes_on { IfOk result (λ store. is_over_in store ≡ false) }
    ensures refused { IfErr result (λ e. (first : DriveState) → first.number ≡ number → first.keys ≡ keys
        → StopsOpening D.Disk first disk e.1 e.0) }
    ensures read { IfOk result (λ store. OnlyRead D.tells D.seen D.may_leave D.moment D.left_since disk (disk_in store)) }
    ensures read_back { IfErr result (λ e. OnlyRead D.tells D.seen D.may_leave D.moment D.left_since disk e.1) }
    ensures no_fault { IfOk result (λ store. D.faults (disk_in store) ≡ D.faults disk) }
{
    match StoredDrive::open(alloc, disk, keys) {
        Ok(store) => {
            if store.number() == number {
                Ok(store)
            } else {
                Err((StoredStop::BadStore { at: NUMBER_PLACE }, store.into_disk()))
            }
        }
        Err((e, disk)) => Err((StoredStop::from(e), disk)),
    }
}

/// The drive's own store on a disk, which is the file of this name if it is one: a new store if the disk has no bytes, else
/// the one that stands there. The disk comes back if there is none.
///
/// # Errors
///
/// [`StoredStop::DiskFault`] only if the disk's count of faults rose; [`StoredStop::BadStore`] exactly if what the disk has
/// isn't in the form of a store from this byte on, or is the store of another number, with 8; [`StoredStop::Command`] for
/// want of memory.
pub fn store_on<D: Disk>(
    alloc: Global,
    disk: D,
    name: &str,
    own: OwnStore,
) -> Result<StoredDrive<D>, (StoredStop, D)>
    ensures begins { IfOk result (λ store. IsTrue (D.tells disk) → BeginsWith (first_of own) (D.seen disk) (core_of store)) }
    ensures kept { IfOk result (λ store. IsTrue (D.tells disk) → IsKept D.tells D.seen D.may_leave store) }
    ensures goes_on { IfOk result (λ store. is_over_in store ≡ false) }
    ensures refused { IfErr result (λ e. StopsOpening D.Disk (first_of own) disk e.1 e.0) }
    ensures leaves { IfOk result (λ store. IsTrue (D.tells disk) → LeavesOpenable D.Disk disk (disk_in store)) }
    ensures cut_off { IfErr result (λ e. IsTrue (D.tells disk) → LeavesOpenable D.Disk disk e.1) }
    ensures no_fault { IfOk result (λ store. D.faults (disk_in store) ≡ D.faults disk) }
{
    let mut disk = disk;
    let keys = match keys_with(alloc, own.key) {
        Ok(keys) => keys,
        Err(e) => return Err((StoredStop::from(e), disk)),
    };
    match disk.open(name) {
        Ok(()) => {}
        Err(e) => return Err((StoredStop::from(e), disk)),
    }
    let size = match disk.size() {
        Ok(size) => size,
        Err(e) => return Err((StoredStop::from(e), disk)),
    };
    if size > 0 {
        // Arms in place of the bare call are for the prover (docs/dev/PROVER_FORMS.md).
        return match opened_store(alloc, disk, own.number, keys) {
            Ok(store) => Ok(store),
            Err(refusal) => Err(refusal),
        };
    }
    match StoredDrive::create(alloc, disk, own.number, keys, own.capacity) {
        Ok(store) => Ok(store),
        Err((e, disk)) => Err((StoredStop::from(e), disk)),
    }
}
