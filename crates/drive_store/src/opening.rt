// A store that is made, and one that is opened.
ghost use Rattle.std.specs.Prelude.{◌≡◌, ◌<◌, [], false, length, IsTrue, IfOk, IfErr, OnOk};
ghost use Rattle.osd_disk.specs.Crashes.{OnlyRead};
ghost use Rattle.gate_log.specs.Standing.{gate_of, read_disk};
ghost use Rattle.osd_drive.specs.State.{new_drive};
ghost use Rattle.drive_store.specs.Errors.{HasErrCause, HasStoreCause, NotAStoreSays, NotEmptySays};
ghost use Rattle.drive_store.specs.Opening.{HasTaken, IsNoStoreAt};
ghost use Rattle.drive_store.specs.Stores.{emptied};

use crate::errors::StoreErr;
use crate::header::StoreHeader;
use crate::record::take_record;
use crate::store::StoredDrive;
use gate_log::{GateLog, LogReader};
use osd_disk::Disk;
use osd_drive::{DriveCore, KeyTable};
use std::alloc::Global;

// Takes all records that come into the drive to which those before them lead.
fn take_records<D: Disk>(
    alloc: Global,
    reader: &mut LogReader<D>,
    core: &mut DriveCore,
) -> Result<(), StoreErr>
    ensures taken { OnOk result (HasTaken D.tells D.seen D.may_leave core.old reader.old
        → HasTaken D.tells D.seen D.may_leave core.new reader.new) }
    ensures end { OnOk result (gate_of reader.new ≡ 0) }
    ensures same { emptied core.new ≡ emptied core.old }
    ensures refused { IfErr result (NotAStoreSays (λ at. HasTaken D.tells D.seen D.may_leave core.old reader.old
        → IsNoStoreAt core.old.keys (D.seen (read_disk reader.old)) at)) }
    ensures disk { OnlyRead D.tells D.seen D.may_leave D.moment D.left_since (read_disk reader.old) (read_disk reader.new) }
    ensures cause { HasStoreCause (D.faults (read_disk reader.old)) (D.faults (read_disk reader.new)) result }
{
    let mut at = reader.place();
    while let Some(body) = reader.next(alloc)? {
        if !take_record(core, alloc, body.as_slice())? {
            return Err(StoreErr::NotAStore { at });
        }
        at = reader.place();
    }
    Ok(())
}

impl<D: Disk> StoredDrive<D> {
    ghost use Rattle.drive_store.specs.Stores.{IsKept, IsStoreOf, core_of, disk_in, is_over_in};

    /// Makes the store of a drive without objects on a disk that has no bytes.
    ///
    /// If a crash or an error cuts it off, the disk has to be made empty and the call repeated.
    ///
    /// # Errors
    ///
    /// [`StoreErr::NotEmpty`] exactly if the disk has bytes, [`StoreErr::DiskFault`] and [`StoreErr::Memory`] of the
    /// disk. The disk comes back.
    pub fn create(
        alloc: Global,
        disk: D,
        number: u32,
        keys: KeyTable,
        capacity: u64,
    ) -> Result<Self, (StoreErr, D)>
        ensures drive { IfOk result (λ store. core_of store ≡ new_drive number keys capacity) }
        ensures kept { IfOk result (λ store. IsTrue (D.tells disk) → IsKept D.tells D.seen D.may_leave store) }
        ensures empty { IfOk result (λ store. IsTrue (D.tells disk) → D.seen disk ≡ []) }
        ensures goes_on { IfOk result (λ store. is_over_in store ≡ false) }
        ensures refused { IfErr result (λ e. NotEmptySays (λ size. IsTrue (D.tells disk)
            → (size ≡ length (D.seen disk)) × (0 < size)) e.0) }
        ensures cause { IfErr result (λ e. HasErrCause (D.faults disk) (D.faults e.1) e.0) }
        ensures no_fault { IfOk result (λ store. D.faults (disk_in store) ≡ D.faults disk) }
    {
        let header = StoreHeader { number, capacity };
        let bytes = header.to_bytes();
        match GateLog::create(disk, &bytes) {
            Ok(log) => Ok(StoredDrive::of(DriveCore::new(alloc, number, keys, capacity), log)),
            Err((e, disk)) => Err((StoreErr::from(e), disk)),
        }
    }

    /// Opens the store that stands on a disk, and gives the drive to which its records lead, with these keys. It reads one
    /// record at a time, and writes nothing.
    ///
    /// # Errors
    ///
    /// [`StoreErr::NotAStore`] with the first place from which on the bytes aren't in the form of a store, or aren't commands
    /// that the drive before them performs; [`StoreErr::DiskFault`] and [`StoreErr::Memory`]. The disk comes back.
    pub fn open(alloc: Global, disk: D, keys: KeyTable) -> Result<Self, (StoreErr, D)>
        ensures drive { IfOk result (λ store. IsTrue (D.tells disk) → IsStoreOf (core_of store) (D.seen disk)) }
        ensures keys { IfOk result (λ store. (core_of store).keys ≡ keys) }
        ensures kept { IfOk result (λ store. IsTrue (D.tells disk) → IsKept D.tells D.seen D.may_leave store) }
        ensures goes_on { IfOk result (λ store. is_over_in store ≡ false) }
        ensures refused { IfErr result (λ e. NotAStoreSays (λ at. IsTrue (D.tells disk)
            → IsNoStoreAt keys (D.seen disk) at) e.0) }
        ensures disk { IfOk result (λ store. OnlyRead D.tells D.seen D.may_leave D.moment D.left_since disk (disk_in store)) }
        ensures disk_back { IfErr result (λ e. OnlyRead D.tells D.seen D.may_leave D.moment D.left_since disk e.1) }
        ensures cause { IfErr result (λ e. HasErrCause (D.faults disk) (D.faults e.1) e.0) }
        ensures no_fault { IfOk result (λ store. D.faults (disk_in store) ≡ D.faults disk) }
    {
        let mut reader = match LogReader::open(disk) {
            Ok(reader) => reader,
            Err((e, disk)) => return Err((StoreErr::from(e), disk)),
        };
        let bytes = reader.header().bytes;
        let Some(header) = StoreHeader::from_bytes(&bytes) else {
            return Err((StoreErr::NotAStore { at: 0 }, reader.into_disk()));
        };
        let mut core = DriveCore::new(alloc, header.number, keys, header.capacity);
        match take_records(alloc, &mut reader, &mut core) {
            Ok(()) => Ok(StoredDrive::of(core, reader.into_log())),
            Err(e) => Err((e, reader.into_disk())),
        }
    }
}
