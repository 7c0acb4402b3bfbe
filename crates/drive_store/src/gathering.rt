// A drive that has several changes on its disk together.
ghost use Rattle.std.specs.Prelude.{◌≡◌, ◌⊎◌, ◌≤◌, false, true, is_err, length, IsTrue, IfOk, IfErr, OnOk, OnErr};
ghost use Rattle.osd_commands.specs.Commands.{allows};
ghost use Rattle.osd_disk.specs.Crashes.{LeavesOnly};
ghost use Rattle.osd_drive.specs.declared.limits.TheConstants.{MAX_LENGTH};
ghost use Rattle.osd_drive.specs.State.{DriveState};
ghost use Rattle.osd_drive.specs.Effects.{drive_after, reply_to};
ghost use Rattle.drive_store.specs.Errors.{HasStoreCause, IsOfDisk};
ghost use Rattle.drive_store.specs.Stores.{KeepsDrive, StandForEither};

use crate::change::change_in;
use crate::errors::StoreErr;
use crate::store::StoredDrive;
use gate_log::{Entries, Entry, GateLog};
use osd_commands::{Command, Reply};
use osd_disk::Disk;
use osd_drive::DriveCore;
use osd_lists::Memory;
use std::alloc::Global;

/// A stored drive whose changes share syncs. It performs commands one after the other and gathers the changes, and
/// [`GatheringDrive::commit`] has all of them on the disk together. Until then none of the replies may be given.
#[derive(Drop)]
pub struct GatheringDrive<D> {
    core: DriveCore,
    log: GateLog<D>,
    gathered: Entries,
}

impl<D> GatheringDrive<D> {
    ghost use Rattle.drive_store.specs.Gathering.{IsEmpty, drive_in, gathering_disk, is_stopped, log_in, log_of};
    ghost use Rattle.drive_store.specs.Stores.{core_of};

    /// Of a store. Nothing is gathered.
    pub fn new(alloc: Global, store: StoredDrive<D>) -> Self
        ensures drive { drive_in result ≡ core_of store }
        ensures log { log_in result ≡ log_of store }
        ensures empty { IsEmpty result }
    {
        let (core, log) = store.into_parts();
        GatheringDrive {
            core,
            log,
            gathered: Entries::new(alloc),
        }
    }

    /// The drive's number, which the header of its store has.
    pub fn number(&self) -> u32
        ensures { result ≡ (drive_in self.now).number }
    {
        self.core.number()
    }

    /// Whether a call of the disk failed, or memory was missing for a change that was performed. Then the store has to be
    /// opened again.
    pub fn is_over(&self) -> bool
        ensures { result ≡ is_stopped self.now }
    {
        self.log.is_over()
    }

    /// The disk, with what was committed.
    pub fn into_disk(self) -> D
        ensures { result ≡ gathering_disk self }
    {
        self.log.into_disk()
    }
}

impl<D: Drop> GatheringDrive<D> {
    ghost use Rattle.drive_store.specs.Gathering.{drive_in};

    /// The drive without its store, which is let go.
    pub fn into_core(self) -> DriveCore
        ensures { result ≡ drive_in self }
    {
        self.core
    }
}

impl<D: Disk> GatheringDrive<D> {
    ghost use Rattle.gate_log.specs.Standing.{disk_of};
    ghost use Rattle.drive_store.specs.Gathering.{IsCommitted, IsEmpty, LeadsFrom, drive_in, gathering_disk, is_stopped, log_in};
    ghost use Rattle.drive_store.specs.Records.{Changes, IsChange};

    // Performs a change and gathers it.
    fn gather_change(
        &mut self,
        alloc: Global,
        now: u64,
        message: &[u8],
        c: &Command,
    ) -> Result<Reply, Memory>
        requires goes_on { is_stopped self.old ≡ false }
        requires change { IsChange (drive_in self.old) now message.now c.now }
        requires sized { IsTrue (allows c.now.action c.now.length (length c.now.payload)) }
        ensures reply { IfOk result (λ r. r ≡ reply_to (drive_in self.old) now message.now) }
        ensures short { IfOk result (λ r. length r.payload ≤ MAX_LENGTH) }
        ensures state { OnOk result (drive_in self.new ≡ drive_after (drive_in self.old) now message.now) }
        ensures log { OnOk result (log_in self.new ≡ log_in self.old) }
        ensures gathered { OnOk result ((first : DriveState) → LeadsFrom first self.old → LeadsFrom first self.new) }
        ensures err { OnErr result ((self.new ≡ self.old)
            ⊎ ((drive_in self.new ≡ drive_after (drive_in self.old) now message.now) × (is_stopped self.new ≡ true))) }
        ensures disk { gathering_disk self.new ≡ gathering_disk self.old }
    {
        let entry = Entry::new(alloc, message)?;
        let reply = self.core.perform(alloc, c)?;
        match self.gathered.push(&entry) {
            Ok(()) => Ok(reply),
            Err(Memory) => {
                self.log.give_up();
                Err(Memory)
            }
        }
    }

    /// Takes any bytes as a command, performs it if no row of the table applies, and gathers what it changes. The reply may be
    /// given after the next [`GatheringDrive::commit`]. `now` is the drive's clock in seconds. No call of the disk is made.
    ///
    /// # Errors
    ///
    /// [`Memory`]: then nothing changed, or the change was performed and can't be committed, and the store is opened again.
    pub fn gather(&mut self, alloc: Global, now: u64, message: &[u8]) -> Result<Reply, Memory>
        requires goes_on { is_stopped self.old ≡ false }
        ensures reply { IfOk result (λ r. r ≡ reply_to (drive_in self.old) now message.now) }
        ensures short { IfOk result (λ r. length r.payload ≤ MAX_LENGTH) }
        ensures state { OnOk result (drive_in self.new ≡ drive_after (drive_in self.old) now message.now) }
        ensures log { OnOk result (log_in self.new ≡ log_in self.old) }
        ensures gathered { OnOk result ((first : DriveState) → LeadsFrom first self.old → LeadsFrom first self.new) }
        ensures err { OnErr result ((self.new ≡ self.old)
            ⊎ ((drive_in self.new ≡ drive_after (drive_in self.old) now message.now) × (is_stopped self.new ≡ true))) }
        ensures idle { (Changes (drive_in self.old) now message.now → ⊥) → IsEmpty self.old → IsEmpty self.new }
        ensures disk { gathering_disk self.new ≡ gathering_disk self.old }
    {
        let Some(c) = change_in(alloc, &mut self.core, now, message)? else {
            return Ok(self.core.handle(alloc, now, message)?);
        };
        self.gather_change(alloc, now, message, &c)
    }

    /// Has the drive as it is on the disk: all changes that were gathered, with two syncs. So a crash at any moment of the
    /// call leaves a store of the drive without them or with all of them, and after `Ok` with all. If none was gathered, no
    /// call of the disk is made.
    ///
    /// # Errors
    ///
    /// [`StoreErr::DiskFault`] and [`StoreErr::Memory`] of the disk. Then the store is over, and is opened again.
    pub fn commit(&mut self) -> Result<(), StoreErr>
        requires goes_on { is_stopped self.old ≡ false }
        ensures drive { drive_in self.new ≡ drive_in self.old }
        ensures any_moment { (first : DriveState) → LeadsFrom first self.old
            → KeepsDrive D.tells D.seen D.may_leave first (log_in self.old)
            → LeavesOnly D.moment D.left_since (gathering_disk self.old) (gathering_disk self.new)
            (StandForEither first (drive_in self.old)) }
        ensures kept { OnOk result ((first : DriveState) → LeadsFrom first self.old
            → KeepsDrive D.tells D.seen D.may_leave first (log_in self.old) → IsCommitted D.tells D.seen D.may_leave self.new) }
        ensures empty { OnOk result (IsEmpty self.new) }
        ensures idle { IsEmpty self.old → gathering_disk self.new ≡ gathering_disk self.old }
        ensures error { IfErr result IsOfDisk }
        ensures over { is_stopped self.new ≡ is_err result }
        ensures cause { HasStoreCause (D.faults (gathering_disk self.old)) (D.faults (gathering_disk self.new)) result }
    {
        match self.log.append_all(&self.gathered) {
            Ok(()) => {
                self.gathered.clear();
                Ok(())
            }
            Err(e) => Err(StoreErr::from(e)),
        }
    }
}
