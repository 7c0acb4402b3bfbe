// A drive and its log.
ghost use Rattle.std.specs.Prelude.{◌≡◌, ◌⊎◌, ◌≤◌, false, true, is_err, length, IsErrOf, IsTrue, IfOk, IfErr, OnOk, OnErr};
ghost use Rattle.osd_commands.specs.Commands.{allows};
ghost use Rattle.osd_disk.specs.Crashes.{LeavesOnly};
ghost use Rattle.osd_drive.specs.declared.limits.TheConstants.{MAX_LENGTH};
ghost use Rattle.osd_drive.specs.State.{DriveState};
ghost use Rattle.osd_drive.specs.Table.{first_fault};
ghost use Rattle.osd_drive.specs.Effects.{drive_after, reply_to};
ghost use Rattle.drive_store.specs.declared.errors.StoreErr.TheVariants.{DiskFault};
ghost use Rattle.drive_store.specs.declared.record.TheConstants.{SECOND_FORMAT};
ghost use Rattle.drive_store.specs.Errors.{HasStoreCause, IsOfDisk};
ghost use Rattle.drive_store.specs.Records.{Changes, IsChange, raised};

use crate::change::change_in;
use crate::errors::StoreErr;
use crate::record::SECOND_FORMAT;
use gate_log::{Entry, GateLog};
use osd_commands::{Command, Reply};
use osd_disk::Disk;
use osd_drive::{DriveCore, Verdict};
use osd_lists::Memory;
use std::alloc::Global;

/// A drive that has each change on a disk before it answers the command.
#[derive(Drop)]
pub struct StoredDrive<D> {
    core: DriveCore,
    log: GateLog<D>,
}

impl<D> StoredDrive<D> {
    ghost use Rattle.drive_store.specs.Stores.{core_of, disk_in, is_over_in};

    // The drive with its log.
    pub(crate) fn of(core: DriveCore, log: GateLog<D>) -> Self
        ensures { (result.core ≡ core) × (result.log ≡ log) }
    {
        StoredDrive { core, log }
    }

    /// The drive's number, which the header of its store has.
    pub fn number(&self) -> u32
        ensures { result ≡ (core_of self.now).number }
    {
        self.core.number()
    }

    /// The first row of the table that applies to a command, as [`DriveCore::verdict`] gives it.
    pub fn verdict(&self, now: u64, c: &Command) -> Verdict
        ensures { result ≡ first_fault (core_of self.now) now c.now }
    {
        self.core.verdict(now, c)
    }

    /// Whether a call of the disk failed. Then the store has to be opened again.
    pub fn is_over(&self) -> bool
        ensures { result ≡ is_over_in self.now }
    {
        self.log.is_over()
    }

    /// The least format of capabilities that the drive takes.
    pub fn least_format(&self) -> u8
        ensures { result ≡ (core_of self.now).least }
    {
        self.core.least_format()
    }

    /// The disk, with the store on it.
    pub fn into_disk(self) -> D
        ensures { result ≡ disk_in self }
    {
        self.log.into_disk()
    }

    // The drive and its log.
    pub(crate) fn into_parts(self) -> (DriveCore, GateLog<D>)
        ensures { (result.0 ≡ self.core) × (result.1 ≡ self.log) }
    {
        (self.core, self.log)
    }
}

impl<D: Drop> StoredDrive<D> {
    ghost use Rattle.drive_store.specs.Stores.{core_of};

    /// The drive without its store, which is let go.
    pub fn into_core(self) -> DriveCore
        ensures { result ≡ core_of self }
    {
        self.core
    }
}

impl<D: Disk> StoredDrive<D> {
    ghost use Rattle.drive_store.specs.Stores.{IsKept, IsStep, KeepsDrive, StandForEither, core_of, disk_in, is_over_in};

    // Has the record that led to the drive as it is on the disk.
    fn log_step(&mut self, entry: &Entry) -> Result<(), StoreErr>
        requires { is_over_in self.old ≡ false }
        ensures core { core_of self.new ≡ core_of self.old }
        ensures any_moment { (before : DriveState) → IsStep before entry.now (core_of self.old)
            → KeepsDrive D.tells D.seen D.may_leave before self.old.log
            → LeavesOnly D.moment D.left_since (disk_in self.old) (disk_in self.new) (StandForEither before (core_of self.old)) }
        ensures kept { OnOk result ((before : DriveState) → IsStep before entry.now (core_of self.old)
            → KeepsDrive D.tells D.seen D.may_leave before self.old.log → IsKept D.tells D.seen D.may_leave self.new) }
        ensures error { IfErr result IsOfDisk }
        ensures over { is_over_in self.new ≡ is_err result }
        ensures cause { HasStoreCause (D.faults (disk_in self.old)) (D.faults (disk_in self.new)) result }
    {
        match self.log.append(entry) {
            Ok(()) => Ok(()),
            Err(e) => Err(StoreErr::from(e)),
        }
    }

    // Performs a change, and answers it once it is on the disk.
    fn keep_change(
        &mut self,
        alloc: Global,
        now: u64,
        message: &[u8],
        c: &Command,
    ) -> Result<Reply, StoreErr>
        requires goes_on { is_over_in self.old ≡ false }
        requires change { IsChange (core_of self.old) now message.now c.now }
        requires sized { IsTrue (allows c.now.action c.now.length (length c.now.payload)) }
        ensures reply { IfOk result (λ r. r ≡ reply_to (core_of self.old) now message.now) }
        ensures short { IfOk result (λ r. length r.payload ≤ MAX_LENGTH) }
        ensures state { OnOk result (core_of self.new ≡ drive_after (core_of self.old) now message.now) }
        ensures any_moment { IsKept D.tells D.seen D.may_leave self.old
            → LeavesOnly D.moment D.left_since (disk_in self.old) (disk_in self.new)
            (StandForEither (core_of self.old) (drive_after (core_of self.old) now message.now)) }
        ensures kept { OnOk result (IsKept D.tells D.seen D.may_leave self.old → IsKept D.tells D.seen D.may_leave self.new) }
        ensures error { IfErr result IsOfDisk }
        ensures err { OnErr result ((self.new ≡ self.old)
            ⊎ ((core_of self.new ≡ drive_after (core_of self.old) now message.now) × (is_over_in self.new ≡ true))) }
        ensures goes_on { OnOk result (is_over_in self.new ≡ false) }
        ensures fault { IsErrOf result DiskFault → is_over_in self.new ≡ true }
        ensures cause { HasStoreCause (D.faults (disk_in self.old)) (D.faults (disk_in self.new)) result }
    {
        let entry = Entry::new(alloc, message)?;
        let reply = self.core.perform(alloc, c)?;
        self.log_step(&entry)?;
        Ok(reply)
    }

    /// Takes any bytes as a command, performs it if no row of the table applies, and gives the reply. `now` is the
    /// drive's clock in seconds. A change is answered once its record is on the disk: so a crash at any moment of the call
    /// leaves a store of the drive as it was or with the change, and after the answer with it. Other commands, and those that
    /// are refused or given again, make no call of the disk.
    ///
    /// # Errors
    ///
    /// [`StoreErr::DiskFault`] and [`StoreErr::Memory`]. Either may be of the disk: then the store is over, and is opened
    /// again. Else nothing changed.
    pub fn handle(&mut self, alloc: Global, now: u64, message: &[u8]) -> Result<Reply, StoreErr>
        requires goes_on { is_over_in self.old ≡ false }
        ensures reply { IfOk result (λ r. r ≡ reply_to (core_of self.old) now message.now) }
        ensures short { IfOk result (λ r. length r.payload ≤ MAX_LENGTH) }
        ensures state { OnOk result (core_of self.new ≡ drive_after (core_of self.old) now message.now) }
        ensures any_moment { IsKept D.tells D.seen D.may_leave self.old
            → LeavesOnly D.moment D.left_since (disk_in self.old) (disk_in self.new)
            (StandForEither (core_of self.old) (drive_after (core_of self.old) now message.now)) }
        ensures kept { OnOk result (IsKept D.tells D.seen D.may_leave self.old → IsKept D.tells D.seen D.may_leave self.new) }
        ensures idle { (Changes (core_of self.old) now message.now → ⊥) → disk_in self.new ≡ disk_in self.old }
        ensures error { IfErr result IsOfDisk }
        ensures err { OnErr result ((self.new ≡ self.old)
            ⊎ ((core_of self.new ≡ drive_after (core_of self.old) now message.now) × (is_over_in self.new ≡ true))) }
        ensures goes_on { OnOk result (is_over_in self.new ≡ false) }
        ensures fault { IsErrOf result DiskFault → is_over_in self.new ≡ true }
        ensures cause { HasStoreCause (D.faults (disk_in self.old)) (D.faults (disk_in self.new)) result }
    {
        let Some(c) = change_in(alloc, &mut self.core, now, message)? else {
            return Ok(self.core.handle(alloc, now, message)?);
        };
        self.keep_change(alloc, now, message, &c)
    }

    /// Takes no more capabilities of a format below this one, which is 1 or 2. It never falls. If it rises, that is on the
    /// disk at `Ok`; else no call of the disk is made.
    ///
    /// # Errors
    ///
    /// As those of [`StoredDrive::handle`].
    pub fn raise_least(&mut self, alloc: Global, format: u8) -> Result<(), StoreErr>
        requires goes_on { is_over_in self.old ≡ false }
        requires known { (format ≡ 1) ⊎ (format ≡ SECOND_FORMAT) }
        ensures state { OnOk result (core_of self.new ≡ raised (core_of self.old) format) }
        ensures any_moment { IsKept D.tells D.seen D.may_leave self.old
            → LeavesOnly D.moment D.left_since (disk_in self.old) (disk_in self.new)
            (StandForEither (core_of self.old) (raised (core_of self.old) format)) }
        ensures kept { OnOk result (IsKept D.tells D.seen D.may_leave self.old → IsKept D.tells D.seen D.may_leave self.new) }
        ensures idle { format ≤ (core_of self.old).least → disk_in self.new ≡ disk_in self.old }
        ensures error { IfErr result IsOfDisk }
        ensures err { OnErr result ((self.new ≡ self.old)
            ⊎ ((core_of self.new ≡ raised (core_of self.old) format) × (is_over_in self.new ≡ true))) }
        ensures goes_on { OnOk result (is_over_in self.new ≡ false) }
        ensures fault { IsErrOf result DiskFault → is_over_in self.new ≡ true }
        ensures cause { HasStoreCause (D.faults (disk_in self.old)) (D.faults (disk_in self.new)) result }
    {
        if format != SECOND_FORMAT || self.core.least_format() >= SECOND_FORMAT {
            // The least format is 1 at least, so nothing rises.
            self.core.raise_least(format);
            return Ok(());
        }
        let entry = Entry::new(alloc, &[SECOND_FORMAT])?;
        self.core.raise_least(SECOND_FORMAT);
        match self.log_step(&entry) {
            Ok(()) => Ok(()),
            Err(e) => Err(e),
        }
    }
}
