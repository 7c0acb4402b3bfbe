// The calls of an administrator: drives, their zones, and the format.
ghost use Rattle.std.specs.Prelude.{◌≡◌, ◌<◌, ◌↔◌, [], false, is_err, IsErr, IsTrue, IfErr, IfOk, OnErr, OnOk};
ghost use Rattle.zone_place.specs.declared.loads.TheConstants.{MAX_DRIVES};
ghost use Rattle.server_rules.specs.Making.{add_drive, set_format};
ghost use Rattle.layout_server.specs.Adding.{IsNew, drive_of};
ghost use Rattle.layout_server.specs.Zones.{is_in_zone, is_known};
ghost use Rattle.server_journal.specs.Errors.{HasJournalCause, IsOfDisk};

use crate::errors::JournalErr;
use crate::server::JournaledServer;
use layout_server::{DriveInfo, ZoneErr};
use osd_disk::Disk;

impl<D: Disk> JournaledServer<D> {
    ghost use Rattle.server_journal.specs.Calls.{Answered, CutOffBefore, after_putting};
    ghost use Rattle.server_journal.specs.Journals.{core_of, disk_in, is_over_in};

    /// The server knows a further drive, of a new number below 64.
    ///
    /// # Errors
    ///
    /// [`JournalErr::DiskFault`] and [`JournalErr::Memory`], after which the server is over.
    pub fn add_drive(&mut self, info: DriveInfo) -> Result<(), JournalErr>
        requires goes_on { is_over_in self.old ≡ false }
        requires new { IsNew info.number (core_of self.old).drives }
        requires low { info.number < MAX_DRIVES }
        ensures did { OnOk result
            (core_of self.new ≡ record (core_of self.old) { drives = add_drive (core_of self.old).drives (drive_of info) }) }
        ensures answered { OnOk result (Answered D.Disk self.old self.new []) }
        ensures cut_off { OnErr result (CutOffBefore D.Disk self.old self.new
            (record (core_of self.old) { drives = add_drive (core_of self.old).drives (drive_of info) })) }
        ensures error { IfErr result IsOfDisk }
        ensures over { is_over_in self.new ≡ is_err result }
        ensures cause { HasJournalCause (D.faults (disk_in self.old)) (D.faults (disk_in self.new)) result }
    {
        self.is_over = true;
        self.kept.add_drive(info)?;
        match self.keep(&[]) {
            Ok(()) => Ok(()),
            Err(e) => Err(e),
        }
    }

    /// Fences leave files with this format at least, 1 or 2: the server's format becomes the greater of itself and this.
    ///
    /// # Errors
    ///
    /// [`JournalErr::DiskFault`] and [`JournalErr::Memory`], after which the server is over.
    pub fn set_format(&mut self, format: u8) -> Result<(), JournalErr>
        requires goes_on { is_over_in self.old ≡ false }
        ensures did { OnOk result (core_of self.new ≡ set_format (core_of self.old) format) }
        ensures answered { OnOk result (Answered D.Disk self.old self.new []) }
        ensures cut_off { OnErr result (CutOffBefore D.Disk self.old self.new (set_format (core_of self.old) format)) }
        ensures error { IfErr result IsOfDisk }
        ensures over { is_over_in self.new ≡ is_err result }
        ensures cause { HasJournalCause (D.faults (disk_in self.old)) (D.faults (disk_in self.new)) result }
    {
        self.is_over = true;
        self.kept.set_format(format)?;
        match self.keep(&[]) {
            Ok(()) => Ok(()),
            Err(e) => Err(e),
        }
    }

    /// A drive that is in no zone is put into one. There has to be such a drive.
    ///
    /// # Errors
    ///
    /// `Ok(Err(ZoneErr::Taken))` exactly if the drive is in a zone: then it stays there. [`JournalErr::DiskFault`] and
    /// [`JournalErr::Memory`], after which the server is over.
    pub fn set_zone(&mut self, drive: u32, zone: u32) -> Result<Result<(), ZoneErr>, JournalErr>
        requires goes_on { is_over_in self.old ≡ false }
        requires known { IsTrue (is_known drive (core_of self.old).drives) }
        ensures did { OnOk result (core_of self.new ≡ after_putting (core_of self.old) drive zone) }
        ensures taken { IfOk result (λ put. IsErr put ↔ IsTrue (is_in_zone drive (core_of self.old).drives)) }
        ensures stays { IfOk result (λ put. IsErr put → core_of self.new ≡ core_of self.old) }
        ensures answered { OnOk result (Answered D.Disk self.old self.new []) }
        ensures cut_off { OnErr result (CutOffBefore D.Disk self.old self.new (after_putting (core_of self.old) drive zone)) }
        ensures error { IfErr result IsOfDisk }
        ensures over { is_over_in self.new ≡ is_err result }
        ensures cause { HasJournalCause (D.faults (disk_in self.old)) (D.faults (disk_in self.new)) result }
    {
        self.is_over = true;
        let put = self.kept.set_zone(drive, zone)?;
        match self.keep(&[]) {
            Ok(()) => Ok(put),
            Err(e) => Err(e),
        }
    }
}
