// An operator deals with what notes ask for.
ghost use Rattle.std.specs.Prelude.{◌≡◌, false, is_err, IfErr, OnOk};
ghost use Rattle.server_notes.specs.Asking.{without};
ghost use Rattle.server_journal.specs.Errors.{HasJournalCause, IsOfDisk};

use crate::errors::JournalErr;
use crate::server::JournaledServer;
use gate_log::Entry;
use osd_disk::Disk;
use server_notes::{Remark, dealt_bytes, take_remark};

impl<D: Disk> JournaledServer<D> {
    ghost use Rattle.server_journal.specs.Journals.{IsKept, LeavesDealt, core_of, disk_in, is_over_in, made_of, noted_of};

    /// An operator has dealt with what the notes of a file ask for: they are kept no more. That is on the disk at `Ok`, and the
    /// server is as it was: a crash at any moment of the call leaves it with all notes, or with those of other files.
    ///
    /// # Errors
    ///
    /// [`JournalErr::DiskFault`] and [`JournalErr::Memory`], after which the server is over.
    pub fn dealt(&mut self, file: u32) -> Result<(), JournalErr>
        requires goes_on { is_over_in self.old ≡ false }
        ensures server { core_of self.new ≡ core_of self.old }
        ensures made { made_of self.new ≡ made_of self.old }
        ensures noted { OnOk result (noted_of self.new ≡ without (noted_of self.old) file) }
        ensures any_moment { IsKept D.Disk self.old → LeavesDealt D.Disk self.old self.new file }
        ensures kept { OnOk result (IsKept D.Disk self.old → IsKept D.Disk self.new) }
        ensures error { IfErr result IsOfDisk }
        ensures over { is_over_in self.new ≡ is_err result }
        ensures cause { HasJournalCause (D.faults (disk_in self.old)) (D.faults (disk_in self.new)) result }
    {
        self.is_over = true;
        let body = dealt_bytes(self.alloc, file)?;
        let entry = Entry::new(self.alloc, body.as_slice())?;
        take_remark(self.alloc, &mut self.noted, Remark::Dealt { file })?;
        match self.log.append(&entry) {
            Ok(()) => {}
            Err(e) => return Err(JournalErr::from(e)),
        }
        self.is_over = false;
        Ok(())
    }
}
