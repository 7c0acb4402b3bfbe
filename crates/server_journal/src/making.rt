// Files that are made.
ghost use Rattle.std.specs.Prelude.{◌≡◌, false, true, IfErr, IfOk, OnOk};
ghost use Rattle.data_map.specs.Check.{HasAlgorithm};
ghost use Rattle.server_state.specs.States.{HasRoom};
ghost use Rattle.layout_server.specs.Calls.{Makes};

use crate::errors::{JournalErr, JournalFileErr};
use crate::server::JournaledServer;
use data_map::RawMap;
use layout_server::{FileErr, Step};
use osd_disk::Disk;
use stripe_repair::Place;

impl<D: Disk> JournaledServer<D> {
    ghost use Rattle.server_journal.specs.Calls.{Answered, MakesNot};
    ghost use Rattle.server_journal.specs.Journals.{core_of, disk_in, is_over_in};

    /// A file is made on drives that the placer names, and its components are sent CREATE. Zones count for nothing. What changes
    /// is on the disk at `Ok`.
    ///
    /// # Errors
    ///
    /// As [`JournalFileErr`] says. [`JournalFileErr::Journal`] ends the server; else nothing is changed, and no call of the disk
    /// made.
    pub fn create_file<P: Place>(
        &mut self,
        file: u32,
        raw: RawMap,
        tag: u32,
        placer: &P,
    ) -> Result<Step, JournalFileErr>
        requires goes_on { is_over_in self.old ≡ false }
        requires room { HasRoom (core_of self.old) }
        requires placer { P.is_placer placer.now }
        requires algorithm { HasAlgorithm raw }
        ensures made { IfOk result (λ out. Makes file raw tag false (core_of self.old) (core_of self.new) out) }
        ensures answered { IfOk result (λ out. Answered D.Disk self.old self.new out.notes) }
        ensures goes_on { OnOk result (is_over_in self.new ≡ false) }
        ensures same { OnOk result (D.faults (disk_in self.new) ≡ D.faults (disk_in self.old)) }
        ensures refused { IfErr result (MakesNot D.Disk self.old self.new file raw tag false) }
    {
        self.is_over = true;
        let step = match self.kept.create_file(file, raw, tag, placer) {
            Ok(step) => step,
            Err(FileErr::Memory) => return Err(JournalFileErr::Journal(JournalErr::Memory)),
            Err(e) => {
                self.is_over = false;
                return Err(JournalFileErr::from(e));
            }
        };
        match self.keep(step.notes.as_slice()) {
            Ok(()) => Ok(step),
            Err(e) => Err(JournalFileErr::Journal(e)),
        }
    }

    /// A file is made on drives that the placer spreads over zones, and its components are sent CREATE. Drives that are in no
    /// zone count for nothing. What changes is on the disk at `Ok`.
    ///
    /// # Errors
    ///
    /// As [`JournalFileErr`] says. [`JournalFileErr::Journal`] ends the server; else nothing is changed, and no call of the disk
    /// made.
    pub fn create_zoned<P: Place>(
        &mut self,
        file: u32,
        raw: RawMap,
        tag: u32,
        placer: &P,
    ) -> Result<Step, JournalFileErr>
        requires goes_on { is_over_in self.old ≡ false }
        requires room { HasRoom (core_of self.old) }
        requires placer { P.is_placer placer.now }
        requires algorithm { HasAlgorithm raw }
        ensures made { IfOk result (λ out. Makes file raw tag true (core_of self.old) (core_of self.new) out) }
        ensures answered { IfOk result (λ out. Answered D.Disk self.old self.new out.notes) }
        ensures goes_on { OnOk result (is_over_in self.new ≡ false) }
        ensures same { OnOk result (D.faults (disk_in self.new) ≡ D.faults (disk_in self.old)) }
        ensures refused { IfErr result (MakesNot D.Disk self.old self.new file raw tag true) }
    {
        self.is_over = true;
        let step = match self.kept.create_zoned(file, raw, tag, placer) {
            Ok(step) => step,
            Err(FileErr::Memory) => return Err(JournalFileErr::Journal(JournalErr::Memory)),
            Err(e) => {
                self.is_over = false;
                return Err(JournalFileErr::from(e));
            }
        };
        match self.keep(step.notes.as_slice()) {
            Ok(()) => Ok(step),
            Err(e) => Err(JournalFileErr::Journal(e)),
        }
    }
}
