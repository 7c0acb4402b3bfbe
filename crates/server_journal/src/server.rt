// A server and its log.
ghost use Rattle.std.specs.Prelude.{◌≡◌, ◌↔◌, ◌++◌, ◌∷◌, [], List, ℕ, false, is_err, map, option_map, IsTrue, IfOk, IfErr, OnOk, OnErr};
ghost use Rattle.std.specs.Option.{option_copied};
ghost use Rattle.gate_log.specs.Standing.{over_of};
ghost use Rattle.server_rules.specs.Envelopes.{on_bytes};
ghost use Rattle.server_rules.specs.Files.{file_at};
ghost use Rattle.server_rules.specs.Messages.{counters_have_room, resend};
ghost use Rattle.server_rules.specs.Openings.{crash};
ghost use Rattle.server_requests.specs.Sending.{all_sent};
ghost use Rattle.server_state.specs.States.{Did, HasRoom};
ghost use Rattle.server_rules.specs.declared.server.Server.{Server};
ghost use Rattle.kept_server.specs.Keeping.{Follows};
ghost use Rattle.layout_server.specs.Resending.{waited_of};
ghost use Rattle.server_journal.specs.declared.errors.JournalErr.TheVariants.{Memory as NoMemory};
ghost use Rattle.server_notes.specs.Asking.{asking};
ghost use Rattle.server_journal.specs.Errors.{HasJournalCause, IsOfDisk};

use crate::errors::JournalErr;
use crate::made::{MadeObject, MadeObjects, made_bytes};
use crate::record::entries_of;
use gate_log::{Entry, GateLog};
use kept_server::KeptServer;
use layout_server::{Sends, Step};
use osd_disk::Disk;
use osd_lists::{Node, Numbers};
use server_notes::{KeptNotes, keep_asking};
use server_rules::{Drive, Kept, Note};
use std::alloc::Global;
use stripe_repair::Place;

/// A metadata server that has each change on a disk before it answers.
#[derive(Drop)]
pub struct JournaledServer<D> {
    pub(crate) alloc: Global,
    pub(crate) kept: KeptServer,
    // What drives have made for it, as its log tells.
    pub(crate) made: MadeObjects,
    // What asks for something, as its log tells.
    pub(crate) noted: KeptNotes,
    pub(crate) log: GateLog<D>,
    // A call that changes the server began and wasn't answered.
    pub(crate) is_over: bool,
    ghost log_runs: { is_over ≡ false → over_of log ≡ false },
}

impl<D> JournaledServer<D> {
    ghost use Rattle.server_journal.specs.Journals.{core_of, disk_in, is_over_in, made_of, noted_of};

    // The server with its log, before its first call.
    pub(crate) fn of(
        alloc: Global,
        kept: KeptServer,
        made: MadeObjects,
        noted: KeptNotes,
        log: GateLog<D>,
    ) -> Self
        requires { over_of log ≡ false }
        ensures { (result.kept ≡ kept) × (result.log ≡ log) × (made_of result ≡ made) × (noted_of result ≡ noted)
            × (is_over_in result ≡ false) }
    {
        JournaledServer {
            alloc,
            kept,
            made,
            noted,
            log,
            is_over: false,
        }
    }

    /// Whether a call that may change the server ended for a fault of the disk or want of memory. Then the journal has to be
    /// opened again.
    pub fn is_over(&self) -> bool
        ensures { result ≡ is_over_in self.now }
    {
        self.is_over
    }

    /// The disk, with the journal on it.
    pub fn into_disk(self) -> D
        ensures { result ≡ disk_in self }
    {
        self.log.into_disk()
    }

    /// The server as it is in memory, and the disk.
    pub fn into_parts(self) -> (KeptServer, D)
        ensures server { result.0.server ≡ core_of self }
        ensures disk { result.1 ≡ disk_in self }
    {
        (self.kept, self.log.into_disk())
    }

    /// Every command that a job waits for, once more. It makes no call of the disk. A server that is over sends nothing: its last
    /// step may not be on the disk, and a nonce that isn't kept is given again.
    ///
    /// # Errors
    ///
    /// [`JournalErr::Memory`], also in place of what a server that is over would send.
    pub fn resend(&self) -> Result<Sends, JournalErr>
        ensures sends { IfOk result (λ sends. sends ≡ all_sent (resend (core_of self.now))) }
        ensures goes_on { OnOk result (is_over_in self.now ≡ false) }
        ensures error { IfErr result (λ e. e ≡ NoMemory) }
    {
        if self.is_over {
            return Err(JournalErr::Memory);
        }
        let sends = self.kept.resend()?;
        Ok(sends)
    }

    /// The lowest component that a file's job waits for, `None` exactly where no job of it runs.
    pub fn waits(&self, file: u32) -> Option<u32>
        ensures { result ≡ waited_of (file_at (core_of self.now).files file) }
    {
        self.kept.waits(file)
    }

    /// Whether the counters of 64 bits have room: each is below 9,223,372,036,854,775,808.
    pub fn counters_low(&self) -> bool
        ensures value { result ≡ counters_have_room (core_of self.now) }
        ensures room { IsTrue result ↔ HasRoom (core_of self.now) }
    {
        self.kept.counters_low()
    }

    /// What is kept of a file, `None` exactly where there is no such file.
    pub fn file(&self, number: u32) -> Option<&Kept>
        ensures { option_copied result ≡ option_map (λ f. f.kept) (file_at (core_of self.now).files number) }
    {
        self.kept.file(number)
    }

    /// The numbers of the files, in rising order.
    pub fn file_numbers(&self) -> Result<Numbers, JournalErr>
        ensures numbers { IfOk result (λ numbers. numbers ≡ map (λ f. f.kept.number) (core_of self.now).files) }
        ensures error { IfErr result (λ e. e ≡ NoMemory) }
    {
        let numbers = self.kept.file_numbers()?;
        Ok(numbers)
    }

    /// The drives, in order of their numbers.
    pub fn drives(&self) -> &[Drive]
        ensures { result.now ≡ (core_of self.now).drives }
    {
        self.kept.drives()
    }

    /// The objects that drives have made for the server, as far as it was told, in the order in which it was.
    pub fn made(&self) -> &[MadeObject]
        ensures { result.now ≡ made_of self.now }
    {
        self.made.as_slice()
    }

    /// The notes that ask for something, in the order in which they were told, without those with which an operator has dealt.
    pub fn noted(&self) -> &[Note]
        ensures { result.now ≡ noted_of self.now }
    {
        self.noted.as_slice()
    }
}

impl<D: Disk> JournaledServer<D> {
    ghost use Rattle.server_journal.specs.Calls.{Answered, CutOff};
    ghost use Rattle.server_journal.specs.Journals.{IsKept, KeepsServer, LeavesStep, core_of, disk_in, is_over_in, made_of};
    ghost use Rattle.server_journal.specs.Journals.{LeavesMade, noted_of};

    // Has what the last call changed of what is kept on the disk, and those of its notes that ask for something. Where there is
    // neither, no call of the disk is made.
    pub(crate) fn keep(&mut self, told: &[Note]) -> Result<(), JournalErr>
        requires runs { over_of self.old.log ≡ false }
        ensures kept_server { self.new.kept ≡ self.old.kept }
        ensures kept_made { made_of self.new ≡ made_of self.old }
        ensures noted { OnOk result (noted_of self.new ≡ noted_of self.old ++ asking told.now) }
        ensures any_moment { (was : Server) → Follows was self.old.kept
            → KeepsServer D.Disk was self.old.made self.old.noted self.old.log
            → LeavesStep D.Disk (disk_in self.old) (disk_in self.new) (made_of self.old) was (noted_of self.old)
            (crash (core_of self.old)) told.now }
        ensures kept { OnOk result ((was : Server) → Follows was self.old.kept
            → KeepsServer D.Disk was self.old.made self.old.noted self.old.log → IsKept D.Disk self.new) }
        ensures quiet { self.old.kept.changes.entries ≡ [] → asking told.now ≡ [] → disk_in self.new ≡ disk_in self.old }
        ensures error { IfErr result IsOfDisk }
        ensures over { is_over_in self.new ≡ is_err result }
        ensures cause { HasJournalCause (D.faults (disk_in self.old)) (D.faults (disk_in self.new)) result }
    {
        self.is_over = true;
        let entries = entries_of(self.alloc, self.kept.changes(), told)?;
        keep_asking(self.alloc, &mut self.noted, told)?;
        match self.log.append_all(&entries) {
            Ok(()) => {}
            Err(e) => return Err(JournalErr::from(e)),
        }
        self.is_over = false;
        Ok(())
    }

    /// A drive has made an object for the server, as its answer to a CREATE said. That is on the disk at `Ok`, and the server
    /// is as it was: a crash at any moment of the call leaves it with all objects that were made before, and with this one or
    /// without it.
    ///
    /// # Errors
    ///
    /// [`JournalErr::DiskFault`] and [`JournalErr::Memory`], after which the server is over.
    pub fn keep_made(&mut self, object: MadeObject) -> Result<(), JournalErr>
        requires goes_on { is_over_in self.old ≡ false }
        ensures server { core_of self.new ≡ core_of self.old }
        ensures noted { noted_of self.new ≡ noted_of self.old }
        ensures made { OnOk result (made_of self.new ≡ made_of self.old ++ object ∷ []) }
        ensures any_moment { IsKept D.Disk self.old → LeavesMade D.Disk self.old self.new object }
        ensures kept { OnOk result (IsKept D.Disk self.old → IsKept D.Disk self.new) }
        ensures error { IfErr result IsOfDisk }
        ensures over { is_over_in self.new ≡ is_err result }
        ensures cause { HasJournalCause (D.faults (disk_in self.old)) (D.faults (disk_in self.new)) result }
    {
        self.is_over = true;
        let bytes = made_bytes(object);
        let entry = Entry::new(self.alloc, &bytes)?;
        self.made.push(object)?;
        match self.log.append(&entry) {
            Ok(()) => {}
            Err(e) => return Err(JournalErr::from(e)),
        }
        self.is_over = false;
        Ok(())
    }

    /// Bytes come from a node, at a time of the server's clock in seconds. Nothing changes where they can't be read,
    /// where their sender may not send such a message, or where the counters have no room. What changes is on the disk
    /// at `Ok`: a crash at any moment of the call leaves a journal of the server as it was or after the step, and after the
    /// answer one of the latter; the notes of the step that ask for something are in it with the step, and never without it.
    /// Where nothing changes that a crash would take, and nothing is told that asks for something, no call of the disk is made.
    ///
    /// # Errors
    ///
    /// [`JournalErr::DiskFault`] and [`JournalErr::Memory`], after which the server is over.
    pub fn on_message<P: Place>(
        &mut self,
        now: u64,
        from: Node,
        bytes: &[u8],
        placer: &P,
    ) -> Result<Step, JournalErr>
        requires goes_on { is_over_in self.old ≡ false }
        requires placer { P.is_placer placer.now }
        ensures did { IfOk result (λ out. (chosen : List ℕ)
            × Did out (core_of self.new) (on_bytes (core_of self.old) now chosen from bytes.now)) }
        ensures answered { IfOk result (λ out. Answered D.Disk self.old self.new out.notes) }
        ensures cut_off { OnErr result (CutOff D.Disk self.old self.new
            (λ chosen. on_bytes (core_of self.old) now chosen from bytes.now)) }
        ensures error { IfErr result IsOfDisk }
        ensures over { is_over_in self.new ≡ is_err result }
        ensures cause { HasJournalCause (D.faults (disk_in self.old)) (D.faults (disk_in self.new)) result }
    {
        self.is_over = true;
        let step = self.kept.on_message(now, from, bytes, placer)?;
        match self.keep(step.notes.as_slice()) {
            Ok(()) => Ok(step),
            Err(e) => Err(e),
        }
    }
}
