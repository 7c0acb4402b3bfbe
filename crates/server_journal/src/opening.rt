// A journal that is made, and one that is opened.
ghost use Rattle.std.specs.Prelude.{◌≡◌, ◌<◌, ◌++◌, [], false, length, IsTrue, IfOk, IfErr, OnOk};
ghost use Rattle.osd_disk.specs.Crashes.{OnlyRead};
ghost use Rattle.gate_log.specs.Standing.{disk_of, gate_of, over_of, read_disk};
ghost use Rattle.server_rules.specs.declared.server.Server.{Server};
ghost use Rattle.server_rules.specs.Making.{new_server};
ghost use Rattle.server_rules.specs.Openings.{crash, reopen};
ghost use Rattle.server_state.specs.States.{Did};
ghost use Rattle.layout_server.specs.Adding.{CanAdd, and_drives};
ghost use Rattle.kept_server.specs.Keeping.{Follows};
ghost use Rattle.server_notes.specs.Asking.{asking};
ghost use Rattle.server_journal.specs.Counters.{CountsOn};
ghost use Rattle.server_journal.specs.Errors.{HasErrCause, HasJournalCause, IsOfDisk, NotAJournalSays, NotEmptySays};
ghost use Rattle.server_journal.specs.Opening.{HasTaken, IsNoJournalAt};

use crate::errors::JournalErr;
use crate::header::{header_bytes, is_header};
use crate::made::MadeObjects;
use crate::record::take_record;
use crate::server::JournaledServer;
use gate_log::{GateLog, LogReader};
use kept_server::{KeptServer, Restoration};
use layout_server::{DriveTable, Step};
use osd_disk::Disk;
use server_entries::Applied;
use server_notes::KeptNotes;
use server_rules::Note;
use std::alloc::Global;

// Takes all records that come into the server to which those before them lead.
fn take_records<D: Disk>(
    alloc: Global,
    reader: &mut LogReader<D>,
    restoration: &mut Restoration,
    made: &mut MadeObjects,
    noted: &mut KeptNotes,
) -> Result<(), JournalErr>
    ensures taken { OnOk result (HasTaken D.Disk restoration.old made.old noted.old reader.old
        → HasTaken D.Disk restoration.new made.new noted.new reader.new) }
    ensures end { OnOk result (gate_of reader.new ≡ 0) }
    ensures refused { IfErr result (NotAJournalSays (λ at. HasTaken D.Disk restoration.old made.old noted.old reader.old
        → IsNoJournalAt (D.seen (read_disk reader.old)) at)) }
    ensures disk { OnlyRead D.tells D.seen D.may_leave D.moment D.left_since (read_disk reader.old) (read_disk reader.new) }
    ensures cause { HasJournalCause (D.faults (read_disk reader.old)) (D.faults (read_disk reader.new)) result }
{
    let mut at = reader.place();
    while let Some(body) = reader.next(alloc)? {
        match take_record(alloc, restoration, made, noted, body.as_slice())? {
            Applied::Done => {}
            Applied::Unmade => return Err(JournalErr::NotAJournal { at }),
        }
        at = reader.place();
    }
    Ok(())
}

impl<D: Disk> JournaledServer<D> {
    ghost use Rattle.server_journal.specs.Journals.{IsKept, KeepsServer, LeavesStep, core_of, disk_in, is_over_in, made_of, noted_of};
    ghost use Rattle.server_journal.specs.Opening.{LeavesOpening, Opened};

    // The server with its log, once what its first call changed and told is there.
    fn begin(
        alloc: Global,
        kept: KeptServer,
        made: MadeObjects,
        noted: KeptNotes,
        told: &[Note],
        log: GateLog<D>,
    ) -> Result<Self, (JournalErr, D)>
        requires runs { over_of log ≡ false }
        ensures server { IfOk result (λ j. core_of j ≡ kept.server) }
        ensures objects { IfOk result (λ j. made_of j ≡ made) }
        ensures notes { IfOk result (λ j. noted_of j ≡ noted ++ asking told.now) }
        ensures any_moment { IfOk result (λ j. (was : Server) → Follows was kept → KeepsServer D.Disk was made noted log
            → LeavesStep D.Disk (disk_of log) (disk_in j) made was noted (crash kept.server) told.now) }
        ensures kept { IfOk result (λ j. (was : Server) → Follows was kept → KeepsServer D.Disk was made noted log
            → IsKept D.Disk j) }
        ensures goes_on { IfOk result (λ j. is_over_in j ≡ false) }
        ensures cut_off { IfErr result (λ e. (was : Server) → Follows was kept → KeepsServer D.Disk was made noted log
            → LeavesStep D.Disk (disk_of log) e.1 made was noted (crash kept.server) told.now) }
        ensures error { IfErr result (λ e. IsOfDisk e.0) }
        ensures cause { IfErr result (λ e. HasErrCause (D.faults (disk_of log)) (D.faults e.1) e.0) }
        ensures no_fault { IfOk result (λ j. D.faults (disk_in j) ≡ D.faults (disk_of log)) }
        ensures quiet { IfOk result (λ j. kept.changes.entries ≡ [] → asking told.now ≡ [] → disk_in j ≡ disk_of log) }
    {
        let mut server = JournaledServer::of(alloc, kept, made, noted, log);
        match server.keep(told) {
            Ok(()) => Ok(server),
            Err(e) => Err((e, server.into_disk())),
        }
    }

    // The server that the records in a log made, once the step of its opening is there too.
    fn reopen(
        alloc: Global,
        restoration: Restoration,
        made: MadeObjects,
        noted: KeptNotes,
        log: GateLog<D>,
    ) -> Result<(Self, Step), (JournalErr, D)>
        requires runs { over_of log ≡ false }
        ensures did { IfOk result (λ found. Did found.1 (core_of found.0) (reopen restoration)) }
        ensures objects { IfOk result (λ found. made_of found.0 ≡ made) }
        ensures notes { IfOk result (λ found. noted_of found.0 ≡ noted ++ asking found.1.notes) }
        ensures any_moment { IfOk result (λ found. KeepsServer D.Disk restoration made noted log
            → LeavesStep D.Disk (disk_of log) (disk_in found.0) made restoration noted (crash (reopen restoration).state)
            (reopen restoration).notes) }
        ensures kept { IfOk result (λ found. KeepsServer D.Disk restoration made noted log → IsKept D.Disk found.0) }
        ensures counts { IfOk result (λ found. CountsOn restoration (core_of found.0)) }
        ensures goes_on { IfOk result (λ found. is_over_in found.0 ≡ false) }
        ensures cut_off { IfErr result (λ e. KeepsServer D.Disk restoration made noted log
            → LeavesStep D.Disk (disk_of log) e.1 made restoration noted (crash (reopen restoration).state)
            (reopen restoration).notes) }
        ensures error { IfErr result (λ e. IsOfDisk e.0) }
        ensures cause { IfErr result (λ e. HasErrCause (D.faults (disk_of log)) (D.faults e.1) e.0) }
        ensures no_fault { IfOk result (λ found. D.faults (disk_in found.0) ≡ D.faults (disk_of log)) }
        ensures idle { IfOk result (λ found. restoration ≡ crash (reopen restoration).state → asking found.1.notes ≡ []
            → disk_in found.0 ≡ disk_of log) }
    {
        let (kept, step) = match restoration.open(alloc) {
            Ok(opened) => opened,
            Err(_) => return Err((JournalErr::Memory, log.into_disk())),
        };
        match JournaledServer::begin(alloc, kept, made, noted, step.notes.as_slice(), log) {
            Ok(server) => Ok((server, step)),
            Err(refusal) => Err(refusal),
        }
    }

    /// Makes the journal of a server without files, with these drives, on a disk that has no bytes.
    ///
    /// If a crash or an error cuts it off, the disk has to be made empty and the call repeated.
    ///
    /// # Errors
    ///
    /// [`JournalErr::NotEmpty`] exactly if the disk has bytes, [`JournalErr::DiskFault`] and [`JournalErr::Memory`]. The disk
    /// comes back.
    pub fn create(alloc: Global, disk: D, drives: DriveTable) -> Result<Self, (JournalErr, D)>
        requires drives { CanAdd [] drives }
        ensures server { IfOk result (λ j. core_of j ≡ new_server (and_drives [] drives)) }
        ensures none { IfOk result (λ j. made_of j ≡ []) }
        ensures silent { IfOk result (λ j. noted_of j ≡ []) }
        ensures kept { IfOk result (λ j. IsTrue (D.tells disk) → IsKept D.Disk j) }
        ensures empty { IfOk result (λ j. IsTrue (D.tells disk) → D.seen disk ≡ []) }
        ensures goes_on { IfOk result (λ j. is_over_in j ≡ false) }
        ensures refused { IfErr result (λ e. NotEmptySays (λ size. IsTrue (D.tells disk)
            → (size ≡ length (D.seen disk)) × (0 < size)) e.0) }
        ensures cause { IfErr result (λ e. HasErrCause (D.faults disk) (D.faults e.1) e.0) }
        ensures no_fault { IfOk result (λ j. D.faults (disk_in j) ≡ D.faults disk) }
    {
        let kept = match KeptServer::new(alloc, drives) {
            Ok(kept) => kept,
            Err(_) => return Err((JournalErr::Memory, disk)),
        };
        let header = header_bytes();
        let log = match GateLog::create(disk, &header) {
            Ok(log) => log,
            Err((e, disk)) => return Err((JournalErr::from(e), disk)),
        };
        let made = MadeObjects::new(alloc);
        let noted = KeptNotes::new(alloc);
        match JournaledServer::begin(alloc, kept, made, noted, &[], log) {
            Ok(server) => Ok(server),
            Err(refusal) => Err(refusal),
        }
    }

    /// Opens the journal that stands on a disk: the server to which its records lead, as the rules open it, and what that
    /// step sends. What the step changes, and each of its notes that asks for something, is on the disk at `Ok`; if that is
    /// nothing, nothing is written. It reads one record at a time.
    ///
    /// # Errors
    ///
    /// [`JournalErr::NotAJournal`] with the first place from which on the bytes aren't in the form of a journal, or aren't
    /// entries of which something can be made; [`JournalErr::DiskFault`] and [`JournalErr::Memory`]. The disk comes back.
    pub fn open(alloc: Global, disk: D) -> Result<(Self, Step), (JournalErr, D)>
        ensures opened { IfOk result (λ found. IsTrue (D.tells disk) → Opened D.Disk disk found.0 found.1) }
        ensures goes_on { IfOk result (λ found. is_over_in found.0 ≡ false) }
        ensures refused { IfErr result (λ e. NotAJournalSays (λ at. IsTrue (D.tells disk)
            → IsNoJournalAt (D.seen disk) at) e.0) }
        ensures cut_off { IfErr result (λ e. IsTrue (D.tells disk) → LeavesOpening D.Disk disk e.1) }
        ensures cause { IfErr result (λ e. HasErrCause (D.faults disk) (D.faults e.1) e.0) }
        ensures no_fault { IfOk result (λ found. D.faults (disk_in found.0) ≡ D.faults disk) }
    {
        let mut reader = match LogReader::open(disk) {
            Ok(reader) => reader,
            Err((e, disk)) => return Err((JournalErr::from(e), disk)),
        };
        let bytes = reader.header().bytes;
        if !is_header(&bytes) {
            return Err((JournalErr::NotAJournal { at: 0 }, reader.into_disk()));
        }
        let mut restoration = Restoration::new(alloc);
        let mut made = MadeObjects::new(alloc);
        let mut noted = KeptNotes::new(alloc);
        match take_records(alloc, &mut reader, &mut restoration, &mut made, &mut noted) {
            Ok(()) => {}
            Err(e) => return Err((e, reader.into_disk())),
        }
        match JournaledServer::reopen(alloc, restoration, made, noted, reader.into_log()) {
            Ok(opened) => Ok(opened),
            Err(refusal) => Err(refusal),
        }
    }
}
