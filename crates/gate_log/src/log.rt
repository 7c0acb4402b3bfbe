ghost use Rattle.std.specs.Prelude.{◌≡◌, ◌<◌, ◌^◌, ◌⊎◌, ◌∷◌, [], ◌++◌, List, ℕ, IsTrue, Bool, true, false, length, is_err, OnOk, IfOk, IfErr};
ghost use Rattle.osd_disk.specs.Crashes.{LeavesOnly};
ghost use Rattle.gate_log.specs.Errors.{HasErrCause, HasLogCause, IsOfDisk, NotEmptySays};
ghost use Rattle.gate_log.specs.Logs.{IsLog};
ghost use Rattle.gate_log.specs.Pieces.{AddBodies};
ghost use Rattle.gate_log.specs.Written.{IsAppended};

use crate::entries::Entries;
use crate::entry::{Entry, OPEN_GATE};
use crate::errors::LogErr;
use crate::header::HEADER_SIZE;
use crate::record::write_first;
use osd_disk::Disk;

/// A log that can be added to. Behind its last record stands a closed gate, which is on the disk
/// before anything is written behind it.
#[derive(Drop)]
pub struct GateLog<D> {
    disk: D,
    end: u64,
    is_over: bool,
    ghost low: { end < 2 ^ 63 },
}

impl<D> GateLog<D> {
    ghost use Rattle.gate_log.specs.Standing.{disk_of, over_of};

    // A log whose closed gate stands at this place.
    pub fn ending_at(disk: D, end: u64) -> Self
        requires { end < 2 ^ 63 }
        ensures disk { disk_of result ≡ disk }
        ensures end { result.end ≡ end }
        ensures over { over_of result ≡ false }
    {
        GateLog {
            disk,
            end,
            is_over: false,
        }
    }

    /// Whether a call of the disk failed, or the log was given up. Then it has to be opened again.
    pub fn is_over(&self) -> bool
        ensures { result ≡ over_of self.now }
    {
        self.is_over
    }

    /// Ends the log, as a call of the disk that failed would.
    pub fn give_up(&mut self)
        ensures disk { disk_of self.new ≡ disk_of self.old }
        ensures over { over_of self.new ≡ true }
    {
        self.is_over = true;
    }

    /// The disk, with the log on it.
    pub fn into_disk(self) -> D
        ensures { result ≡ disk_of self }
    {
        self.disk
    }
}

impl<D: Disk> GateLog<D> {
    ghost use Rattle.gate_log.specs.Standing.{IsAtRest, disk_of, over_of};
    ghost use Rattle.gate_log.specs.Together.{HaveBodies};

    /// Makes a log with no record on a disk that has no bytes. Three calls of the disk, of which one
    /// is a sync.
    ///
    /// Where a crash or an error cuts it off, the disk has to be made empty and the call repeated.
    ///
    /// # Errors
    ///
    /// [`LogErr::NotEmpty`] exactly where the disk has bytes, [`LogErr::DiskFault`] and
    /// [`LogErr::Memory`] of the disk. The disk comes back.
    pub fn create(disk: D, header: &[u8; HEADER_SIZE]) -> Result<Self, (LogErr, D)>
        ensures made { IfOk result (λ log. IsTrue (D.tells disk) → IsAtRest D.tells D.seen D.may_leave header.now [] log) }
        ensures empty { IfOk result (λ log. IsTrue (D.tells disk) → D.seen disk ≡ []) }
        ensures written { IfOk result (λ log. IsTrue (D.tells disk) → IsAppended header.now [] (D.seen (disk_of log))) }
        ensures over { IfOk result (λ log. over_of log ≡ false) }
        ensures refused { IfErr result
            (λ e. NotEmptySays (λ size. IsTrue (D.tells disk) → (size ≡ length (D.seen disk)) × (0 < size)) e.0) }
        ensures cause { IfErr result (λ e. HasErrCause (D.faults disk) (D.faults e.1) e.0) }
        ensures no_fault { IfOk result (λ log. D.faults (disk_of log) ≡ D.faults disk) }
    {
        let mut disk = disk;
        match write_first(&mut disk, header) {
            Ok(()) => Ok(GateLog {
                disk,
                end: HEADER_SIZE as u64,
                is_over: false,
            }),
            Err(e) => Err((e, disk)),
        }
    }

    // Writes records behind the closed gate and syncs them, then opens the gate and syncs it.
    fn add(&mut self, pieces: &[u8]) -> Result<(), LogErr>
        ensures any_moment { (header : List ℕ) (bodies more : List (List ℕ)) → AddBodies more pieces.now
            → IsAtRest D.tells D.seen D.may_leave header bodies self.old
            → LeavesOnly D.moment D.left_since (disk_of self.old) (disk_of self.new)
            (λ c. IsLog header bodies c ⊎ IsLog header (bodies ++ more) c) }
        ensures added { OnOk result ((header : List ℕ) (bodies more : List (List ℕ)) → AddBodies more pieces.now
            → IsAtRest D.tells D.seen D.may_leave header bodies self.old
            → IsAtRest D.tells D.seen D.may_leave header (bodies ++ more) self.new) }
        ensures written { OnOk result ((header : List ℕ) (bodies more : List (List ℕ)) → AddBodies more pieces.now
            → IsAtRest D.tells D.seen D.may_leave header bodies self.old
            → IsAppended header bodies (D.seen (disk_of self.old))
            → IsAppended header (bodies ++ more) (D.seen (disk_of self.new))) }
        ensures error { IfErr result (λ e. IsOfDisk e) }
        ensures over { over_of self.new ≡ is_err result }
        ensures cause { HasLogCause (D.faults (disk_of self.old)) (D.faults (disk_of self.new)) result }
    {
        self.is_over = true;
        self.disk.write_at(self.end + 1, pieces)?;
        self.disk.sync()?;
        self.disk.write_at(self.end, &[OPEN_GATE])?;
        self.disk.sync()?;
        self.end += pieces.len() as u64;
        self.is_over = false;
        Ok(())
    }

    /// Adds a record. At `Ok` each crash from then on leaves it, and a crash at any moment of the call
    /// leaves the log without the record or with it. Four calls of the disk: the record is written
    /// with its checksum and a closed gate behind it and synced, then its gate is opened and synced.
    ///
    /// # Errors
    ///
    /// [`LogErr::DiskFault`] and [`LogErr::Memory`] of the disk, after which the log is over.
    pub fn append(&mut self, entry: &Entry) -> Result<(), LogErr>
        requires { over_of self.old ≡ false }
        ensures any_moment { (header : List ℕ) (bodies : List (List ℕ)) →
            IsAtRest D.tells D.seen D.may_leave header bodies self.old
            → LeavesOnly D.moment D.left_since (disk_of self.old) (disk_of self.new)
            (λ c. IsLog header bodies c ⊎ IsLog header (bodies ++ entry.now ∷ []) c) }
        ensures added { OnOk result
            ((header : List ℕ) (bodies : List (List ℕ)) → IsAtRest D.tells D.seen D.may_leave header bodies self.old
            → IsAtRest D.tells D.seen D.may_leave header (bodies ++ entry.now ∷ []) self.new) }
        ensures written { OnOk result
            ((header : List ℕ) (bodies : List (List ℕ)) → IsAtRest D.tells D.seen D.may_leave header bodies self.old
            → IsAppended header bodies (D.seen (disk_of self.old))
            → IsAppended header (bodies ++ entry.now ∷ []) (D.seen (disk_of self.new))) }
        ensures error { IfErr result (λ e. IsOfDisk e) }
        ensures over { over_of self.new ≡ is_err result }
        ensures cause { HasLogCause (D.faults (disk_of self.old)) (D.faults (disk_of self.new)) result }
    {
        match self.add(entry.piece()) {
            Ok(()) => Ok(()),
            Err(e) => Err(e),
        }
    }

    /// Adds records together. At `Ok` each crash from then on leaves them, and a crash at any moment of the call leaves the log
    /// without them or with all of them. Four calls of the disk as for one record, of which two are syncs; none for no records.
    ///
    /// # Errors
    ///
    /// As those of [`GateLog::append`].
    pub fn append_all(&mut self, entries: &Entries) -> Result<(), LogErr>
        requires { over_of self.old ≡ false }
        ensures any_moment { (header : List ℕ) (bodies more : List (List ℕ)) → HaveBodies more entries.now
            → IsAtRest D.tells D.seen D.may_leave header bodies self.old
            → LeavesOnly D.moment D.left_since (disk_of self.old) (disk_of self.new)
            (λ c. IsLog header bodies c ⊎ IsLog header (bodies ++ more) c) }
        ensures added { OnOk result ((header : List ℕ) (bodies more : List (List ℕ)) → HaveBodies more entries.now
            → IsAtRest D.tells D.seen D.may_leave header bodies self.old
            → IsAtRest D.tells D.seen D.may_leave header (bodies ++ more) self.new) }
        ensures written { OnOk result ((header : List ℕ) (bodies more : List (List ℕ)) → HaveBodies more entries.now
            → IsAtRest D.tells D.seen D.may_leave header bodies self.old
            → IsAppended header bodies (D.seen (disk_of self.old))
            → IsAppended header (bodies ++ more) (D.seen (disk_of self.new))) }
        ensures idle { HaveBodies [] entries.now → self.new ≡ self.old }
        ensures error { IfErr result (λ e. IsOfDisk e) }
        ensures over { over_of self.new ≡ is_err result }
        ensures cause { HasLogCause (D.faults (disk_of self.old)) (D.faults (disk_of self.new)) result }
    {
        let pieces = entries.pieces();
        if pieces.is_empty() {
            return Ok(());
        }
        match self.add(pieces) {
            Ok(()) => Ok(()),
            Err(e) => Err(e),
        }
    }
}
