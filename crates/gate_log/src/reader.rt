ghost use Rattle.std.specs.Prelude.{◌≡◌, ◌<◌, ◌≤◌, ◌^◌, ◌∷◌, [], ◌++◌, List, ℕ, IsTrue, false, length, None, OnErr, IfOk, IfErr, IfSome};
ghost use Rattle.osd_disk.specs.Crashes.{OnlyRead};
ghost use Rattle.gate_log.specs.Broken.{IsBrokenAt};
ghost use Rattle.gate_log.specs.Errors.{HasErrCause, HasLogCause, NotALogSays};
ghost use Rattle.gate_log.specs.declared.entry.TheConstants.{MAX_BODY};

use crate::errors::LogErr;
use crate::header::{HEADER_SIZE, Header};
use crate::log::GateLog;
use crate::record::{read_first, read_record};
use osd_disk::Disk;
use osd_lists::Bytes;
use std::alloc::Global;

/// A log that is being read from its start. It holds one record at a time, whatever the log's length.
#[derive(Drop)]
pub struct LogReader<D> {
    disk: D,
    header: Header,
    size: u64,
    at: u64,
    gate: u8,
    ghost inside: { at < size },
    ghost low: { size < 2 ^ 63 },
}

impl<D> LogReader<D> {
    ghost use Rattle.gate_log.specs.Standing.{header_of, place_of, read_disk};

    /// The log's header.
    pub fn header(&self) -> Header
        ensures { result.bytes ≡ header_of self.now }
    {
        self.header
    }

    /// The place of the gate that comes next.
    pub fn place(&self) -> u64
        ensures place { result ≡ place_of self.now }
        ensures low { result < 2 ^ 63 }
    {
        self.at
    }

    /// The disk, with the log on it.
    pub fn into_disk(self) -> D
        ensures { result ≡ read_disk self }
    {
        self.disk
    }
}

impl<D: Disk> LogReader<D> {
    ghost use Rattle.gate_log.specs.Standing.{HasRead, IsAtRest, disk_of, gate_of, header_of, over_of, place_of, read_disk};

    /// Begins to read the log on a disk. It syncs first, so that a crash leaves what is read.
    ///
    /// # Errors
    ///
    /// [`LogErr::NotALog`] with the place 24 exactly where the disk has no byte behind a header,
    /// [`LogErr::DiskFault`] and [`LogErr::Memory`] of the disk. The disk comes back.
    pub fn open(disk: D) -> Result<Self, (LogErr, D)>
        ensures begun { IfOk result
            (λ reader. IsTrue (D.tells disk) → HasRead D.tells D.seen D.may_leave (header_of reader) [] reader) }
        ensures refused { IfErr result (λ e. NotALogSays (λ at. IsTrue (D.tells disk) → IsBrokenAt (D.seen disk) at) e.0) }
        ensures disk { IfOk result (λ reader. OnlyRead D.tells D.seen D.may_leave D.moment D.left_since disk (read_disk reader)) }
        ensures disk_back { IfErr result (λ e. OnlyRead D.tells D.seen D.may_leave D.moment D.left_since disk e.1) }
        ensures cause { IfErr result (λ e. HasErrCause (D.faults disk) (D.faults e.1) e.0) }
        ensures no_fault { IfOk result (λ reader. D.faults (read_disk reader) ≡ D.faults disk) }
    {
        let mut disk = disk;
        match read_first(&mut disk) {
            Ok(first) => Ok(LogReader {
                disk,
                header: first.header,
                size: first.size,
                at: HEADER_SIZE as u64,
                gate: first.gate,
            }),
            Err(e) => Err((e, disk)),
        }
    }

    /// The body of the next record, or none at the closed gate that ends the log.
    ///
    /// # Errors
    ///
    /// [`LogErr::NotALog`] exactly where the open gate at this place has no whole record with a gate
    /// behind it, [`LogErr::DiskFault`] of the disk, and [`LogErr::Memory`]. The reader stays where it
    /// is.
    pub fn next(&mut self, alloc: Global) -> Result<Option<Bytes>, LogErr>
        ensures body { IfOk result
            (λ found. IfSome found
            (λ body. (header : List ℕ) (bodies : List (List ℕ)) → HasRead D.tells D.seen D.may_leave header bodies self.old
            → HasRead D.tells D.seen D.may_leave header (bodies ++ body ∷ []) self.new)) }
        ensures size { IfOk result (λ found. IfSome found (λ body. (0 < length body) × (length body ≤ MAX_BODY))) }
        ensures further { IfOk result (λ found. IfSome found (λ body. place_of self.old < place_of self.new)) }
        ensures end { IfOk result (λ found. found ≡ None → (gate_of self.new ≡ 0) × ((header : List ℕ) (bodies : List (List ℕ))
            → HasRead D.tells D.seen D.may_leave header bodies self.old →
            HasRead D.tells D.seen D.may_leave header bodies self.new)) }
        ensures refused { IfErr result (λ e. NotALogSays (λ at. (header : List ℕ) (bodies : List (List ℕ))
            → HasRead D.tells D.seen D.may_leave header bodies self.old → IsBrokenAt (D.seen (read_disk self.old)) at) e) }
        ensures stays { OnErr result ((place_of self.new ≡ place_of self.old) × (gate_of self.new ≡ gate_of self.old)) }
        ensures header { header_of self.new ≡ header_of self.old }
        ensures disk { OnlyRead D.tells D.seen D.may_leave D.moment D.left_since (read_disk self.old) (read_disk self.new) }
        ensures cause { HasLogCause (D.faults (read_disk self.old)) (D.faults (read_disk self.new)) result }
    {
        if self.gate == 0 {
            return Ok(None);
        }
        let record = match read_record(alloc, &mut self.disk, self.at, self.size) {
            Ok(record) => record,
            Err(e) => return Err(e),
        };
        self.at += 1 + record.form.record_size(record.body.len());
        self.gate = record.next_gate;
        Ok(Some(record.body))
    }

    /// The log, once all of it is read: [`LogReader::next`] answered none.
    pub fn into_log(self) -> GateLog<D>
        requires { gate_of self ≡ 0 }
        ensures log { (header : List ℕ) (bodies : List (List ℕ)) → HasRead D.tells D.seen D.may_leave header bodies self
            → IsAtRest D.tells D.seen D.may_leave header bodies result }
        ensures disk { disk_of result ≡ read_disk self }
        ensures over { over_of result ≡ false }
    {
        GateLog::ending_at(self.disk, self.at)
    }
}
