// A log that is opened with all of its records in memory.
ghost use Rattle.std.specs.Prelude.{◌≡◌, [], List, ℕ, IsTrue, false, OnOk, IfOk, IfErr};
ghost use Rattle.osd_disk.specs.Crashes.{OnlyRead};
ghost use Rattle.gate_log.specs.Broken.{IsBrokenAt};
ghost use Rattle.gate_log.specs.Errors.{HasErrCause, HasLogCause, NotALogSays};
ghost use Rattle.gate_log.specs.Standing.{HasRead, IsAtRest, disk_of, gate_of, header_of, over_of, read_disk};

use crate::errors::LogErr;
use crate::header::Header;
use crate::log::GateLog;
use crate::reader::LogReader;
use osd_disk::Disk;
use osd_lists::ByteLists;
use std::alloc::Global;

// The bodies of all records of a log, of which nothing was read but its header.
fn read_bodies<D: Disk>(alloc: Global, reader: &mut LogReader<D>) -> Result<ByteLists, LogErr>
    ensures read { IfOk result (λ bodies. (header : List ℕ) → HasRead D.tells D.seen D.may_leave header [] reader.old
        → HasRead D.tells D.seen D.may_leave header bodies reader.new) }
    ensures end { OnOk result (gate_of reader.new ≡ 0) }
    ensures refused { IfErr result
        (λ e. NotALogSays (λ at. (header : List ℕ) → HasRead D.tells D.seen D.may_leave header [] reader.old
        → IsBrokenAt (D.seen (read_disk reader.old)) at) e) }
    ensures header { header_of reader.new ≡ header_of reader.old }
    ensures disk { OnlyRead D.tells D.seen D.may_leave D.moment D.left_since (read_disk reader.old) (read_disk reader.new) }
    ensures cause { HasLogCause (D.faults (read_disk reader.old)) (D.faults (read_disk reader.new)) result }
{
    let mut bodies = ByteLists::new(alloc);
    'records: loop {
        let body = match reader.next(alloc) {
            Ok(Some(body)) => body,
            Ok(None) => return Ok(bodies),
            Err(e) => return Err(e),
        };
        bodies.push(body)?;
    }
}

impl<D: Disk> GateLog<D> {
    /// Opens the log on a disk, with its header and the bodies of all of its records. A [`LogReader`]
    /// gives them one by one.
    ///
    /// # Errors
    ///
    /// [`LogErr::NotALog`] exactly where the disk's bytes are no log, [`LogErr::DiskFault`] and
    /// [`LogErr::Memory`] of the disk, and [`LogErr::Memory`]. The disk comes back.
    pub fn open(alloc: Global, disk: D) -> Result<(Self, Header, ByteLists), (LogErr, D)>
        ensures opened { IfOk result
            (λ found. IsTrue (D.tells disk) → IsAtRest D.tells D.seen D.may_leave found.1.bytes found.2 found.0) }
        ensures over { IfOk result (λ found. over_of found.0 ≡ false) }
        ensures refused { IfErr result (λ e. NotALogSays (λ at. IsTrue (D.tells disk) → IsBrokenAt (D.seen disk) at) e.0) }
        ensures disk { IfOk result (λ found. OnlyRead D.tells D.seen D.may_leave D.moment D.left_since disk (disk_of found.0)) }
        ensures disk_back { IfErr result (λ e. OnlyRead D.tells D.seen D.may_leave D.moment D.left_since disk e.1) }
        ensures cause { IfErr result (λ e. HasErrCause (D.faults disk) (D.faults e.1) e.0) }
        ensures no_fault { IfOk result (λ found. D.faults (disk_of found.0) ≡ D.faults disk) }
    {
        let mut reader = match LogReader::open(disk) {
            Ok(reader) => reader,
            Err(refusal) => return Err(refusal),
        };
        match read_bodies(alloc, &mut reader) {
            Ok(bodies) => {
                let header = reader.header();
                Ok((reader.into_log(), header, bodies))
            }
            Err(e) => Err((e, reader.into_disk())),
        }
    }
}
