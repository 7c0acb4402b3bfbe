//! Logs on disks in memory, which crash and of which calls fail.
use crate::ends::{copied, numbers};
use gate_log::{Entry, GateLog, LogErr, LogReader, MAX_BODY, crc_32};
use osd_disk::{Disk, MemDisk};
use osd_lists::Bytes;
use std::alloc::Global;

const HEADER: &[u8; 24] = &[7; 24];

// Two records, of which the second is added last.
const BODIES: &[&[u8]] = &[b"abc", b"defgh"];

// The bytes of a log with both.
const WHOLE: &[u8] =
    b"\x07\x07\x07\x07\x07\x07\x07\x07\x07\x07\x07\x07\x07\x07\x07\x07\x07\x07\x07\x07\x07\x07\x07\x07\
    \xff\xff\xff\xff\xfc\x00\x00\x00\x03abc\x35\x24\x41\xc2\
    \xff\xff\xff\xff\xfa\x00\x00\x00\x05defgh\x83\xe7\x82\x39\x00";

// Where its gates stand.
const FIRST_GATE: usize = 24;

const SECOND_GATE: usize = 40;

const LAST_GATE: usize = 58;

// The bytes of a log whose first record is as earlier versions wrote it.
const MIXED: &[u8] =
    b"\x07\x07\x07\x07\x07\x07\x07\x07\x07\x07\x07\x07\x07\x07\x07\x07\x07\x07\x07\x07\x07\x07\x07\x07\
    \x01\x00\x00\x00\x03abc\xff\xff\xff\xff\xfa\x00\x00\x00\x05defgh\x83\xe7\x82\x39\x00";

// How many calls of a disk a new log takes, and a record that is added.
const CREATE: u32 = 3;

const APPEND: u32 = 4;

// How many calls the opening of that log takes: a sync, the size, the header, the first gate, and three reads a record.
const OPEN: u32 = 10;

// Adds bodies to a log, as far as that goes.
fn add_all<D: Disk>(alloc: Global, log: &mut GateLog<D>, bodies: &[&[u8]]) {
    for body in bodies {
        if log.is_over() || body.is_empty() || body.len() > MAX_BODY {
            return;
        }
        if let Ok(entry) = Entry::new(alloc, body) {
            let _ = log.append(&entry);
        }
    }
}

// A disk after a log was made and both records added, as far as that went: the calls with these numbers fail.
fn logged(alloc: Global, fails: &[u32]) -> MemDisk {
    match GateLog::create(MemDisk::new(alloc, numbers(alloc, fails)), HEADER) {
        Ok(mut log) => {
            add_all(alloc, &mut log, BODIES);
            log.into_disk()
        }
        Err((_, disk)) => disk,
    }
}

// How a disk is opened.
#[derive(Clone, Copy, PartialEq, Eq)]
enum OpenedLog {
    /// As a log with so many records.
    Records(u32),
    /// It is refused at this place.
    Refused(u64),
    /// A call of the disk failed.
    Failed,
}

fn refusal(e: LogErr) -> OpenedLog {
    match e {
        LogErr::NotALog { at } => OpenedLog::Refused(at),
        _ => OpenedLog::Failed,
    }
}

fn read_all<D: Disk>(alloc: Global, reader: &mut LogReader<D>) -> OpenedLog {
    for count in 0..1000u32 {
        match reader.next(alloc) {
            Ok(Some(_)) => {}
            Ok(None) => return OpenedLog::Records(count),
            Err(e) => return refusal(e),
        }
    }
    OpenedLog::Failed
}

fn opened<D: Disk + Drop>(alloc: Global, disk: D) -> OpenedLog {
    match LogReader::open(disk) {
        Ok(mut reader) => read_all(alloc, &mut reader),
        Err((e, _)) => refusal(e),
    }
}

// How a disk of these bytes is opened, of which the calls with these numbers fail.
fn opened_bytes(alloc: Global, bytes: Bytes, fails: &[u32]) -> OpenedLog {
    opened(alloc, MemDisk::holding(alloc, bytes, numbers(alloc, fails)))
}

// How a disk is opened after a crash that left all that was written, or this byte in it.
fn opened_after_crash(alloc: Global, disk: MemDisk, fill: Option<u8>) -> OpenedLog {
    match fill {
        None => opened(alloc, disk.crash()),
        Some(fill) => match disk.crash_filled(fill) {
            Ok(disk) => opened(alloc, disk),
            Err(_) => OpenedLog::Failed,
        },
    }
}

// Which calls fail, what the crash leaves in what was written since the last sync, and how many records are found. Calls 0 to
// 2 make the log, 3 to 6 add the first record, and 7 to 10 the second.
const CRASHES: &[(&[u32], Option<u8>, u32)] = &[
    (&[7], None, 1),
    (&[7], Some(0), 1),
    (&[7], Some(255), 1),
    (&[8], None, 1),
    (&[8], Some(0), 1),
    (&[8], Some(255), 1),
    (&[9], None, 1),
    (&[9], Some(0), 1),
    (&[9], Some(255), 1),
    (&[10], None, 2),
    (&[10], Some(0), 1),
    (&[10], Some(255), 2),
    (&[], None, 2),
    (&[], Some(0), 2),
    (&[], Some(255), 2),
];

#[test]
fn a_crash_leaves_a_record_whole_or_not_at_all(rt: HostRuntime) {
    let alloc = rt.alloc();
    for (fails, fill, records) in CRASHES.iter() {
        let disk = logged(alloc, fails);
        assert!(rt; opened_after_crash(alloc, disk, *fill) == OpenedLog::Records(*records));
    }
}

fn is_whole(disk: &MemDisk) -> bool {
    disk.bytes() == WHOLE && disk.calls() as u64 == u64::from(CREATE + 2 * APPEND)
}

// Whether the log's bytes, and the number of the disk's calls, are as its page says.
fn is_written_whole(alloc: Global) -> bool {
    let disk = logged(alloc, &[]);
    is_whole(&disk)
}

#[test]
fn a_log_is_written_as_its_page_says(rt: HostRuntime) {
    assert!(rt; is_written_whole(rt.alloc()));
}

// Where a log of so many bytes is refused.
fn place_of_prefix(len: usize) -> u64 {
    if len <= SECOND_GATE { 24 } else { 40 }
}

#[test]
fn a_log_cut_short_is_refused_at_its_place(rt: HostRuntime) {
    let alloc = rt.alloc();
    for len in 0..WHOLE.len() {
        let front = copied(alloc, WHOLE.split_at(len).0);
        assert!(rt; opened_bytes(alloc, front, &[]) == OpenedLog::Refused(place_of_prefix(len)));
    }
}

// How a log of these bytes is opened if one bit of this byte turned.
fn opened_turned(alloc: Global, log: &[u8], at: usize, bit: u32) -> OpenedLog {
    let mut bytes = copied(alloc, log);
    if at < bytes.len() && bit < 8 {
        let byte = *bytes.get(at);
        *bytes.get_mut(at) = byte ^ (1u8 << bit);
    }
    opened_bytes(alloc, bytes, &[])
}

// How the log is opened if a bit of this byte turned. The header isn't the log's to judge, and a gate stays open.
fn opened_where_turned(at: usize) -> OpenedLog {
    if at <= FIRST_GATE || at == SECOND_GATE {
        OpenedLog::Records(2)
    } else if at == LAST_GATE {
        OpenedLog::Refused(58)
    } else if at < SECOND_GATE {
        OpenedLog::Refused(24)
    } else {
        OpenedLog::Refused(40)
    }
}

#[test]
fn a_turned_bit_shows_where_it_says(rt: HostRuntime) {
    let alloc = rt.alloc();
    for at in 0..WHOLE.len() {
        for bit in 0..8u32 {
            assert!(rt; opened_turned(alloc, WHOLE, at, bit) == opened_where_turned(at));
        }
    }
}

// How many bytes are turned, bit by bit, of a log with so many records, each of which has so many bytes with its gate.
const TURNED: usize = 4096;

const RECORDS: u32 = 14;

const RECORD: usize = 313;

const LONG_BODY: &[u8] = &[5; 300];

// The bytes of a log whose records have bodies of 300 bytes.
fn long_log(alloc: Global) -> Bytes {
    let Ok(mut log) = GateLog::create(MemDisk::new(alloc, numbers(alloc, &[])), HEADER) else {
        return Bytes::new(alloc);
    };
    for _ in 0..RECORDS {
        add_all(alloc, &mut log, &[LONG_BODY]);
    }
    copied(alloc, log.into_disk().bytes())
}

#[test]
fn each_bit_that_turns_in_a_long_log_shows(rt: HostRuntime) {
    let alloc = rt.alloc();
    let log = long_log(alloc);
    for at in FIRST_GATE..TURNED {
        let gate = at - (at - FIRST_GATE) % RECORD;
        let how = if at == gate {
            OpenedLog::Records(RECORDS)
        } else {
            OpenedLog::Refused(gate as u64)
        };
        for bit in 0..8u32 {
            assert!(rt; opened_turned(alloc, log.as_slice(), at, bit) == how);
        }
    }
}

#[test]
fn a_record_of_an_earlier_version_is_read(rt: HostRuntime) {
    let alloc = rt.alloc();
    let disk = MemDisk::holding(alloc, copied(alloc, MIXED), numbers(alloc, &[]));
    assert!(rt; opens_with(alloc, disk, BODIES));
}

#[test]
fn the_checksum_is_that_of_the_standard(rt: HostRuntime) {
    let sum = crc_32(b"123456789");
    assert!(rt; sum == 0xcbf4_3926);
}

#[test]
fn an_opening_of_which_a_call_fails_fails(rt: HostRuntime) {
    let alloc = rt.alloc();
    for call in 0..OPEN {
        let bytes = copied(alloc, WHOLE);
        assert!(rt; opened_bytes(alloc, bytes, &[call]) == OpenedLog::Failed);
    }
    assert!(rt; opened_bytes(alloc, copied(alloc, WHOLE), &[OPEN]) == OpenedLog::Records(2));
}

// Whether a log is opened with these bodies.
fn opens_with<D: Disk + Drop>(alloc: Global, disk: D, bodies: &[&[u8]]) -> bool {
    let Ok((_, header, found)) = GateLog::open(alloc, disk) else {
        return false;
    };
    let mut same = header.bytes == *HEADER && found.len() == bodies.len();
    for (i, body) in bodies.iter().enumerate() {
        same = same && i < found.len() && found.get(i).as_slice() == *body;
    }
    same
}

#[test]
fn an_opened_log_has_its_header_and_its_bodies(rt: HostRuntime) {
    let alloc = rt.alloc();
    assert!(rt; opens_with(alloc, logged(alloc, &[]), BODIES));
}

// Whether no log is made on a disk that has a byte.
fn is_full_disk_refused(alloc: Global) -> bool {
    match GateLog::create(
        MemDisk::holding(alloc, copied(alloc, b"x"), numbers(alloc, &[])),
        HEADER,
    ) {
        Ok(_) => false,
        Err((e, _)) => e == LogErr::NotEmpty { size: 1 },
    }
}

#[test]
fn a_log_is_made_on_an_empty_disk_alone(rt: HostRuntime) {
    assert!(rt; is_full_disk_refused(rt.alloc()));
}
