//! The judge over a file's log.
use file_log::{Entry, judge};
use osd_lists::Bytes;
use std::alloc::Global;

// What stands in a log.
#[derive(Clone, Copy)]
enum Row {
    /// A write from an offset on that was acknowledged.
    Done(u64, &'static [u8]),
    /// One that was not.
    Open(u64, &'static [u8]),
    /// So many of one byte, side by side, that were not.
    OpenBytes(u64, u64),
    /// A read of an offset and a length, and its answer.
    Read(u64, u64, &'static [u8]),
}

// What a log begins with, what is read then, and whether the judge accepts it.
type Case = (&'static [Row], &'static [Row], bool);

const ACKNOWLEDGED: &[Row] = &[Row::Done(2, b"abc")];

// Acknowledged writes are read.
const DONE: &[Case] = &[
    (ACKNOWLEDGED, &[Row::Read(0, 9, b"\0\0abc")], true),
    (ACKNOWLEDGED, &[Row::Read(2, 2, b"ab")], true),
    (ACKNOWLEDGED, &[Row::Read(7, 1, b"")], true),
    (ACKNOWLEDGED, &[Row::Read(0, 9, b"\0\0abd")], false),
    (ACKNOWLEDGED, &[Row::Read(0, 9, b"\0\0ab")], false),
    (ACKNOWLEDGED, &[Row::Read(0, 9, b"\0\0abc\0")], false),
];

const UNFINISHED: &[Row] = &[Row::Done(0, b"xa"), Row::Open(0, b"yb"), Row::Done(0, b"x")];

// An unfinished write's bytes are old or new, once for all.
const OLD_OR_NEW: &[Case] = &[
    (
        UNFINISHED,
        &[Row::Read(0, 2, b"xa"), Row::Read(0, 2, b"xa")],
        true,
    ),
    (
        UNFINISHED,
        &[Row::Read(0, 2, b"xb"), Row::Read(0, 2, b"xb")],
        true,
    ),
    (
        UNFINISHED,
        &[Row::Read(0, 2, b"xb"), Row::Read(0, 2, b"xa")],
        false,
    ),
    (
        UNFINISHED,
        &[Row::Read(0, 2, b"xc"), Row::Read(0, 2, b"xc")],
        false,
    ),
    (
        UNFINISHED,
        &[Row::Read(0, 2, b"yb"), Row::Read(0, 2, b"xb")],
        false,
    ),
];

const LONGER: &[Row] = &[Row::Done(0, b"x"), Row::Open(1, b"a")];

// An answered read settles the size.
const SIZES: &[Case] = &[
    (
        LONGER,
        &[Row::Read(0, 2, b"xa"), Row::Read(0, 2, b"xa")],
        true,
    ),
    (
        LONGER,
        &[Row::Read(0, 2, b"x"), Row::Read(0, 2, b"x")],
        true,
    ),
    (
        LONGER,
        &[Row::Read(0, 2, b"x"), Row::Read(0, 2, b"xa")],
        false,
    ),
    (
        LONGER,
        &[Row::Read(0, 2, b"xa"), Row::Read(0, 2, b"x")],
        false,
    ),
];

const FAR: u64 = 1 << 63;

const MANY: &[Row] = &[Row::OpenBytes(FAR, 64)];

// Of each of these writes it is open whether it was done, so there are 2^64 ways for the file to have
// become what it is, but no more than 65 sizes.
const MANY_SIZES: &[Case] = &[
    (MANY, &[Row::Read(FAR + 62, 2, b"\0a")], true),
    (MANY, &[Row::Read(FAR + 63, 2, b"a")], true),
    (MANY, &[Row::Read(FAR + 63, 2, b"")], true),
    (MANY, &[Row::Read(FAR + 64, 2, b"")], true),
    (MANY, &[Row::Read(FAR + 63, 2, b"ab")], false),
];

// Adds an entry. Where memory is short there is none.
fn add_write(
    alloc: Global,
    log: &mut Vec<Entry>,
    offset: u64,
    bytes: &[u8],
    acknowledged: bool,
) -> bool {
    match Bytes::copied(alloc, bytes) {
        Ok(bytes) => log
            .push(Entry::Write {
                offset,
                bytes,
                acknowledged,
            })
            .is_ok(),
        Err(_) => false,
    }
}

fn add_read(alloc: Global, log: &mut Vec<Entry>, offset: u64, length: u64, answer: &[u8]) -> bool {
    match Bytes::copied(alloc, answer) {
        Ok(answer) => log
            .push(Entry::Read {
                offset,
                length,
                answer: Some(answer),
            })
            .is_ok(),
        Err(_) => false,
    }
}

fn add_open_bytes(alloc: Global, log: &mut Vec<Entry>, first: u64, count: u64) -> bool {
    for place in 0..count {
        if !add_write(alloc, log, first.saturating_add(place), b"a", false) {
            return false;
        }
    }
    true
}

fn add(alloc: Global, log: &mut Vec<Entry>, row: Row) -> bool {
    match row {
        Row::Done(offset, bytes) => add_write(alloc, log, offset, bytes, true),
        Row::Open(offset, bytes) => add_write(alloc, log, offset, bytes, false),
        Row::OpenBytes(first, count) => add_open_bytes(alloc, log, first, count),
        Row::Read(offset, length, answer) => add_read(alloc, log, offset, length, answer),
    }
}

fn add_all(alloc: Global, log: &mut Vec<Entry>, rows: &[Row]) -> bool {
    for row in rows {
        if !add(alloc, log, *row) {
            return false;
        }
    }
    true
}

fn is_accepted(alloc: Global, log: &[Entry], accepted: bool) -> bool {
    match judge(alloc, log) {
        Ok(found) => found == accepted,
        Err(_) => false,
    }
}

fn is_judged(alloc: Global, log: &mut Vec<Entry>, case: Case) -> bool {
    let (begins, reads, accepted) = case;
    add_all(alloc, log, begins)
        && add_all(alloc, log, reads)
        && is_accepted(alloc, log.as_slice(), accepted)
}

fn goes(alloc: Global, case: Case) -> bool {
    let mut log = Vec::new(alloc);
    is_judged(alloc, &mut log, case)
}

const TABLES: &[&[Case]] = &[DONE, OLD_OR_NEW, SIZES, MANY_SIZES];

fn all_go(alloc: Global, cases: &[Case]) -> bool {
    for case in cases {
        if !goes(alloc, *case) {
            return false;
        }
    }
    true
}

#[test]
fn reads_are_judged_by_the_writes_before_them(rt: HostRuntime) {
    for cases in TABLES.iter() {
        assert!(rt; all_go(rt.alloc(), cases));
    }
}
