//! Drives whose store is on a disk in memory, which crashes and of which calls fail.
use crate::ends::{copied, numbers};
use drive_store::{SECOND_FORMAT, StoreErr, StoreHeader, StoredDrive};
use gate_log::{Entry, GateLog, MAX_BODY};
use osd_capability::{CHECK_BYTES, Capability, DRIVE_KEY_BYTES, FORMAT_SHA1, capability_key};
use osd_commands::{Action, Command, Reply, seal, write_command};
use osd_disk::{Disk, MemDisk};
use osd_drive::{DriveKey, FIRST_PARTITION, KeyTable};
use osd_lists::Bytes;
use std::alloc::Global;

const KEY: [u8; DRIVE_KEY_BYTES] = [11; DRIVE_KEY_BYTES];

pub const CAPACITY: u64 = 1_000_000;

// How many calls of a disk a new store takes, and a change.
pub const CREATE: u32 = 3;

const CHANGE: u32 = 4;

// What is asked of one object, under a capability that allows all of it.
#[derive(Clone, Copy)]
pub struct Ask {
    action: Action,
    nonce: u64,
    length: u64,
    payload: &'static [u8],
}

pub const MAKE: Ask = Ask {
    action: Action::Create,
    nonce: 1,
    length: 0,
    payload: b"label",
};

const WRITE: Ask = Ask {
    action: Action::Write,
    nonce: 2,
    length: 3,
    payload: b"new",
};

const NAME: Ask = Ask {
    action: Action::SetAttr,
    nonce: 3,
    length: 0,
    payload: b"name",
};

const FENCE: Ask = Ask {
    action: Action::SetTag,
    nonce: 4,
    length: 0,
    payload: b"",
};

pub const READ: Ask = Ask {
    action: Action::Read,
    nonce: 9,
    length: 9,
    payload: b"",
};

const ASK_NAME: Ask = Ask {
    action: Action::GetAttr,
    nonce: 9,
    length: 0,
    payload: b"",
};

// Verdicts of replies.
pub const PERFORMED: u16 = 0;

const OTHER_OBJECT: u16 = 5;

pub const NO_OBJECT: u16 = 7;

const OTHER_TAG: u16 = 9;

const OLD_FORMAT: u16 = 17;

pub fn keys(alloc: Global) -> KeyTable {
    let mut keys = KeyTable::new(alloc);
    let _ = keys.push(DriveKey {
        version: 1,
        key: KEY,
    });
    keys
}

// The bytes of a command. All capabilities name tag 1.
pub fn message(alloc: Global, ask: Ask) -> Bytes {
    let capability = Capability {
        format: FORMAT_SHA1,
        key_version: 1,
        rights: 63,
        expiry: 100,
        grant: 1,
        holder: 1,
        tag: 1,
        partition: FIRST_PARTITION,
        object: 7,
        range_start: 0,
        range_len: 1000,
    };
    let mut c = Command {
        action: ask.action,
        partition: FIRST_PARTITION,
        object: 7,
        offset: 0,
        length: ask.length,
        nonce: ask.nonce,
        attribute: 65_536,
        capability,
        payload: copied(alloc, ask.payload),
        check: [0; CHECK_BYTES],
    };
    seal(&mut c, &capability_key(&KEY, &capability));
    match write_command(alloc, &c) {
        Ok(bytes) => bytes,
        Err(_) => Bytes::new(alloc),
    }
}

// Asks in turn, as far as that goes.
fn ask_all<D: Disk>(alloc: Global, store: &mut StoredDrive<D>, asks: &[Ask]) {
    for ask in asks {
        if store.is_over() {
            return;
        }
        let _ = store.handle(alloc, 5, message(alloc, *ask).as_slice());
    }
}

// A disk after a store was made on it and all this asked, as far as that went: the call with this number fails.
fn stored(alloc: Global, fails: u32, asks: &[Ask]) -> MemDisk {
    let disk = MemDisk::new(alloc, numbers(alloc, &[fails]));
    match StoredDrive::create(alloc, disk, 0, keys(alloc), CAPACITY) {
        Ok(mut store) => {
            ask_all(alloc, &mut store, asks);
            store.into_disk()
        }
        Err((_, disk)) => disk,
    }
}

// No call has this number.
const NEVER: u32 = 1000;

// How a disk is opened, and what the drive then answers.
#[derive(Clone, Copy, PartialEq, Eq)]
enum Opened {
    /// With this verdict and this payload.
    Answers(u16, &'static [u8]),
    /// It is refused at this place.
    Refused(u64),
    /// Otherwise.
    Other,
}

fn is_reply(reply: &Reply, verdict: u16, payload: &[u8]) -> bool {
    reply.verdict == verdict && reply.payload.as_slice() == payload
}

fn answers<D: Disk>(alloc: Global, store: &mut StoredDrive<D>, probe: Ask, how: Opened) -> bool {
    if store.is_over() {
        return false;
    }
    match (
        store.handle(alloc, 5, message(alloc, probe).as_slice()),
        how,
    ) {
        (Ok(reply), Opened::Answers(verdict, payload)) => is_reply(&reply, verdict, payload),
        _ => false,
    }
}

// Whether a disk is opened so.
fn opens(alloc: Global, disk: MemDisk, probe: Ask, how: Opened) -> bool {
    match StoredDrive::open(alloc, disk, keys(alloc)) {
        Ok(mut store) => answers(alloc, &mut store, probe, how),
        Err((StoreErr::NotAStore { at }, _)) => how == Opened::Refused(at),
        Err(_) => how == Opened::Other,
    }
}

// Whether a disk is opened so after a crash that left all that was written, or this byte in it.
fn opens_after_crash(
    alloc: Global,
    disk: MemDisk,
    fill: Option<u8>,
    probe: Ask,
    how: Opened,
) -> bool {
    match fill {
        None => opens(alloc, disk.crash(), probe, how),
        Some(fill) => match disk.crash_filled(fill) {
            Ok(disk) => opens(alloc, disk, probe, how),
            Err(_) => false,
        },
    }
}

// What is asked, of which the last is a change that is cut off; the number of its first call of the disk; what is asked
// then; and what is answered without the change and with it.
struct Change {
    asks: &'static [Ask],
    first: u32,
    probe: Ask,
    without: Opened,
    with: Opened,
}

const CHANGES: &[Change] = &[
    Change {
        asks: &[MAKE],
        first: CREATE,
        probe: READ,
        without: Opened::Answers(NO_OBJECT, b""),
        with: Opened::Answers(PERFORMED, b""),
    },
    Change {
        asks: &[MAKE, WRITE],
        first: CREATE + CHANGE,
        probe: READ,
        without: Opened::Answers(PERFORMED, b""),
        with: Opened::Answers(PERFORMED, b"new"),
    },
    Change {
        asks: &[MAKE, NAME],
        first: CREATE + CHANGE,
        probe: ASK_NAME,
        without: Opened::Answers(PERFORMED, b"label"),
        with: Opened::Answers(PERFORMED, b"name"),
    },
    Change {
        asks: &[MAKE, FENCE],
        first: CREATE + CHANGE,
        probe: READ,
        without: Opened::Answers(PERFORMED, b""),
        with: Opened::Answers(OTHER_TAG, b""),
    },
];

// What a crash leaves in what was written since the last sync, and the first call of the change at which it leaves the
// change: call 3 is the sync of the gate that was opened.
const FILLS: &[(Option<u8>, u32)] = &[(None, 3), (Some(0), 4), (Some(255), 3)];

// Whether a change whose call of this number fails is there after a crash exactly from its moment on.
fn is_whole_or_not(alloc: Global, change: &Change, call: u32) -> bool {
    for (fill, first) in FILLS.iter() {
        let how = if call < *first {
            change.without
        } else {
            change.with
        };
        let disk = stored(alloc, change.first.saturating_add(call), change.asks);
        if !opens_after_crash(alloc, disk, *fill, change.probe, how) {
            return false;
        }
    }
    true
}

#[test]
fn a_crash_leaves_a_change_whole_or_not_at_all(rt: HostRuntime) {
    let alloc = rt.alloc();
    for change in CHANGES.iter() {
        for call in 0..CHANGE + 1 {
            assert!(rt; is_whole_or_not(alloc, change, call));
        }
    }
}

// What is asked of a new store, and how many calls of its disk there were: 3 for the store, and 4 for a change.
const COUNTS: &[(&[Ask], usize)] = &[
    (&[], 3),
    (&[READ], 3),
    (&[MAKE], 7),
    (&[MAKE, MAKE, READ, ASK_NAME], 7),
    (&[MAKE, WRITE, WRITE], 11),
    (&[MAKE, WRITE, NAME, FENCE, WRITE], 19),
];

#[test]
fn the_disk_is_called_for_changes_alone(rt: HostRuntime) {
    let alloc = rt.alloc();
    for (asks, calls) in COUNTS.iter() {
        assert!(rt; stored(alloc, NEVER, asks).calls() == *calls);
    }
}

// The body of a record: a command or other bytes.
#[derive(Clone, Copy)]
enum Body {
    Of(Ask),
    Bytes(&'static [u8]),
}

fn body_bytes(alloc: Global, body: Body) -> Bytes {
    match body {
        Body::Of(ask) => message(alloc, ask),
        Body::Bytes(bytes) => copied(alloc, bytes),
    }
}

fn add_all<D: Disk>(alloc: Global, log: &mut GateLog<D>, bodies: &[Body]) {
    for body in bodies {
        let bytes = body_bytes(alloc, *body);
        if log.is_over() || bytes.is_empty() || bytes.len() > MAX_BODY {
            return;
        }
        if let Ok(entry) = Entry::new(alloc, bytes.as_slice()) {
            let _ = log.append(&entry);
        }
    }
}

// A disk with a log of this header and these bodies.
fn logged(alloc: Global, header: &[u8; 24], bodies: &[Body]) -> MemDisk {
    match GateLog::create(MemDisk::new(alloc, numbers(alloc, &[])), header) {
        Ok(mut log) => {
            add_all(alloc, &mut log, bodies);
            log.into_disk()
        }
        Err((_, disk)) => disk,
    }
}

// Records of a store, and how it is opened. The second gate stands behind a CREATE with a label of 5 bytes.
const RECORDS: &[(&[Body], Opened)] = &[
    (&[], Opened::Answers(NO_OBJECT, b"")),
    (
        &[Body::Of(MAKE), Body::Of(WRITE)],
        Opened::Answers(PERFORMED, b"new"),
    ),
    (
        &[Body::Bytes(&[SECOND_FORMAT]), Body::Of(MAKE)],
        Opened::Answers(OLD_FORMAT, b""),
    ),
    (&[Body::Bytes(&[1])], Opened::Refused(24)),
    (&[Body::Bytes(b"no command")], Opened::Refused(24)),
    (&[Body::Of(WRITE)], Opened::Refused(24)),
    (&[Body::Of(MAKE), Body::Of(READ)], Opened::Refused(298)),
    (&[Body::Of(MAKE), Body::Of(MAKE)], Opened::Refused(298)),
    (
        &[Body::Of(MAKE), Body::Bytes(&[SECOND_FORMAT, 2])],
        Opened::Refused(298),
    ),
];

#[test]
fn a_store_has_no_other_records(rt: HostRuntime) {
    let alloc = rt.alloc();
    let header = StoreHeader {
        number: 0,
        capacity: CAPACITY,
    }
    .to_bytes();
    for (bodies, how) in RECORDS.iter() {
        assert!(rt; opens(alloc, logged(alloc, &header, bodies), READ, *how));
    }
}

// A place of the header, the byte that stands there now, and how the store is opened.
const HEADERS: &[(usize, u8, Opened)] = &[
    (0, 0, Opened::Refused(0)),
    (3, 0, Opened::Refused(0)),
    (4, 1, Opened::Refused(0)),
    (7, 2, Opened::Refused(0)),
    (8, 1, Opened::Refused(0)),
    (11, 1, Opened::Refused(0)),
    (12, 1, Opened::Answers(OTHER_OBJECT, b"")),
    (16, 1, Opened::Answers(PERFORMED, b"")),
];

#[test]
fn a_changed_header_is_refused(rt: HostRuntime) {
    let alloc = rt.alloc();
    for (at, value, how) in HEADERS.iter() {
        let mut header = StoreHeader {
            number: 0,
            capacity: CAPACITY,
        }
        .to_bytes();
        if *at < header.len() {
            header[*at] = *value;
        }
        let disk = logged(alloc, &header, &[Body::Of(MAKE)]);
        assert!(rt; opens(alloc, disk, READ, *how));
    }
}
