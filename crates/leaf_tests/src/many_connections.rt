//! Drives over connections in memory that stand side by side.
ghost use Rattle.std.specs.Prelude.{◌≡◌, false};

use crate::ends::{copied, numbers};
use crate::stored_drives::{
    Ask, CAPACITY, CREATE, MAKE, NO_OBJECT, PERFORMED, READ, keys, message,
};
use drive_command::{DeviceServer, DriveServeErr};
use drive_loop::{DriveHandler, serve_drive};
use drive_store::StoredDrive;
use osd_bytes::{MAX_RECORD, MemClock, Records, Sequence, Times, frame};
use osd_commands::read_reply;
use osd_disk::MemDisk;
use osd_drive::DriveCore;
use osd_lists::Bytes;
use port_loop::{Happening, MemNotes, MemPorts, Planned, Room};
use std::alloc::Global;

// What comes next: the record of a command on a connection, or its first half or the rest.
#[derive(Clone, Copy)]
enum Next {
    Opens,
    Whole(u64, Ask),
    First(u64, Ask),
    Rest(u64, Ask),
    Drains(u64),
    Closes(u64),
}

fn record(alloc: Global, ask: Ask) -> Bytes {
    let message = message(alloc, ask);
    if message.len() > MAX_RECORD {
        return Bytes::new(alloc);
    }
    match frame(alloc, message.as_slice()) {
        Ok(bytes) => bytes,
        Err(_) => Bytes::new(alloc),
    }
}

fn half(alloc: Global, ask: Ask, is_first: bool) -> Bytes {
    let record = record(alloc, ask);
    let (first, rest) = record.as_slice().split_at(record.len() / 2);
    copied(alloc, if is_first { first } else { rest })
}

fn planned(alloc: Global, next: Next) -> Planned {
    match next {
        Next::Opens => Planned::Opens,
        Next::Whole(port, ask) => Planned::Brings {
            port,
            bytes: record(alloc, ask),
        },
        Next::First(port, ask) => Planned::Brings {
            port,
            bytes: half(alloc, ask, true),
        },
        Next::Rest(port, ask) => Planned::Brings {
            port,
            bytes: half(alloc, ask, false),
        },
        Next::Drains(port) => Planned::Drains { port },
        Next::Closes(port) => Planned::Closes { port },
    }
}

fn ports(alloc: Global, plan: &[Next], rooms: &[Room]) -> MemPorts {
    let mut all = Sequence::new(alloc);
    for next in plan {
        let _ = all.push(planned(alloc, *next));
    }
    let rooms = match Sequence::copied(alloc, rooms) {
        Ok(rooms) => rooms,
        Err(_) => Sequence::new(alloc),
    };
    MemPorts::new(alloc, all, rooms)
}

fn clock(alloc: Global, times: &[u64]) -> MemClock {
    match Times::copied(alloc, times) {
        Ok(times) => MemClock::new(times),
        Err(_) => MemClock::new(Times::new(alloc)),
    }
}

// The bytes that were put on a connection.
fn put_on(alloc: Global, ports: &MemPorts, port: u64) -> Bytes {
    let mut all = Bytes::new(alloc);
    if let Some(happened) = ports.happened() {
        for happening in happened {
            match happening {
                Happening::Went { port: p, bytes, .. } if *p == port => {
                    let _ = all.extend_from_slice(bytes.as_slice());
                }
                _ => {}
            }
        }
    }
    all
}

// Whether the replies on a connection have these verdicts.
fn has_verdicts(alloc: Global, ports: &MemPorts, port: u64, verdicts: &[u16]) -> bool {
    let put = put_on(alloc, ports, port);
    let records = match Records::new(alloc).feed(put.as_slice()) {
        Ok(records) => records,
        Err(_) => return false,
    };
    if records.len() != verdicts.len() {
        return false;
    }
    for i in 0..records.len() {
        match read_reply(alloc, records.get(i).as_slice()) {
            Ok(reply) if reply.verdict == verdicts[i] => {}
            _ => return false,
        }
    }
    true
}

// What comes, how puts end, how many connections are served, and the verdicts of the replies on the first two.
struct Case {
    plan: &'static [Next],
    rooms: &'static [Room],
    connections: u32,
    first: &'static [u16],
    second: &'static [u16],
}

const CASES: &[Case] = &[
    // The first connection is in the middle of a record.
    Case {
        plan: &[
            Next::Opens,
            Next::Opens,
            Next::First(0, MAKE),
            Next::Whole(1, READ),
            Next::Rest(0, MAKE),
            Next::Whole(1, READ),
            Next::Closes(0),
            Next::Closes(1),
        ],
        rooms: &[],
        connections: 2,
        first: &[PERFORMED],
        second: &[NO_OBJECT, PERFORMED],
    },
    // The first one takes no more than ten bytes until there is room.
    Case {
        plan: &[
            Next::Opens,
            Next::Opens,
            Next::Whole(0, READ),
            Next::Whole(1, MAKE),
            Next::Drains(0),
            Next::Closes(0),
            Next::Closes(1),
        ],
        rooms: &[Room::Takes { count: 10 }],
        connections: 2,
        first: &[NO_OBJECT],
        second: &[PERFORMED],
    },
    // A put fails: that connection is over, and the other one is served.
    Case {
        plan: &[
            Next::Opens,
            Next::Opens,
            Next::Whole(0, MAKE),
            Next::Whole(0, READ),
            Next::Whole(1, READ),
            Next::Closes(1),
        ],
        rooms: &[Room::Fails],
        connections: 2,
        first: &[],
        second: &[PERFORMED],
    },
    // One connection is over, and no more is to be served.
    Case {
        plan: &[
            Next::Opens,
            Next::Opens,
            Next::Whole(0, MAKE),
            Next::Closes(0),
            Next::Whole(1, READ),
            Next::Closes(1),
        ],
        rooms: &[],
        connections: 1,
        first: &[PERFORMED],
        second: &[],
    },
];

// Whether a drive serves the connections of a case so.
fn serves<H: DeviceServer + Drop>(alloc: Global, server: H, case: &Case) -> bool
    requires { H.is_over server ≡ false }
{
    let mut handler = DriveHandler::new(server, MemNotes::new(alloc));
    let mut ports = ports(alloc, case.plan, case.rooms);
    let mut clock = clock(alloc, &[5]);
    let served = serve_drive(
        alloc,
        &mut handler,
        &mut ports,
        &mut clock,
        case.connections,
    );
    matches!(served, Ok(()))
        && has_verdicts(alloc, &ports, 0, case.first)
        && has_verdicts(alloc, &ports, 1, case.second)
}

fn core(alloc: Global) -> DriveCore {
    DriveCore::new(alloc, 0, keys(alloc), CAPACITY)
}

#[test]
fn no_connection_holds_another_up(rt: HostRuntime) {
    let alloc = rt.alloc();
    for case in CASES.iter() {
        assert!(rt; serves(alloc, core(alloc), case));
    }
}

#[test]
fn refusals_are_told_once_a_second(rt: HostRuntime) {
    let alloc = rt.alloc();
    let mut handler = DriveHandler::new(core(alloc), MemNotes::new(alloc));
    let plan = [
        Next::Opens,
        Next::Opens,
        Next::Whole(0, READ),
        Next::Whole(1, READ),
        Next::Whole(0, READ),
        Next::Closes(0),
    ];
    let mut ports = ports(alloc, &plan, &[]);
    let served = serve_drive(
        alloc,
        &mut handler,
        &mut ports,
        &mut clock(alloc, &[5, 5, 6]),
        1,
    );
    assert!(rt; matches!(served, Ok(())));
    let (_, notes) = handler.into_parts();
    assert!(rt; notes.lines().len() == 2);
}

// Whether a drive of which the disk fails at the first change ends so, and puts nothing for that record.
fn breaks_off<H: DeviceServer + Drop>(alloc: Global, server: H) -> bool
    requires { H.is_over server ≡ false }
{
    let mut handler = DriveHandler::new(server, MemNotes::new(alloc));
    let plan = [
        Next::Opens,
        Next::Whole(0, READ),
        Next::Whole(0, MAKE),
        Next::Whole(0, READ),
    ];
    let mut ports = ports(alloc, &plan, &[]);
    let mut clock = clock(alloc, &[5]);
    let served = serve_drive(alloc, &mut handler, &mut ports, &mut clock, 1);
    matches!(served, Err(DriveServeErr::DiskFault)) && has_verdicts(alloc, &ports, 0, &[NO_OBJECT])
}

#[test]
fn a_disk_that_fails_ends_it(rt: HostRuntime) {
    let alloc = rt.alloc();
    let disk = MemDisk::new(alloc, numbers(alloc, &[CREATE + 1]));
    match StoredDrive::create(alloc, disk, 0, keys(alloc), CAPACITY) {
        Ok(store) => {
            if !store.is_over() {
                assert!(rt; breaks_off(alloc, store));
            }
        }
        Err(_) => {}
    }
}
