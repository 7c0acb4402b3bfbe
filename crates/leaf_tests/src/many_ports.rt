//! Many connections in memory, which one loop serves.
use crate::ends::copied;
use osd_bytes::{Bytes, MAX_RECORD, MemClock, Memory, Sequence, Times};
use port_loop::{Handler, HandlerErr, Happening, MemPorts, Planned, Room, serve_many};
use std::alloc::Global;

// A record, its first bytes, and one that is followed by the header of one that is too long.
pub(crate) const WHOLE: &[u8] = b"\x80\x00\x00\x04abcd";

const HALF: &[u8] = b"\x80\x00\x00\x04ab";

const TOO_LONG_AFTER_A_GOOD_ONE: &[u8] = b"\x80\x00\x00\x04abcd\x80\x04\x93\xe1";

// How many connections stand at once, and of how many each time one is silent within its record.
const MANY: u64 = 200;

const SILENT_EACH: u64 = 20;

// Answers each record by itself.
#[derive(Drop)]
struct Echo;

impl Handler for Echo {
    ghost use Rattle.std.specs.Prelude.{⊤};

    ghost State = { ⊤ };

    ghost state = { λ _. tt };

    ghost faults = { λ _. 0 };

    ghost reply_to = { λ _ _ message. message };

    ghost state_after = { λ _ _ _. tt };

    ghost goes_on = { λ _. ⊤ };

    ghost handles = { λ _ _ _ _. ⊤ };

    ghost fails = { λ _ _ _ _ _. ⊤ };

    fn handle(&mut self, alloc: Global, now: u64, message: &[u8]) -> Result<Bytes, HandlerErr> {
        let _ = now;
        if message.len() > MAX_RECORD {
            return Err(HandlerErr::Memory);
        }
        Ok(Bytes::copied(alloc, message)?)
    }
}

// What comes next on connections.
#[derive(Clone, Copy, Drop)]
pub(crate) enum Next {
    Opens,
    Brings(u64, &'static [u8]),
}

pub(crate) fn planned(alloc: Global, next: Next) -> Planned {
    match next {
        Next::Opens => Planned::Opens,
        Next::Brings(port, bytes) => Planned::Brings {
            port,
            bytes: copied(alloc, bytes),
        },
    }
}

// The connections after an echo served all that comes. The puts end as the rooms say, and then take all.
fn echoed(alloc: Global, nexts: &[Next], rooms: &[Room]) -> Result<MemPorts, Memory> {
    let mut plan = Sequence::new(alloc);
    for next in nexts {
        plan.push(planned(alloc, *next))?;
    }
    let mut ends = Sequence::new(alloc);
    for room in rooms {
        ends.push(*room)?;
    }
    let mut ports = MemPorts::new(alloc, plan, ends);
    let mut clock = MemClock::new(Times::new(alloc));
    let turns = nexts.len() as u64;
    match serve_many(alloc, &mut Echo, &mut ports, &mut clock, u32::MAX, turns) {
        Ok(()) => Ok(ports),
        Err(_) => Err(Memory),
    }
}

// Whether these bytes were put on a connection, one after the other.
pub(crate) fn has_put(alloc: Global, ports: &MemPorts, port: u64, want: &[u8]) -> bool {
    let mut all = Bytes::new(alloc);
    for happening in ports.happened().unwrap_or(&[]) {
        if let Happening::Went {
            port: on,
            bytes,
            ..
        } = happening
        {
            if *on == port && all.extend_from_slice(bytes.as_slice()).is_err() {
                return false;
            }
        }
    }
    all.as_slice() == want
}

pub(crate) fn is_closed(ports: &MemPorts, port: u64) -> bool {
    ports.happened().unwrap_or(&[]).iter().any(
        |happening| matches!(happening, Happening::Closed { port: on } if *on == port),
    )
}

// All connections open, and then a piece comes on each.
fn one_piece_each(alloc: Global) -> Result<Vec<Next>, Memory> {
    let mut nexts = Vec::new(alloc);
    for _ in 0..MANY {
        nexts.push(Next::Opens)?;
    }
    for port in 0..MANY {
        let piece = if port % SILENT_EACH == 0 { HALF } else { WHOLE };
        nexts.push(Next::Brings(port, piece))?;
    }
    Ok(nexts)
}

#[test]
fn silent_ones_hold_nobody(rt: HostRuntime) -> Result<(), Memory> {
    let alloc = rt.alloc();
    let nexts = one_piece_each(alloc)?;
    let ports = echoed(alloc, &nexts, &[])?;
    for port in 0..MANY {
        let want = if port % SILENT_EACH == 0 { &[] } else { WHOLE };
        assert!(rt; has_put(alloc, &ports, port, want), "at {port}");
    }
    Ok(())
}

#[test]
fn what_ends_one_connection_ends_no_other(rt: HostRuntime) -> Result<(), Memory> {
    let alloc = rt.alloc();
    let nexts = [
        Next::Opens,
        Next::Opens,
        Next::Opens,
        Next::Brings(0, TOO_LONG_AFTER_A_GOOD_ONE),
        Next::Brings(1, WHOLE),
        Next::Brings(2, WHOLE),
        Next::Brings(0, WHOLE),
    ];
    let rooms = [Room::Takes { count: 8 }, Room::Fails];
    let ports = echoed(alloc, &nexts, &rooms)?;
    assert!(rt; has_put(alloc, &ports, 0, WHOLE) && is_closed(&ports, 0));
    assert!(rt; has_put(alloc, &ports, 1, &[]) && is_closed(&ports, 1));
    assert!(rt; has_put(alloc, &ports, 2, WHOLE) && !is_closed(&ports, 2));
    Ok(())
}
