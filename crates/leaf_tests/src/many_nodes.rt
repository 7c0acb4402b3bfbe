//! A party among nodes, over connections in memory.
use crate::many_ports::{Next, WHOLE, has_put, is_closed, planned};
use node_loop::{Message, Messages, Party, serve_nodes};
use osd_bytes::{Bytes, MemClock, Memory, Node, Sequence, Times};
use port_loop::{HandlerErr, Happening, MemPorts, Room};
use std::alloc::Global;

// A record of four other bytes.
const OTHER: &[u8] = b"\x80\x00\x00\x04efgh";

const WHOLE_AND_OTHER: &[u8] = b"\x80\x00\x00\x04abcd\x80\x00\x00\x04efgh";

const OTHER_AND_WHOLE: &[u8] = b"\x80\x00\x00\x04efgh\x80\x00\x00\x04abcd";

// The client that all records of others name.
const CLIENT: u32 = 7;

// Hands the records of a client to a drive, and those of the drive to the client.
#[derive(Drop)]
struct Relay;

impl Party for Relay {
    ghost use Rattle.std.specs.Prelude.{◌∷◌, [], ⊤};
    ghost use Rattle.osd_lists.specs.declared.node.Node.{Node};
    ghost use Rattle.osd_lists.specs.declared.node.Node.TheVariants.{Client};

    ghost State = { ⊤ };

    ghost Choice = { Node };

    ghost state = { λ _. tt };

    ghost faults = { λ _. 0 };

    ghost sender_of = { λ _. Client 7 };

    ghost given = { λ _ to _ _ message. record { to = to; bytes = message } ∷ [] };

    ghost state_after = { λ _ _ _ _ _. tt };

    ghost awaited = { λ _. [] };

    ghost goes_on = { λ _. ⊤ };

    ghost hears = { λ _ _ _ _ _ _. ⊤ };

    ghost fails = { λ _ _ _ _ _ _. ⊤ };

    fn sender(&self, alloc: Global, message: &[u8]) -> Result<Node, Memory> {
        let _ = alloc;
        let _ = message;
        Ok(Node::Client(CLIENT))
    }

    fn hear(
        &mut self,
        alloc: Global,
        now: u64,
        from: Node,
        message: &[u8],
    ) -> Result<Messages, HandlerErr> {
        let _ = now;
        let to = match from {
            Node::Client(_) => Node::Drive(0),
            _ => Node::Client(CLIENT),
        };
        let mut messages = Messages::new(alloc);
        let bytes = Bytes::copied(alloc, message)?;
        messages.push(Message { to, bytes })?;
        Ok(messages)
    }

    fn resend(&self, alloc: Global) -> Result<Messages, Memory> {
        Ok(Messages::new(alloc))
    }
}

// The connections after a relay served all that comes. The puts end as the rooms say, and then take all.
fn relayed(alloc: Global, nexts: &[Next], rooms: &[Room]) -> Result<MemPorts, Memory> {
    let mut plan = Sequence::new(alloc);
    for next in nexts {
        plan.push(planned(alloc, *next))?;
    }
    let mut ends = Sequence::new(alloc);
    for room in rooms {
        ends.push(*room)?;
    }
    let mut ports = MemPorts::new(alloc, plan, ends);
    let mut clock = MemClock::new(Times::new(alloc));
    let turns = nexts.len() as u64;
    match serve_nodes(alloc, &mut Relay, &mut ports, &mut clock, u32::MAX, turns) {
        Ok(()) => Ok(ports),
        Err(_) => Err(Memory),
    }
}

// How many connections were opened towards a drive.
fn opened(ports: &MemPorts) -> usize {
    ports
        .happened()
        .unwrap_or(&[])
        .iter()
        .filter(|happening| matches!(
            happening,
            Happening::Opened {
                to: Node::Drive(_),
                ..
            }
        ))
        .count()
}

#[test]
fn a_drive_is_asked_on_one_connection_and_answers_the_client(
    rt: HostRuntime,
) -> Result<(), Memory> {
    let alloc = rt.alloc();
    let nexts = [
        Next::Opens,
        Next::Brings(0, WHOLE),
        Next::Brings(1, OTHER),
        Next::Brings(0, OTHER),
        Next::Brings(1, WHOLE),
    ];
    let ports = relayed(alloc, &nexts, &[])?;
    assert_eq!(rt; opened(&ports), 1);
    assert!(rt; has_put(alloc, &ports, 1, WHOLE_AND_OTHER));
    assert!(rt; has_put(alloc, &ports, 0, OTHER_AND_WHOLE));
    Ok(())
}

#[test]
fn a_drive_whose_connection_fails_is_asked_on_another(rt: HostRuntime) -> Result<(), Memory> {
    let alloc = rt.alloc();
    let nexts = [
        Next::Opens,
        Next::Brings(0, WHOLE),
        Next::Brings(0, OTHER),
        Next::Brings(2, WHOLE),
    ];
    let ports = relayed(alloc, &nexts, &[Room::Fails])?;
    assert!(rt; is_closed(&ports, 1) && has_put(alloc, &ports, 1, &[]));
    assert!(rt; has_put(alloc, &ports, 2, OTHER));
    assert!(rt; has_put(alloc, &ports, 0, WHOLE));
    Ok(())
}
