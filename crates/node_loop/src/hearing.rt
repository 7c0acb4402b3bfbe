// Records that come.
ghost use Rattle.std.specs.Prelude.{◌≡◌, ◌≤◌, ◌<◌, ◌∷◌, [], ℕ, List, Option, IfOk, IsErrOf, OnOk};
ghost use Rattle.std.specs.Ordering.{nat_cmp};
ghost use Rattle.std.specs.BTreeMap.{get};
ghost use Rattle.osd_bytes.specs.Causes.{Rose};
ghost use Rattle.osd_lists.specs.declared.node.Node.{Node as TheNode};
ghost use Rattle.node_loop.specs.Points.{Leaves, calm, reading, seen};
ghost use Rattle.node_loop.specs.Steps.{sender_or};
ghost use Rattle.port_loop.specs.Ports.{Adds};
ghost use Rattle.port_loop.specs.Serving.{Desk, desk_at};
ghost use Rattle.port_loop.specs.declared.handler.HandlerErr.TheVariants.{Failed};
ghost use Rattle.port_loop.specs.declared.ports.Happening.{Happening};
ghost use Rattle.port_loop.specs.declared.ports.Happening.TheVariants.{Came};

use crate::board::{Board, lay, lift};
use crate::party::Party;
use crate::posting::{close, post_all};
use osd_bytes::{ByteLists, Clock, Memory, Node};
use port_loop::{HandlerErr, Ports};
use std::alloc::Global;

// Who sent a record: the node towards which its connection was opened, or whom the record names.
fn sender_or<H: Party>(
    alloc: Global,
    party: &H,
    to: Option<Node>,
    message: &[u8],
) -> Result<Node, Memory>
    ensures { IfOk result (λ n. n ≡ sender_or to (H.sender_of message.now)) }
{
    match to {
        Some(node) => Ok(node),
        None => party.sender(alloc, message),
    }
}

// Hears a record at the next time of the clock, and posts what that gives.
fn hear_one<H: Party, P: Ports, C: Clock>(
    alloc: Global,
    party: &mut H,
    ports: &mut P,
    clock: &mut C,
    board: &mut Board,
    port: u64,
    to: Option<Node>,
    message: &[u8],
) -> Result<(), HandlerErr>
    requires goes_on { H.goes_on party.old }
    ensures leaves { (rest : List (List ℕ)) → Leaves 0 H.Party
        (seen (P.opened ports.old) (P.told ports.old) (desk_at party.old (C.times clock.old)) board.old)
        (reading port to (message.now ∷ rest))
        (seen (P.opened ports.new) (P.told ports.new) (desk_at party.new (C.times clock.new)) board.new)
        (reading port to rest) result }
    ensures goes_on { OnOk result (H.goes_on party.new) }
    ensures handler { IsErrOf result Failed → Rose (H.faults party.old) (H.faults party.new) }
    ensures listens { P.listens ports.new ≡ P.listens ports.old }
    ensures later { P.faults ports.old ≤ P.faults ports.new }
    ensures party_later { H.faults party.old ≤ H.faults party.new }
{
    let from = sender_or(alloc, party, to, message)?;
    let now = clock.now();
    let messages = party.hear(alloc, now, from, message)?;
    board.ways.lead(from, port)?;
    post_all::<H, P>(alloc, ports, board, &messages)?;
    Ok(())
}

// Hears records, in order.
fn hear_all<H: Party, P: Ports, C: Clock>(
    alloc: Global,
    party: &mut H,
    ports: &mut P,
    clock: &mut C,
    board: &mut Board,
    port: u64,
    to: Option<Node>,
    records: &ByteLists,
) -> Result<(), HandlerErr>
    requires goes_on { H.goes_on party.old }
    ensures leaves { Leaves 0 H.Party
        (seen (P.opened ports.old) (P.told ports.old) (desk_at party.old (C.times clock.old)) board.old)
        (reading port to records.now)
        (seen (P.opened ports.new) (P.told ports.new) (desk_at party.new (C.times clock.new)) board.new)
        (reading port to []) result }
    ensures goes_on { OnOk result (H.goes_on party.new) }
    ensures handler { IsErrOf result Failed → Rose (H.faults party.old) (H.faults party.new) }
    ensures listens { P.listens ports.new ≡ P.listens ports.old }
    ensures later { P.faults ports.old ≤ P.faults ports.new }
    ensures party_later { H.faults party.old ≤ H.faults party.new }
{
    for i in 0..records.len() {
        let record = records.get(i).as_slice();
        hear_one(alloc, party, ports, clock, board, port, to, record)?;
    }
    Ok(())
}

// Closes a connection that was read, if a record on it was too long.
fn finish<H: Party, P: Ports>(ports: &mut P, board: &mut Board, port: u64) -> Result<(), Memory>
    ensures leaves { (desk : Desk H) (to : Option TheNode) → Leaves 0 H.Party
        (seen (P.opened ports.old) (P.told ports.old) desk board.old) (reading port to [])
        (seen (P.opened ports.new) (P.told ports.new) desk board.new) calm result }
    ensures listens { P.listens ports.new ≡ P.listens ports.old }
    ensures later { P.faults ports.old ≤ P.faults ports.new }
{
    let peer = match lift(&mut board.table, port) {
        Some(peer) => peer,
        None => return Ok(()),
    };
    if peer.is_broken() {
        close(ports, board, port, peer.to());
        return Ok(());
    }
    lay(&mut board.table, port, peer)?;
    Ok(())
}

/// Hears the records that a piece completes. What comes on a connection that isn't open is none of any.
pub(crate) fn bring<H: Party, P: Ports, C: Clock>(
    alloc: Global,
    party: &mut H,
    ports: &mut P,
    clock: &mut C,
    board: &mut Board,
    port: u64,
    piece: &[u8],
) -> Result<(), HandlerErr>
    requires goes_on { H.goes_on party.old }
    ensures leaves { (before : Option (List Happening)) → Adds (Came port piece.now) before (P.told ports.old) →
        port < P.opened ports.old → Leaves 1 H.Party
        (seen (P.opened ports.old) before (desk_at party.old (C.times clock.old)) board.old) calm
        (seen (P.opened ports.new) (P.told ports.new) (desk_at party.new (C.times clock.new)) board.new) calm result }
    ensures goes_on { OnOk result (H.goes_on party.new) }
    ensures handler { IsErrOf result Failed → Rose (H.faults party.old) (H.faults party.new) }
    ensures listens { P.listens ports.new ≡ P.listens ports.old }
    ensures later { P.faults ports.old ≤ P.faults ports.new }
    ensures party_later { H.faults party.old ≤ H.faults party.new }
{
    let mut peer = match lift(&mut board.table, port) {
        Some(peer) => peer,
        None => return Ok(()),
    };
    let to = peer.to();
    let records = peer.read(piece)?;
    lay(&mut board.table, port, peer)?;
    hear_all(alloc, party, ports, clock, board, port, to, &records)?;
    finish::<H, P>(ports, board, port)?;
    Ok(())
}
