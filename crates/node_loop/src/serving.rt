ghost use Rattle.std.specs.Prelude.{◌≡◌, ◌≤◌, ℕ, List, Option, IsErrOf, OnOk};
ghost use Rattle.std.specs.Ordering.{nat_cmp};
ghost use Rattle.std.specs.BTreeMap.{get};
ghost use Rattle.osd_bytes.specs.Causes.{Rose};
ghost use Rattle.node_loop.specs.Points.{Leaves, Moves, Turns, calm, seen};
ghost use Rattle.node_loop.specs.Serving.{Serves};
ghost use Rattle.port_loop.specs.Ports.{Adds};
ghost use Rattle.port_loop.specs.Serving.{Desk, desk_at};
ghost use Rattle.port_loop.specs.declared.ports.Happening.{Happening};
ghost use Rattle.port_loop.specs.declared.ports.Happening.TheVariants.{Drained, Ended};
ghost use Rattle.port_loop.specs.declared.serving.LoopErr.TheVariants.{PortFault, HandlerFault};

use crate::board::{Board, count_over, lay, lift};
use crate::hearing::bring;
use crate::party::Party;
use crate::peer::Peer;
use crate::posting::put_out;
use crate::resending::resend;
use osd_bytes::{Bytes, Clock, Memory};
use port_loop::{Arrival, LoopErr, PIECE, Ports};
use std::alloc::Global;

// Puts more of what waits on a connection, on which there is room again.
fn drain<H: Party, P: Ports>(ports: &mut P, board: &mut Board, port: u64) -> Result<(), Memory>
    ensures leaves { (before : Option (List Happening)) (desk : Desk H) → Adds (Drained port) before (P.told ports.old) →
        Leaves 1 H.Party (seen (P.opened ports.old) before desk board.old) calm
        (seen (P.opened ports.new) (P.told ports.new) desk board.new) calm result }
    ensures listens { P.listens ports.new ≡ P.listens ports.old }
    ensures later { P.faults ports.old ≤ P.faults ports.new }
{
    let mut peer = match lift(&mut board.table, port) {
        Some(peer) => peer,
        None => return Ok(()),
    };
    peer.drained();
    put_out::<H, P>(ports, board, port, peer)
}

// Keeps nothing of a connection that ended.
fn end<H: Party>(board: &mut Board, port: u64)
    ensures { (opened : ℕ) (before now : Option (List Happening)) (desk : Desk H) → Adds (Ended port) before now → Moves 1 H.Party
        (seen opened before desk board.old) calm (seen opened now desk board.new) calm }
{
    match lift(&mut board.table, port) {
        Some(peer) => count_over(peer.to(), &mut board.over),
        None => {}
    }
}

// Waits for what happens next, and does what it asks for.
fn turn<H: Party, P: Ports, C: Clock>(
    alloc: Global,
    party: &mut H,
    ports: &mut P,
    clock: &mut C,
    board: &mut Board,
    space: &mut Bytes,
) -> Result<(), LoopErr>
    requires goes_on { H.goes_on party.old }
    ensures turns { Turns H.Party
        (seen (P.opened ports.old) (P.told ports.old) (desk_at party.old (C.times clock.old)) board.old)
        (seen (P.opened ports.new) (P.told ports.new) (desk_at party.new (C.times clock.new)) board.new) result }
    ensures goes_on { OnOk result (H.goes_on party.new) }
    ensures port_goes_on { IsErrOf result PortFault → H.goes_on party.new }
    ensures port { IsErrOf result PortFault → Rose (P.faults ports.old) (P.faults ports.new) }
    ensures handler { IsErrOf result HandlerFault → Rose (H.faults party.old) (H.faults party.new) }
    ensures listens { P.listens ports.new ≡ P.listens ports.old }
    ensures later { P.faults ports.old ≤ P.faults ports.new }
    ensures party_later { H.faults party.old ≤ H.faults party.new }
{
    space.grow(PIECE)?;
    match ports.next(space.as_mut_slice())? {
        Arrival::Opens { port } => {
            lay(&mut board.table, port, Peer::new(alloc, None))?;
            resend::<H, P>(alloc, party, ports, board)?;
        }
        Arrival::Brings { port, count } => {
            let (piece, _) = space.as_slice().split_at(count);
            bring(alloc, party, ports, clock, board, port, piece)?;
        }
        Arrival::Drains { port } => drain::<H, P>(ports, board, port)?,
        Arrival::Closes { port } => end::<H>(board, port),
        Arrival::Quiet => resend::<H, P>(alloc, party, ports, board)?,
    }
    Ok(())
}

/// Serves all connections at once, until so many of those that others begin are over, or for so many turns. In each turn one
/// thing happens: a connection begins, a piece of it comes, there is room on it again, or it ends; or nothing happens for a
/// while.
///
/// Each record that comes whole is heard at the next time of the clock, in the order in which they are taken. Who sent it is the
/// node towards which its connection was opened, or whom it names. The messages that this gives are posted at once, in order:
/// each goes to the connection that was opened towards its node last, or on which its node spoke last, as there is room. To a
/// drive that has no open connection one is opened. A message is lost if it is longer than a record may be, or if its node has no
/// open connection and none can be opened towards it.
///
/// When a connection begins or nothing happens for a while, the messages to which the party awaits answers are sent once more,
/// but not to a node to which a message was posted on an open connection on which no byte came since.
///
/// Before the loop waits again, all this is done, and an open connection owes nothing unless it is full. A connection is closed
/// only if a record on it is too long, a put on it fails, or more than [`MOST_UNSENT`](port_loop::MOST_UNSENT) bytes wait on it.
/// The records before one that is too long are heard. What comes on a connection that began before this call is dropped. Those
/// that are open at the end stay so.
///
/// # Errors
///
/// [`LoopErr::PortFault`] only if the count of the ports rose, [`LoopErr::HandlerFault`] only if that of the party rose, and
/// [`LoopErr::Memory`]. Each record was heard to its end then, but perhaps one at which the party failed, of which nothing was
/// posted.
pub fn serve_nodes<H: Party, P: Ports, C: Clock>(
    alloc: Global,
    party: &mut H,
    ports: &mut P,
    clock: &mut C,
    connections: u32,
    turns: u64,
) -> Result<(), LoopErr>
    requires { H.goes_on party.old }
    ensures serves { Serves H.Party (desk_at party.old (C.times clock.old)) (desk_at party.new (C.times clock.new))
        (P.told ports.old) (P.told ports.new) connections turns result }
    ensures listens { P.listens ports.new ≡ P.listens ports.old }
    ensures port { IsErrOf result PortFault → Rose (P.faults ports.old) (P.faults ports.new) }
    ensures handler { IsErrOf result HandlerFault → Rose (H.faults party.old) (H.faults party.new) }
{
    let connections = u64::from(connections);
    let mut board = Board::new(alloc);
    let mut space = Bytes::new(alloc);
    for _ in 0..turns {
        if board.over >= connections {
            return Ok(());
        }
        turn(alloc, party, ports, clock, &mut board, &mut space)?;
    }
    Ok(())
}
