// Messages on their ways.
ghost use Rattle.std.specs.Prelude.{◌≡◌, ◌≤◌, ◌∷◌, [], ℕ, List, None, Some, false, length, OnOk};
ghost use Rattle.std.specs.Ordering.{nat_cmp};
ghost use Rattle.std.specs.BTreeMap.{get};
ghost use Rattle.osd_bytes.specs.declared.records.TheConstants.{MAX_RECORD};
ghost use Rattle.node_loop.specs.Nodes.{Sets, way_in};
ghost use Rattle.node_loop.specs.Points.{Leaves, Work, holding_on, open_at, over_after, posting, putting, seen};
ghost use Rattle.node_loop.specs.declared.party.Message.{Message};
ghost use Rattle.port_loop.specs.Ports.{Adds};
ghost use Rattle.port_loop.specs.Serving.{Desk};
ghost use Rattle.port_loop.specs.declared.ports.Happening.TheVariants.{Closed};

use crate::board::{Board, count_over, lay, lift, reach};
use crate::party::{Message, Messages, Party};
use crate::peer::Peer;
use osd_bytes::{MAX_RECORD, Memory, Node};
use port_loop::{MOST_UNSENT, Ports};
use std::alloc::Global;

/// Closes a connection, and keeps nothing of it.
pub(crate) fn close<P: Ports>(ports: &mut P, board: &mut Board, port: u64, to: Option<Node>)
    ensures told { Adds (Closed port) (P.told ports.old) (P.told ports.new) }
    ensures opened { P.opened ports.new ≡ P.opened ports.old }
    ensures listens { P.listens ports.new ≡ P.listens ports.old }
    ensures same { P.faults ports.new ≡ P.faults ports.old }
    ensures sets { Sets port None (get nat_cmp board.old.table) (get nat_cmp board.new.table) }
    ensures over { board.new.over ≡ over_after to board.old.over }
    ensures ways { way_in board.new.ways ≡ way_in board.old.ways }
{
    ports.close(port);
    let _ = lift(&mut board.table, port);
    count_over(to, &mut board.over);
}

// Keeps a connection that was in hand, and on which nothing is to be put now. It is closed if too much waits on it.
fn keep<H: Party, P: Ports>(
    ports: &mut P,
    board: &mut Board,
    port: u64,
    peer: Peer,
) -> Result<(), Memory>
    requires all { peer.is_full ≡ false → peer.unsent ≡ [] }
    ensures leaves { (desk : Desk H) (w : Work) → Leaves 0 H.Party
        (holding_on port peer (seen (P.opened ports.old) (P.told ports.old) desk board.old)) (putting w port)
        (seen (P.opened ports.new) (P.told ports.new) desk board.new) w result }
    ensures listens { P.listens ports.new ≡ P.listens ports.old }
    ensures later { P.faults ports.old ≤ P.faults ports.new }
{
    if peer.unsent().len() > MOST_UNSENT {
        close(ports, board, port, peer.to());
        return Ok(());
    }
    lay(&mut board.table, port, peer)?;
    Ok(())
}

/// Puts what there is room for on a connection that was in hand, and keeps it. It is closed if that fails, or too much still
/// waits. `H` is the party of which the contract speaks.
pub(crate) fn put_out<H: Party, P: Ports>(
    ports: &mut P,
    board: &mut Board,
    port: u64,
    mut peer: Peer,
) -> Result<(), Memory>
    ensures leaves { (desk : Desk H) (w : Work) → Leaves 0 H.Party
        (holding_on port peer (seen (P.opened ports.old) (P.told ports.old) desk board.old)) (putting w port)
        (seen (P.opened ports.new) (P.told ports.new) desk board.new) w result }
    ensures listens { P.listens ports.new ≡ P.listens ports.old }
    ensures later { P.faults ports.old ≤ P.faults ports.new }
{
    if peer.is_full() {
        return keep::<H, P>(ports, board, port, peer);
    }
    match ports.put(port, peer.unsent()) {
        Ok(count) => peer.went(count)?,
        Err(_) => {
            close(ports, board, port, peer.to());
            return Ok(());
        }
    }
    keep::<H, P>(ports, board, port, peer)
}

// Posts a message on the connection of its node, which was in hand, and puts what there is room for.
fn post_on<H: Party, P: Ports>(
    ports: &mut P,
    board: &mut Board,
    port: u64,
    mut peer: Peer,
    message: &Message,
) -> Result<(), Memory>
    requires way { way_in board.old.ways message.now.to ≡ Some port }
    requires short { length message.now.bytes ≤ MAX_RECORD }
    ensures leaves { (desk : Desk H) (w : Work) (more : List Message) → Leaves 0 H.Party
        (holding_on port peer (seen (P.opened ports.old) (P.told ports.old) desk board.old)) (posting w (message.now ∷ more))
        (seen (P.opened ports.new) (P.told ports.new) desk board.new) (posting w more) result }
    ensures listens { P.listens ports.new ≡ P.listens ports.old }
    ensures later { P.faults ports.old ≤ P.faults ports.new }
{
    peer.post(message.bytes.as_slice())?;
    put_out::<H, P>(ports, board, port, peer)?;
    Ok(())
}

// Posts a message to a node that isn't reached: on a connection that is opened towards it if it is a drive. It is lost if none
// can be opened, or if it is for anyone else.
fn post_anew<H: Party, P: Ports>(
    alloc: Global,
    ports: &mut P,
    board: &mut Board,
    message: &Message,
) -> Result<(), Memory>
    requires shut { open_at (way_in board.old.ways message.now.to) (get nat_cmp board.old.table) ≡ None }
    requires short { length message.now.bytes ≤ MAX_RECORD }
    ensures leaves { (desk : Desk H) (w : Work) (more : List Message) → Leaves 0 H.Party
        (seen (P.opened ports.old) (P.told ports.old) desk board.old) (posting w (message.now ∷ more))
        (seen (P.opened ports.new) (P.told ports.new) desk board.new) (posting w more) result }
    ensures listens { P.listens ports.new ≡ P.listens ports.old }
    ensures later { P.faults ports.old ≤ P.faults ports.new }
{
    let to = message.to;
    match to {
        Node::Drive(_) => {}
        Node::Server | Node::Client(_) => return Ok(()),
    }
    let port = match ports.open(to) {
        Ok(port) => port,
        Err(_) => return Ok(()),
    };
    board.ways.lead(to, port)?;
    post_on::<H, P>(ports, board, port, Peer::new(alloc, Some(to)), message)
}

/// Posts a message on the connection of its node, and puts what there is room for there. A connection to a drive is opened if
/// there is none. The message is lost if it is longer than a record may be, or if its node isn't reached.
pub(crate) fn post<H: Party, P: Ports>(
    alloc: Global,
    ports: &mut P,
    board: &mut Board,
    message: &Message,
) -> Result<(), Memory>
    ensures leaves { (desk : Desk H) (w : Work) (more : List Message) → Leaves 0 H.Party
        (seen (P.opened ports.old) (P.told ports.old) desk board.old) (posting w (message.now ∷ more))
        (seen (P.opened ports.new) (P.told ports.new) desk board.new) (posting w more) result }
    ensures listens { P.listens ports.new ≡ P.listens ports.old }
    ensures later { P.faults ports.old ≤ P.faults ports.new }
{
    if message.bytes.len() > MAX_RECORD {
        return Ok(());
    }
    match reach(&mut board.table, &board.ways, message.to) {
        Some((port, peer)) => post_on::<H, P>(ports, board, port, peer, message),
        None => post_anew::<H, P>(alloc, ports, board, message),
    }
}

/// Posts messages, in order.
pub(crate) fn post_all<H: Party, P: Ports>(
    alloc: Global,
    ports: &mut P,
    board: &mut Board,
    messages: &Messages,
) -> Result<(), Memory>
    ensures leaves { (desk : Desk H) (w : Work) → Leaves 0 H.Party
        (seen (P.opened ports.old) (P.told ports.old) desk board.old) (posting w messages.now)
        (seen (P.opened ports.new) (P.told ports.new) desk board.new) (posting w []) result }
    ensures listens { P.listens ports.new ≡ P.listens ports.old }
    ensures later { P.faults ports.old ≤ P.faults ports.new }
{
    for i in 0..messages.len() {
        post::<H, P>(alloc, ports, board, messages.get(i))?;
    }
    Ok(())
}
