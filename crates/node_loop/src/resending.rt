// What a party awaits answers to, once more.
ghost use Rattle.std.specs.Prelude.{◌≡◌, ◌≤◌, ◌++◌, ◌∷◌, [], ℕ, List, Option, IfOk, OnOk};
ghost use Rattle.std.specs.Ordering.{nat_cmp};
ghost use Rattle.std.specs.BTreeMap.{get};
ghost use Rattle.node_loop.specs.Nodes.{way_in};
ghost use Rattle.node_loop.specs.Points.{Leaves, calm, due_of, is_waited_for, open_at, resending, seen};
ghost use Rattle.port_loop.specs.Serving.{desk_at};

use crate::board::Board;
use crate::party::{Message, Messages, Party};
use crate::posting::post_all;
use osd_bytes::{Bytes, Memory, Node};
use port_loop::Ports;
use std::alloc::Global;

// Whether an answer of the node is under way.
fn is_waited_for(board: &Board, node: Node) -> bool
    ensures { result ≡ is_waited_for (open_at (way_in board.now.ways node) (get nat_cmp board.now.table)) }
{
    let port = match board.ways.of(node) {
        Some(port) => port,
        None => return false,
    };
    match board.table.get(&port) {
        Some(peer) => peer.is_awaited(),
        None => false,
    }
}

fn copied(alloc: Global, message: &Message) -> Result<Message, Memory>
    ensures { IfOk result (λ m. m ≡ message.now) }
{
    Ok(Message {
        to: message.to,
        bytes: Bytes::copied(alloc, message.bytes.as_slice())?,
    })
}

// Adds a message to those that are due, unless an answer of its node is under way.
fn push_due(
    alloc: Global,
    board: &Board,
    due: &mut Messages,
    message: &Message,
) -> Result<(), Memory>
    ensures { OnOk result (due.new ≡ due.old ++ due_of (get nat_cmp board.now.table) (way_in board.now.ways) (message.now ∷ [])) }
{
    if is_waited_for(board, message.to) {
        return Ok(());
    }
    due.push(copied(alloc, message)?)?;
    Ok(())
}

// The messages to nodes whose answers aren't under way.
fn due_of(alloc: Global, board: &Board, messages: &Messages) -> Result<Messages, Memory>
    ensures { IfOk result (λ due. due ≡ due_of (get nat_cmp board.now.table) (way_in board.now.ways) messages.now) }
{
    let mut due = Messages::new(alloc);
    for i in 0..messages.len() {
        push_due(alloc, board, &mut due, messages.get(i))?;
    }
    Ok(due)
}

/// Posts the messages to which the party awaits answers once more, but to nodes whose answers are under way.
pub(crate) fn resend<H: Party, P: Ports>(
    alloc: Global,
    party: &H,
    ports: &mut P,
    board: &mut Board,
) -> Result<(), Memory>
    ensures leaves { (times : Option (List ℕ)) → Leaves 0 H.Party
        (seen (P.opened ports.old) (P.told ports.old) (desk_at party.now times) board.old) resending
        (seen (P.opened ports.new) (P.told ports.new) (desk_at party.now times) board.new) calm result }
    ensures listens { P.listens ports.new ≡ P.listens ports.old }
    ensures later { P.faults ports.old ≤ P.faults ports.new }
{
    let messages = party.resend(alloc)?;
    let due = due_of(alloc, board, &messages)?;
    post_all::<H, P>(alloc, ports, board, &due)?;
    Ok(())
}
