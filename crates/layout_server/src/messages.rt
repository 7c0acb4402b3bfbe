ghost use Rattle.std.specs.Prelude.{◌≡◌, ◌↔◌, ℕ, List, IsTrue, IfOk, OnOk};
ghost use Rattle.server_rules.specs.Messages.{counters_have_room, handled};
ghost use Rattle.server_rules.specs.Envelopes.{on_bytes};
ghost use Rattle.server_rules.specs.Orders.{ordered, with_result};
ghost use Rattle.server_requests.specs.Reading.{message_rule};
ghost use Rattle.server_state.specs.States.{server_of, Did, HasRoom, IsGood};
ghost use Rattle.layout_server.specs.Orders.{Obeys};

use crate::lost_drives::order_declare;
use crate::orders::{Obeyed, order_job, order_recall};
use crate::replies::on_drive_reply;
use layout_ops::{Order, OrderAnswer, OrderKind};
use osd_lists::{Memory, Node};
use server_requests::{Message, Sends, message_in, send_order_answer};
use server_rules::{JobKind, MAX_CLIENT};
use server_state::{State, Step, on_request, only_sends};
use std::alloc::Global;
use stripe_repair::Place;

/// Obeys an order on a file, or on a drive that is declared, by the order's kind.
#[tactic(auto, unfolding(server_rules::specs::Orders::ordered))]
pub fn obey<P: Place>(
    alloc: Global,
    state: &mut State,
    kind: OrderKind,
    target: u32,
    placer: &P,
) -> Result<Obeyed, Memory>
    requires good { IsGood state.old }
    requires room { HasRoom (server_of state.old) }
    requires placer { P.is_placer placer.now }
    ensures obeys { IfOk result (λ o. (chosen : List ℕ)
        × Obeys o (server_of state.new) (ordered (server_of state.old) chosen kind target)) }
    ensures good { OnOk result (IsGood state.new) }
{
    match kind {
        OrderKind::Recall => order_recall(alloc, state, target),
        OrderKind::Revoke => order_job(alloc, state, target, JobKind::Revoking, placer),
        OrderKind::Declare => order_declare(alloc, state, target, placer),
        OrderKind::Rebuild => order_job(alloc, state, target, JobKind::Rebuilding, placer),
        OrderKind::Audit => order_job(alloc, state, target, JobKind::Auditing, placer),
    }
}

// Obeys an order, and answers who gave it.
fn obey_and_answer<P: Place>(
    alloc: Global,
    state: &mut State,
    order: Order,
    placer: &P,
) -> Result<Step, Memory>
    requires good { IsGood state.old }
    requires room { HasRoom (server_of state.old) }
    requires placer { P.is_placer placer.now }
    ensures did { IfOk result (λ out. (chosen : List ℕ) × Did out (server_of state.new)
        (with_result order.order (ordered (server_of state.old) chosen order.order order.target))) }
    ensures good { OnOk result (IsGood state.new) }
{
    let Obeyed { mut step, result } = obey(alloc, state, order.order, order.target, placer)?;
    let answer = OrderAnswer {
        order: order.order,
        result,
    };
    send_order_answer(alloc, &mut step.sends, answer)?;
    Ok(step)
}

// The step of a message, by who sent it. One that its sender doesn't send changes nothing.
fn handle<P: Place>(
    alloc: Global,
    state: &mut State,
    now: u64,
    from: Node,
    message: &Message,
    placer: &P,
) -> Result<Step, Memory>
    requires good { IsGood state.old }
    requires room { HasRoom (server_of state.old) }
    requires placer { P.is_placer placer.now }
    ensures did { IfOk result (λ out. (chosen : List ℕ) × Did out (server_of state.new)
        (handled (server_of state.old) now chosen from (message_rule message.now))) }
    ensures good { OnOk result (IsGood state.new) }
{
    match (from, message) {
        (Node::Client(client), Message::Asks(request))
            if request.client == client && client <= MAX_CLIENT => {
            on_request(alloc, state, now, request)
        }
        (Node::Drive(drive), Message::Replies(reply)) => {
            on_drive_reply(alloc, state, drive, reply, placer)
        }
        (Node::Server, Message::Orders(order)) => obey_and_answer(alloc, state, *order, placer),
        _ => Ok(only_sends(alloc, Sends::new(alloc))),
    }
}

/// The step of bytes from a node. Nothing changes if there is no message in them, or if the counters have no room:
/// `has_room` says whether they have.
#[tactic(auto, unfolding(server_rules::specs::Messages::on_message))]
pub fn hear<P: Place>(
    alloc: Global,
    state: &mut State,
    now: u64,
    from: Node,
    bytes: &[u8],
    placer: &P,
    has_room: bool,
) -> Result<Step, Memory>
    requires good { IsGood state.old }
    requires counters { has_room ≡ counters_have_room (server_of state.old) }
    requires room { IsTrue has_room ↔ HasRoom (server_of state.old) }
    requires placer { P.is_placer placer.now }
    ensures did { IfOk result (λ out. (chosen : List ℕ) × Did out (server_of state.new)
        (on_bytes (server_of state.old) now chosen from bytes.now)) }
    ensures good { OnOk result (IsGood state.new) }
{
    if !has_room {
        return Ok(only_sends(alloc, Sends::new(alloc)));
    }
    match message_in(alloc, from, bytes)? {
        Some(message) => handle(alloc, state, now, from, &message, placer),
        None => Ok(only_sends(alloc, Sends::new(alloc))),
    }
}
