// Replies of the drives, and drives that don't reply.
ghost use Rattle.std.specs.Prelude.{◌≡◌, IfOk, OnOk};
ghost use Rattle.osd_lists.specs.declared.node.Node.TheVariants as node;
ghost use Rattle.client_rules.specs.Messages.{hears, Replies};
ghost use Rattle.client_rules.specs.Steps.{times_out};
ghost use Rattle.held_grants.specs.Ranges.{AsksInFile};
ghost use Rattle.stripe_client.specs.Driving.{replied_call, timed_call, waits_call};
ghost use Rattle.stripe_client.specs.States.{call_of, client_of, done_of};
ghost use Rattle.stripe_client.specs.Sending.{IsStep};
ghost use Rattle.stripe_client.specs.Inside.{IsInside};

use crate::sending::CStep;
use crate::state::{Made, PendingCall, State};
use crate::stepping::{finish, quiet, still};
use crate::turning::{apply, go_on};
use call_io::{take_reply, timed_out};
use held_grants::file_of;
use osd_commands::Reply;
use osd_lists::Memory;
use std::alloc::Global;

// A reply to a command that the pending call awaits.
fn reply_to(
    state: &mut State,
    made: &mut Made,
    alloc: Global,
    call: PendingCall,
    drive: u32,
    reply: Reply,
) -> Result<(), Memory>
    requires op { AsksInFile call.op }
    requires inside { IsInside state.old }
    ensures done { OnOk result (done_of state.new made.new
        ≡ replied_call (done_of state.old made.old) (call_of call) drive reply) }
    ensures inside { IsInside state.new }
    ensures asked { made.new.asked ≡ made.old.asked }
{
    let PendingCall { op, phase } = call;
    match state.held.take(file_of(&op)) {
        Some(mut held) => {
            let done = take_reply(alloc, &mut held, &op, phase, drive, reply)?;
            apply(state, made, op, held, done)
        }
        None => {
            go_on(state, op, phase);
            Ok(())
        }
    }
}

// A component that doesn't answer the pending call.
fn time_out(
    state: &mut State,
    made: &mut Made,
    alloc: Global,
    call: PendingCall,
    component: u32,
) -> Result<(), Memory>
    requires op { AsksInFile call.op }
    requires inside { IsInside state.old }
    ensures done { OnOk result (done_of state.new made.new
        ≡ timed_call (done_of state.old made.old) (call_of call) component) }
    ensures inside { IsInside state.new }
    ensures asked { made.new.asked ≡ made.old.asked }
{
    let PendingCall { op, phase } = call;
    match state.held.take(file_of(&op)) {
        Some(mut held) => {
            let done = timed_out(alloc, &mut held, &op, phase, component)?;
            apply(state, made, op, held, done)
        }
        None => {
            go_on(state, op, phase);
            Ok(())
        }
    }
}

/// A reply of a drive, which is taken where a command with its nonce to that drive is awaited.
#[tactic(auto, unfolding(client_rules::specs::Messages::hears, client_rules::specs::Messages::takes))]
pub(crate) fn hear_reply(
    state: &mut State,
    alloc: Global,
    drive: u32,
    reply: Reply,
) -> Result<CStep, Memory>
    requires { IsInside state.old }
    ensures step { IfOk result (λ s. IsStep (hears (client_of state.old) (node.Drive drive) (Replies reply))
        (client_of state.new) s) }
    ensures inside { IsInside state.new }
{
    let is_awaited = match &state.call {
        Some(call) => call.phase.has(drive, reply.nonce),
        None => false,
    };
    if !is_awaited {
        return Ok(still(alloc));
    }
    let mut made = quiet(alloc);
    if let Some(call) = state.call.take() {
        reply_to(state, &mut made, alloc, call, drive, reply)?;
    }
    finish(state, alloc, made)
}

// Whether a command to a component is awaited, under a grant.
fn waits_for(state: &State, component: u32) -> bool
    ensures { result ≡ waits_call (client_of state.now) component (client_of state.now).call }
{
    match &state.call {
        Some(call) => match state.held.get(file_of(&call.op)) {
            Some(_) => call.phase.awaits_component(component),
            None => false,
        },
        None => false,
    }
}

/// A component that doesn't answer, where a command to it is awaited.
#[tactic(auto, unfolding(client_rules::specs::Steps::times_out), using(crate::proofs::Hearings::unwaited))]
pub(crate) fn hear_nothing(
    state: &mut State,
    alloc: Global,
    component: u32,
) -> Result<CStep, Memory>
    requires { IsInside state.old }
    ensures step { IfOk result (λ s. IsStep (times_out (client_of state.old) component) (client_of state.new) s) }
    ensures inside { IsInside state.new }
{
    if !waits_for(state, component) {
        return Ok(still(alloc));
    }
    let mut made = quiet(alloc);
    if let Some(call) = state.call.take() {
        time_out(state, &mut made, alloc, call, component)?;
    }
    finish(state, alloc, made)
}
