// A call begins where it can.
ghost use Rattle.std.specs.Prelude.{◌≡◌, OnOk};
ghost use Rattle.client_rules.specs.Calls.{file_of};
ghost use Rattle.client_rules.specs.Grants.{held_of};
ghost use Rattle.client_rules.specs.Going.{begun};
ghost use Rattle.held_grants.specs.Ranges.{AsksInFile};
ghost use Rattle.stripe_client.specs.Starting.{started, cover_of, Deals, starts};
ghost use Rattle.stripe_client.specs.States.{done_of};
ghost use Rattle.stripe_client.specs.Inside.{IsInside};

use crate::state::{Made, PendingCall, State};
use crate::turning::{apply, go_on};
use call_io::{CallPhase, begin_call};
use client_rules::{CallOp, Need};
use held_grants::{covers, file_of};
use osd_lists::Memory;
use std::alloc::Global;

// The call needs the server, and waits with that while a request is outstanding.
fn start_with(state: &mut State, op: CallOp, need: Need)
    requires { AsksInFile op }
    ensures state { state.new ≡ started state.old op need }
    ensures inside { IsInside state.new }
{
    if state.outstanding.is_none() {
        go_on(state, op, CallPhase::Needs { need });
    } else {
        go_on(state, op, CallPhase::Starts);
    }
}

// What the held grant is to a call.
#[derive(Clone, Copy)]
enum Cover {
    None,
    Other,
    Covers,
}

// Whether a grant is held of the call's file, and covers the call.
fn covering(state: &State, op: &CallOp) -> Cover
    requires { AsksInFile op.now }
    ensures { result ≡ cover_of op.now (held_of state.now.held (file_of op.now)) }
{
    match state.held.get(file_of(op)) {
        None => Cover::None,
        Some(held) if covers(held, op) => Cover::Covers,
        Some(_) => Cover::Other,
    }
}

// Deals with the drives under the grant that covers the call.
fn deal(state: &mut State, made: &mut Made, alloc: Global, op: CallOp) -> Result<(), Memory>
    requires op { AsksInFile op }
    requires inside { IsInside state.old }
    ensures done { OnOk result (Deals (done_of state.old made.old) op (held_of state.old.held (file_of op))
        (done_of state.new made.new)) }
    ensures inside { IsInside state.new }
    ensures asked { made.new.asked ≡ made.old.asked }
{
    match state.held.take(file_of(&op)) {
        Some(mut held) => {
            let moved = begin_call(alloc, &mut held, &op)?;
            apply(state, made, op, held, moved)
        }
        None => Ok(()),
    }
}

// A call that hasn't begun begins where its file's grant covers it, or needs the server.
fn start(state: &mut State, made: &mut Made, alloc: Global, op: CallOp) -> Result<(), Memory>
    requires op { AsksInFile op }
    requires inside { IsInside state.old }
    ensures done { OnOk result (done_of state.new made.new ≡ starts (done_of state.old made.old) op) }
    ensures inside { IsInside state.new }
    ensures asked { made.new.asked ≡ made.old.asked }
{
    match covering(state, &op) {
        Cover::None => start_with(state, op, Need::Get { tries: 0 }),
        Cover::Other => start_with(state, op, Need::First),
        Cover::Covers => return deal(state, made, alloc, op),
    }
    Ok(())
}

// A call that hasn't begun begins where it can.
#[tactic(auto, unfolding(client_rules::specs::Going::begun))]
pub(crate) fn begin(state: &mut State, made: &mut Made, alloc: Global) -> Result<(), Memory>
    requires { IsInside state.old }
    ensures done { OnOk result (done_of state.new made.new ≡ begun (done_of state.old made.old)) }
    ensures inside { IsInside state.new }
    ensures asked { made.new.asked ≡ made.old.asked }
{
    let PendingCall { op, phase } = match state.call.take() {
        Some(call) => call,
        None => return Ok(()),
    };
    match phase {
        CallPhase::Starts => start(state, made, alloc, op),
        phase => {
            go_on(state, op, phase);
            Ok(())
        }
    }
}
