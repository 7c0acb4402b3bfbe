// What becomes of a call in a step.
ghost use Rattle.std.specs.Prelude.{◌≡◌, Some, OnOk};
ghost use Rattle.call_io.specs.Phases.{turn_of, moved_of};
ghost use Rattle.client_rules.specs.Going.{over, by_turn, moved};
ghost use Rattle.held_grants.specs.Ranges.{AsksInFile};
ghost use Rattle.stripe_client.specs.States.{done_of};
ghost use Rattle.stripe_client.specs.Inside.{IsInside};

use crate::state::{Made, PendingCall, State};
use call_io::{CallMove, CallPhase, CallTurn};
use client_rules::{CallOp, Held, Outcome};
use held_grants::file_of;
use osd_lists::Memory;

/// The call comes to this phase.
pub fn go_on(state: &mut State, op: CallOp, phase: CallPhase)
    requires { AsksInFile op }
    ensures state { state.new ≡ record state.old { call = Some (record { op = op; phase = phase }) } }
    ensures inside { IsInside state.new }
{
    state.call = Some(PendingCall { op, phase });
}

/// The call ends.
pub fn end(state: &mut State, made: &mut Made, outcome: Outcome)
    ensures done { done_of state.new made.new ≡ over (done_of state.old made.old) outcome }
    ensures inside { IsInside state.new }
    ensures asked { made.new.asked ≡ made.old.asked }
{
    state.call = None;
    made.outcome = Some(outcome);
}

/// What becomes of the call.
pub fn turn(state: &mut State, made: &mut Made, op: CallOp, turn: CallTurn)
    requires { AsksInFile op }
    ensures done { done_of state.new made.new ≡ by_turn (done_of state.old made.old) op (turn_of turn) }
    ensures inside { IsInside state.new }
    ensures asked { made.new.asked ≡ made.old.asked }
{
    match turn {
        CallTurn::Goes { phase } => go_on(state, op, phase),
        CallTurn::Ends { outcome } => end(state, made, outcome),
        CallTurn::Forgets { outcome } => {
            state.held.take(file_of(&op));
            end(state, made, outcome);
        }
    }
}

/// What the call's dealings with the drives did, under the grant as they left it.
pub fn apply(
    state: &mut State,
    made: &mut Made,
    op: CallOp,
    held: Held,
    done: CallMove,
) -> Result<(), Memory>
    requires op { AsksInFile op }
    requires inside { IsInside state.old }
    ensures done { OnOk result (done_of state.new made.new
        ≡ moved (done_of state.old made.old) op (moved_of held done)) }
    ensures inside { IsInside state.new }
    ensures asked { made.new.asked ≡ made.old.asked }
{
    state.held.put(held)?;
    made.commands = done.sent;
    turn(state, made, op, done.turn);
    Ok(())
}
