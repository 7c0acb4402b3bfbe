// Calls, leaving, and what a client waits for.
ghost use Rattle.std.specs.Prelude.{◌≡◌, IfOk};
ghost use Rattle.client_rules.specs.Messages.{awaited_of};
ghost use Rattle.client_rules.specs.Commands.{in_order};
ghost use Rattle.client_rules.specs.Steps.{is_bad_range, is_spent, writes_nothing, starts, leaves, resent, awaits, awaited_component};
ghost use Rattle.held_grants.specs.Ranges.{IsInFile, AsksInFile};
ghost use Rattle.stripe_client.specs.Calling.{refusal};
ghost use Rattle.stripe_client.specs.States.{client_of};
ghost use Rattle.stripe_client.specs.Sending.{IsStep, spelled};
ghost use Rattle.stripe_client.specs.Inside.{IsInside};

use crate::sending::{CStep, Sends, push_commands, push_request};
use crate::state::{PendingCall, State};
use crate::stepping::{finish, quiet, still};
use call_io::CallPhase;
use client_rules::{
    AwaitedCommands, Awaits, CallErr, CallOp, GREATEST_SEQUENCE, MAX_CALL, Outcome, SPARE_REQUESTS,
    is_write, span_of,
};
use data_map::MAX_FILE_SIZE;
use osd_lists::Memory;
use std::alloc::Global;
use stripe_plan::Span;

// Whether the range passes a limit.
fn is_bad_range(range: Span) -> bool
    ensures { result ≡ is_bad_range range }
{
    range.length > MAX_CALL || range.offset > MAX_FILE_SIZE - range.length
}

// Whether too few numbers are left behind the last one.
fn is_spent(next: u32) -> bool
    ensures { result ≡ is_spent next }
{
    next == 0 || next - 1 > GREATEST_SEQUENCE - SPARE_REQUESTS
}

// Why a call isn't taken: the first that holds.
pub(crate) fn refusal(state: &State, op: &CallOp) -> Option<CallErr>
    ensures { result ≡ refusal (client_of state.now) op.now }
{
    if state.call.is_some() {
        return Some(CallErr::Busy);
    }
    if is_bad_range(span_of(op)) {
        return Some(CallErr::BadRange);
    }
    if is_spent(state.next) {
        return Some(CallErr::SlotSpent);
    }
    None
}

// A write of no byte is over at once; any other call is pending, and begins where it can.
pub(crate) fn start(state: &mut State, alloc: Global, op: CallOp) -> Result<CStep, Memory>
    requires op { AsksInFile op }
    requires inside { IsInside state.old }
    ensures step { IfOk result (λ s. IsStep (starts (client_of state.old) op) (client_of state.new) s) }
    ensures inside { IsInside state.new }
{
    if is_write(&op) && span_of(&op).length == 0 {
        let mut step = still(alloc);
        step.outcome = Some(Outcome::WriteOk { length: 0 });
        return Ok(step);
    }
    let phase = CallPhase::Starts;
    state.call = Some(PendingCall { op, phase });
    finish(state, alloc, quiet(alloc))
}

// An idle client returns its grants.
#[tactic(auto, unfolding(client_rules::specs::Steps::leaves))]
pub(crate) fn leave(state: &mut State, alloc: Global) -> Result<CStep, Memory>
    requires { IsInside state.old }
    ensures step { IfOk result (λ s. IsStep (leaves (client_of state.old)) (client_of state.new) s) }
    ensures inside { IsInside state.new }
{
    state.held.make_due(&mut state.due)?;
    finish(state, alloc, quiet(alloc))
}

// The awaited commands by stripe, component and offset.
#[tactic(auto, unfolding(client_rules::specs::Commands::in_order))]
fn awaited_in_order(state: &State, alloc: Global) -> Result<AwaitedCommands, Memory>
    ensures { IfOk result (λ xs. xs ≡ in_order (awaited_of (client_of state.now).call)) }
{
    match &state.call {
        Some(call) => call.phase.in_order(alloc),
        None => Ok(AwaitedCommands::new(alloc)),
    }
}

// The same messages once more.
#[tactic(auto, unfolding(client_rules::specs::Steps::resent), using(crate::proofs::Resending::resent_bytes))]
pub(crate) fn resend(state: &State, alloc: Global) -> Result<Sends, Memory>
    ensures { IfOk result (λ sends. sends ≡ spelled (resent (client_of state.now))) }
{
    let mut sends = Sends::new(alloc);
    push_request(&mut sends, alloc, &state.outstanding)?;
    let commands = awaited_in_order(state, alloc)?;
    push_commands(&mut sends, alloc, commands.as_slice())?;
    Ok(sends)
}

// Whose answer is awaited.
#[tactic(auto, unfolding(client_rules::specs::Steps::awaits))]
pub(crate) fn awaits(state: &State) -> Awaits
    ensures { result ≡ awaits (client_of state.now) }
{
    let lowest = match &state.call {
        Some(call) => call.phase.lowest_awaited(),
        None => None,
    };
    match lowest {
        Some(component) => Awaits::Drive { component },
        None if state.outstanding.is_none() => Awaits::Nothing,
        None => Awaits::Server,
    }
}

// The component of the awaited command with that nonce.
#[tactic(auto, unfolding(client_rules::specs::Steps::awaited_component))]
pub(crate) fn awaited(state: &State, nonce: u64) -> Option<u32>
    ensures { result ≡ awaited_component (client_of state.now) nonce }
{
    match &state.call {
        Some(call) => call.phase.awaited_component(nonce),
        None => None,
    }
}
