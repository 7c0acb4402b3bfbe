// A request goes out, where none is outstanding.
ghost use Rattle.std.specs.Prelude.{◌≡◌, IfOk, OnOk};
ghost use Rattle.client_rules.specs.Calls.{file_of};
ghost use Rattle.client_rules.specs.Grants.{held_of};
ghost use Rattle.layout_ops.specs.Spelling.{ArgsWritable};
ghost use Rattle.client_rules.specs.Requests.{args_of, return_args};
ghost use Rattle.client_rules.specs.Going.{after_number, requests, returns_due, progressed};
ghost use Rattle.held_grants.specs.Ranges.{AsksInFile};
ghost use Rattle.stripe_client.specs.Asking.{needed, asks, progresses};
ghost use Rattle.stripe_client.specs.States.{call_of, done_of};
ghost use Rattle.stripe_client.specs.Inside.{IsInside, HasNotAsked};

use crate::outstanding::Outstanding;
use crate::state::{Made, PendingCall, State};
use crate::turning::go_on;
use call_io::{CallPhase, report_of};
use client_rules::{CallOp, GREATEST_SEQUENCE, Held, Need};
use held_grants::{HeldGrants, commit_args, file_of, get_args, return_args, take_due};
use layout_ops::{Args, Operation, Request};
use layout_types::{IoErr, MAX_MEMBERS};
use osd_lists::{Memory, Sequence};
use std::alloc::Global;

// The number behind one; none is behind the last.
fn after_number(number: u32) -> u32
    ensures { result ≡ after_number number }
{
    if number == GREATEST_SEQUENCE {
        0
    } else {
        number + 1
    }
}

// Sends a request with the next number. A grant is held until its return is sent.
#[tactic(auto, unfolding(client_rules::specs::Going::requests))]
fn request(state: &mut State, made: &mut Made, file: u32, args: Args)
    requires args { ArgsWritable args }
    requires asked { HasNotAsked made.old }
    requires inside { IsInside state.old }
    ensures done { done_of state.new made.new ≡ requests (done_of state.old made.old) file args }
    ensures inside { IsInside state.new }
{
    if args.operation() == Operation::LayoutReturn {
        state.held.take(file);
    }
    state.outstanding = Outstanding::of(Request {
        client: state.number,
        sequence: state.next,
        file,
        args,
    });
    state.next = after_number(state.next);
    made.asked = true;
}

// A return with a report. One of more than MAX_MEMBERS errors would have no body: no call makes such.
fn return_with(alloc: Global, grant: u32, report: Sequence<IoErr>) -> Result<Args, Memory>
    ensures value { IfOk result (λ a. a ≡ return_args grant report) }
    ensures writable { IfOk result ArgsWritable }
{
    if report.len() > MAX_MEMBERS as usize {
        return Err(Memory);
    }
    return_args(alloc, grant, report)
}

// What a call needs of the server under its grant.
#[tactic(auto, unfolding(client_rules::specs::Requests::args_of))]
fn args_of(alloc: Global, held: &Held, op: &CallOp, need: &Need) -> Result<Args, Memory>
    requires { AsksInFile op.now }
    ensures value { IfOk result (λ a. a ≡ args_of held.now op.now need.now) }
    ensures writable { IfOk result ArgsWritable }
{
    match need {
        Need::First => return_with(alloc, held.number, Sequence::new(alloc)),
        Need::Get { .. } => Ok(get_args(op)),
        Need::Commit { .. } => commit_args(alloc, held.number, op),
        Need::Report { timed } => {
            let report = report_of(alloc, held, timed)?;
            return_with(alloc, held.number, report)
        }
        Need::Close { report, .. } => {
            let report = Sequence::copied(alloc, report.as_slice())?;
            return_with(alloc, held.number, report)
        }
    }
}

// The same where it may hold no grant: there is a LAYOUTGET to send, and nothing else.
fn needed(alloc: Global, held: &HeldGrants, op: &CallOp, need: &Need) -> Result<Args, Memory>
    requires { AsksInFile op.now }
    ensures value { IfOk result (λ a. a ≡ needed (held_of held.now (file_of op.now)) op.now need.now) }
    ensures writable { IfOk result ArgsWritable }
{
    match held.get(file_of(op)) {
        Some(held) => args_of(alloc, held, op, need),
        None => Ok(get_args(op)),
    }
}

// The call's request goes out, and the call waits.
fn ask(
    state: &mut State,
    made: &mut Made,
    alloc: Global,
    op: CallOp,
    need: Need,
) -> Result<(), Memory>
    requires op { AsksInFile op }
    requires asked { HasNotAsked made.old }
    requires inside { IsInside state.old }
    ensures done { OnOk result (done_of state.new made.new ≡ asks (done_of state.old made.old) op need) }
    ensures inside { IsInside state.new }
{
    let file = file_of(&op);
    let args = needed(alloc, &state.held, &op, &need)?;
    go_on(state, op, CallPhase::Waits { need });
    request(state, made, file, args);
    Ok(())
}

// Returns the first grant that is due and still held, where a sequence number is left.
#[tactic(auto, unfolding(client_rules::specs::Going::returns_due))]
fn return_due(state: &mut State, made: &mut Made, alloc: Global) -> Result<(), Memory>
    requires asked { HasNotAsked made.old }
    requires inside { IsInside state.old }
    ensures done { OnOk result (done_of state.new made.new ≡ returns_due (done_of state.old made.old)) }
    ensures inside { IsInside state.new }
{
    if state.next == 0 {
        return Ok(());
    }
    if let Some(due) = take_due(alloc, &mut state.due, &state.held)? {
        let args = return_args(alloc, due.number, Sequence::new(alloc))?;
        request(state, made, due.file, args);
    }
    Ok(())
}

// What the pending call needs goes out, if it needs something.
fn progress_call(
    state: &mut State,
    made: &mut Made,
    alloc: Global,
    call: PendingCall,
) -> Result<(), Memory>
    requires op { AsksInFile call.op }
    requires asked { HasNotAsked made.old }
    requires inside { IsInside state.old }
    ensures done { OnOk result (done_of state.new made.new ≡ progresses (done_of state.old made.old) (call_of call)) }
    ensures inside { IsInside state.new }
{
    let PendingCall { op, phase } = call;
    match phase {
        CallPhase::Needs { need } => ask(state, made, alloc, op, need),
        phase => {
            go_on(state, op, phase);
            Ok(())
        }
    }
}

/// A request goes out, where none is outstanding.
#[tactic(auto, unfolding(client_rules::specs::Going::progressed))]
pub fn progress(state: &mut State, made: &mut Made, alloc: Global) -> Result<(), Memory>
    requires asked { HasNotAsked made.old }
    requires inside { IsInside state.old }
    ensures done { OnOk result (done_of state.new made.new ≡ progressed (done_of state.old made.old)) }
    ensures inside { IsInside state.new }
{
    if !state.outstanding.is_none() {
        return Ok(());
    }
    match state.call.take() {
        Some(call) => progress_call(state, made, alloc, call),
        None => return_due(state, made, alloc),
    }
}
