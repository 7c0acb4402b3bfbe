// Drives that don't reply.
ghost use Rattle.std.specs.Prelude.{◌≡◌, IfOk, OnOk};
ghost use Rattle.call_io.specs.State.{Gathers as IsGathers, Scatters as IsScatters};
ghost use Rattle.client_rules.specs.declared.outcomes.Outcome.TheVariants.{Silent as IsSilent};
ghost use Rattle.client_rules.specs.Turns.{closing, turned};
ghost use Rattle.client_rules.specs.Requests.{report_of};
ghost use Rattle.client_rules.specs.Commands.{not_of, of_component};
ghost use Rattle.client_rules.specs.Io.{awaited_in, timed_with};
ghost use Rattle.call_commands.specs.Pending.{first_among};
ghost use Rattle.call_io.specs.Phases.{io_of, phase_of, counted_move, moved_of};
ghost use Rattle.call_io.specs.Inside.{IsInside};
ghost use Rattle.call_io.specs.Steps.{on_timeout};
ghost use Rattle.call_io.specs.Silence.{goes_without, out_in};

use crate::moves::{clipped_span, closing, without_sends};
use crate::phase::{CallIo, CallMove, CallPhase, CallTurn};
use crate::probing::probes;
use crate::reading::reads;
use crate::replies::error_at;
use crate::writing::{gathers, is_too_short, scatters_on};
use call_commands::{WriteQueue, count_sent, timed_with};
use client_rules::{AwaitedCommands, CallOp, Held, Outcome, TimedOut, TimedOuts};
use layout_types::{Errno, IoErr};
use osd_lists::{Memory, Sequence};
use std::alloc::Global;

/// The report of the components that timed out: each wasn't reached.
#[tactic(auto, unfolding(client_rules::specs::Requests::report_of))]
pub fn report_of(alloc: Global, held: &Held, timed: &TimedOuts) -> Result<Sequence<IoErr>, Memory>
    ensures { IfOk result (λ report. report ≡ report_of held.now timed.now) }
{
    let mut report = Sequence::new(alloc);
    for one in timed.as_slice() {
        report.push(error_at(held, one.write, &one.ask, Errno::Unreachable))?;
    }
    Ok(report)
}

// The first command to that component, of those that are awaited.
fn first_to(phase: &CallPhase, component: u32) -> Option<TimedOut>
    ensures { result ≡ first_among (of_component component (awaited_in (phase_of phase.now))) }
{
    match phase.pending() {
        Some(pending) => pending.first_to(component),
        None => None,
    }
}

// Its commands aren't awaited any more, and it is one of those that timed out.
fn put_out(alloc: Global, io: &mut CallIo, component: u32, first: TimedOut) -> Result<(), Memory>
    ensures pending { OnOk result (io.new.pending ≡ not_of component io.old.pending) }
    ensures got { OnOk result (io.new.got ≡ io.old.got) }
    ensures timed { OnOk result (io.new.timed ≡ timed_with first io.old.timed) }
{
    io.timed = timed_with(alloc, first, &io.timed)?;
    io.pending.drop_component(component);
    Ok(())
}

// The same by the phase.
fn put_out_in(
    alloc: Global,
    phase: &mut CallPhase,
    component: u32,
    first: TimedOut,
) -> Result<(), Memory>
    ensures { OnOk result (phase_of phase.new ≡ out_in (phase_of phase.old) component first) }
{
    match phase {
        CallPhase::Reads { io } => put_out(alloc, io, component, first),
        CallPhase::Probes { io } => put_out(alloc, io, component, first),
        CallPhase::Gathers { io } => put_out(alloc, io, component, first),
        CallPhase::Scatters { io, .. } => put_out(alloc, io, component, first),
        _ => Ok(()),
    }
}

// Before the first WRITE: where too much is out the call ends, and the grant stays.
fn gathers_without(
    alloc: Global,
    held: &Held,
    op: &CallOp,
    io: CallIo,
    component: u32,
) -> Result<CallMove, Memory>
    requires { IsInside op.now }
    ensures { IfOk result (λ m. counted_move held.now m ≡ goes_without held.now op.now (IsGathers (io_of io)) component) }
{
    if is_too_short(alloc, held, op, &io.timed)? {
        let outcome = Outcome::Silent { component };
        return Ok(without_sends(alloc, CallTurn::Ends { outcome }));
    }
    gathers(alloc, held, op, io)
}

// The grant is returned with a report.
fn return_with_report(
    alloc: Global,
    held: &Held,
    timed: &TimedOuts,
    component: u32,
) -> Result<CallMove, Memory>
    ensures { IfOk result
        (λ m. counted_move held.now m ≡ turned held.now (closing (IsSilent component) (report_of held.now timed.now))) }
{
    let report = report_of(alloc, held, timed)?;
    Ok(without_sends(alloc, closing(Outcome::Silent { component }, report)))
}

// After it: where too much is out the grant is returned with a report.
fn scatters_without(
    alloc: Global,
    held: &Held,
    op: &CallOp,
    io: CallIo,
    queue: WriteQueue,
    component: u32,
) -> Result<CallMove, Memory>
    requires { IsInside op.now }
    ensures { IfOk result (λ m. counted_move held.now m ≡ goes_without held.now op.now (IsScatters (io_of io) queue) component) }
{
    if is_too_short(alloc, held, op, &io.timed)? {
        return return_with_report(alloc, held, &io.timed, component);
    }
    let mut queue = queue;
    queue.drop_component(component);
    let CallIo { pending, timed, .. } = io;
    let sent = AwaitedCommands::new(alloc);
    Ok(scatters_on(alloc, held, op, timed, queue, sent, pending))
}

// It goes on without that component, by the phase.
fn go_on_without(
    alloc: Global,
    held: &Held,
    op: &CallOp,
    phase: CallPhase,
    component: u32,
) -> Result<CallMove, Memory>
    requires { IsInside op.now }
    ensures { IfOk result (λ m. counted_move held.now m ≡ goes_without held.now op.now (phase_of phase) component) }
{
    match phase {
        CallPhase::Reads { io } => reads(alloc, held, clipped_span(held, op), io),
        CallPhase::Probes { io } => probes(alloc, held, io),
        CallPhase::Gathers { io } => gathers_without(alloc, held, op, io, component),
        CallPhase::Scatters { io, queue } => {
            scatters_without(alloc, held, op, io, queue, component)
        }
        phase => Ok(without_sends(alloc, CallTurn::Goes { phase })),
    }
}

// A timeout, whether or not the component is awaited.
fn timeout_in(
    alloc: Global,
    held: &Held,
    op: &CallOp,
    phase: CallPhase,
    component: u32,
) -> Result<CallMove, Memory>
    requires { IsInside op.now }
    ensures { IfOk result (λ m. counted_move held.now m
        ≡ on_timeout held.now op.now (phase_of phase) component (of_component component (awaited_in (phase_of phase)))) }
{
    let mut phase = phase;
    match first_to(&phase, component) {
        Some(first) => {
            put_out_in(alloc, &mut phase, component, first)?;
            go_on_without(alloc, held, op, phase, component)
        }
        None => Ok(without_sends(alloc, CallTurn::Goes { phase })),
    }
}

/// A component doesn't answer. Where none of its commands is awaited, the call goes on as it was, and nothing is sent.
///
/// # Errors
///
/// Want of memory alone, where the grant and the call are such as the rules of a client make them.
pub fn timed_out(
    alloc: Global,
    held: &mut Held,
    op: &CallOp,
    phase: CallPhase,
    component: u32,
) -> Result<CallMove, Memory>
    requires inside { IsInside op.now }
    ensures { IfOk result (λ m. moved_of held.new m
        ≡ on_timeout held.old op.now (phase_of phase) component (of_component component (awaited_in (phase_of phase)))) }
{
    let moved = timeout_in(alloc, held, op, phase, component)?;
    count_sent(held, &moved.sent)?;
    Ok(moved)
}
