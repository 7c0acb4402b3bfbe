// Replies of the drives.
ghost use Rattle.std.specs.Prelude.{◌≡◌, ◌++◌, ◌∷◌, [], find, IfOk, OnOk};
ghost use Rattle.client_rules.specs.Requests.{error_at, errno_of};
ghost use Rattle.client_rules.specs.Io.{awaited_in, got_of};
ghost use Rattle.client_rules.specs.Replies.{answers, refused, refused_report};
ghost use Rattle.call_commands.specs.Pending.{answering};
ghost use Rattle.call_io.specs.Phases.{phase_of, turn_of, counted_move, moved_of};
ghost use Rattle.call_io.specs.Inside.{IsInside};
ghost use Rattle.call_io.specs.Steps.{on_reply, refused_turn};
ghost use Rattle.call_io.specs.Heard.{answered, goes_on, heard_in, kept_in};

use crate::moves::{clipped_span, closing, without_sends};
use crate::phase::{CallMove, CallPhase, CallTurn};
use crate::probing::probes_on;
use crate::reading::reads_on;
use crate::writing::{gathers_on, scatters_next};
use call_commands::{count_sent, object_of};
use client_rules::{
    Awaited, AwaitedCommands, BAD_CHECK_VALUE, CallOp, EXPIRED, Held, LANE_FULL, NO_KEY, NO_OBJECT,
    NO_RIGHT, NO_SPACE, OTHER_OBJECT, OTHER_TAG, OUT_OF_RANGE, OVER_LIMIT, Outcome, PERFORMED,
};
use layout_types::{Errno, IoErr};
use osd_commands::Reply;
use osd_lists::{Memory, Sequence};
use std::alloc::Global;
use stripe_plan::{Ask, Column, Columns};

// What the reply to a READ gives; the bytes that it doesn't carry are 0.
fn column_of(awaited: &Awaited, reply: Reply) -> Result<Column, Memory>
    ensures { IfOk result (λ column. column ≡ got_of awaited.now reply) }
{
    let ask = awaited.ask;
    if ask.length > isize::MAX as u64 {
        return Err(Memory);
    }
    let mut bytes = reply.payload;
    bytes.truncate(ask.length as usize);
    bytes.grow(ask.length as usize)?;
    Ok(Column {
        position: ask.position,
        offset: ask.offset,
        bytes,
    })
}

/// What went wrong at a drive, by the verdict of its reply (`pnfs_osd_errno4`, RFC 5664 8.1).
#[tactic(auto, unfolding(client_rules::specs::Requests::errno_of))]
pub fn errno_of(verdict: u16) -> Errno
    ensures { result ≡ errno_of verdict }
{
    match verdict {
        NO_SPACE => Errno::NoSpace,
        NO_KEY | BAD_CHECK_VALUE => Errno::BadCred,
        EXPIRED | NO_RIGHT | OTHER_OBJECT | OUT_OF_RANGE => Errno::NoAccess,
        NO_OBJECT => Errno::NotFound,
        OVER_LIMIT | LANE_FULL => Errno::Resource,
        _ => Errno::Eio,
    }
}

/// An error at the object of a component, at the range of the command concerned (RFC 5664 8.2).
#[tactic(auto, unfolding(client_rules::specs::Requests::error_at))]
pub fn error_at(held: &Held, write: bool, ask: &Ask, errno: Errno) -> IoErr
    ensures { result ≡ error_at held.now write ask.now errno }
{
    IoErr {
        oer_component: object_of(held, ask.component),
        oer_comp_offset: ask.offset,
        oer_comp_length: ask.length,
        oer_iswrite: write,
        oer_errno: errno,
    }
}

// How a refused command ends the call: an object with another tag means that the grant is over, else it is returned.
fn refused_turn(awaited: &Awaited, reply: &Reply, report: Sequence<IoErr>) -> CallTurn
    ensures { turn_of result ≡ refused_turn awaited.now reply.now report }
{
    let outcome = Outcome::Refused {
        drive: awaited.drive,
        verdict: reply.verdict,
        detail: reply.detail,
    };
    if reply.verdict == OTHER_TAG {
        return CallTurn::Forgets { outcome };
    }
    closing(outcome, report)
}

// The refused command is reported where a WRITE was sent.
fn refused_report(
    alloc: Global,
    held: &Held,
    phase: &CallPhase,
    awaited: &Awaited,
    reply: &Reply,
) -> Result<Sequence<IoErr>, Memory>
    ensures { IfOk result (λ report. report ≡ refused_report held.now (phase_of phase.now) awaited.now reply.now) }
{
    let mut report = Sequence::new(alloc);
    if let CallPhase::Scatters { .. } = phase {
        let errno = errno_of(reply.verdict);
        report.push(error_at(held, awaited.write, &awaited.ask, errno))?;
    }
    Ok(report)
}

// A refused command ends the call.
#[tactic(auto, unfolding(client_rules::specs::Replies::refused))]
fn refused(
    alloc: Global,
    held: &Held,
    phase: &CallPhase,
    awaited: &Awaited,
    reply: &Reply,
) -> Result<CallMove, Memory>
    ensures { IfOk result (λ m. counted_move held.now m ≡ refused held.now (phase_of phase.now) awaited.now reply.now) }
{
    let report = refused_report(alloc, held, phase, awaited, reply)?;
    Ok(without_sends(alloc, refused_turn(awaited, reply, report)))
}

// Takes out the command that a reply with that nonce from that drive answers.
fn take(phase: &mut CallPhase, drive: u32, nonce: u64) -> Option<Awaited>
    ensures found { result ≡ find (answering drive nonce) (awaited_in (phase_of phase.old)) }
    ensures left { phase_of phase.new ≡ heard_in (phase_of phase.old) result }
{
    match phase {
        CallPhase::Reads { io } => io.pending.take(drive, nonce),
        CallPhase::Probes { io } => io.pending.take(drive, nonce),
        CallPhase::Gathers { io } => io.pending.take(drive, nonce),
        CallPhase::Scatters { io, .. } => io.pending.take(drive, nonce),
        _ => None,
    }
}

// Keeps what the reply to a READ gives.
fn keep_in(got: &mut Columns, awaited: &Awaited, reply: Reply) -> Result<(), Memory>
    ensures { OnOk result (got.new ≡ got.old ++ got_of awaited.now reply ∷ []) }
{
    got.push(column_of(awaited, reply)?)
}

// The same by the phase.
fn keep(phase: &mut CallPhase, awaited: &Awaited, reply: Reply) -> Result<(), Memory>
    ensures { OnOk result (phase_of phase.new ≡ kept_in (phase_of phase.old) awaited.now reply) }
{
    match phase {
        CallPhase::Reads { io } => keep_in(&mut io.got, awaited, reply),
        CallPhase::Probes { io } => keep_in(&mut io.got, awaited, reply),
        CallPhase::Gathers { io } => keep_in(&mut io.got, awaited, reply),
        _ => Ok(()),
    }
}

// It goes on, where that component answered.
fn goes_on(
    alloc: Global,
    held: &Held,
    op: &CallOp,
    phase: CallPhase,
    component: u32,
) -> Result<CallMove, Memory>
    requires { IsInside op.now }
    ensures { IfOk result (λ m. counted_move held.now m ≡ goes_on held.now op.now (phase_of phase) component) }
{
    let sent = AwaitedCommands::new(alloc);
    match phase {
        CallPhase::Reads { io } => reads_on(alloc, held, clipped_span(held, op), io, sent),
        CallPhase::Probes { io } => Ok(probes_on(alloc, held, io, sent)),
        CallPhase::Gathers { io } => gathers_on(alloc, held, op, io, sent),
        CallPhase::Scatters { io, queue } => scatters_next(alloc, held, op, io, queue, component),
        phase => Ok(without_sends(alloc, CallTurn::Goes { phase })),
    }
}

// The reply to a command that isn't awaited any more.
fn take_answer(
    alloc: Global,
    held: &Held,
    op: &CallOp,
    phase: CallPhase,
    awaited: &Awaited,
    reply: Reply,
) -> Result<CallMove, Memory>
    requires { IsInside op.now }
    ensures { IfOk result (λ m. counted_move held.now m ≡ answered held.now op.now (phase_of phase) awaited.now reply) }
{
    if reply.verdict != PERFORMED {
        return refused(alloc, held, &phase, awaited, &reply);
    }
    let mut phase = phase;
    keep(&mut phase, awaited, reply)?;
    goes_on(alloc, held, op, phase, awaited.ask.component)
}

// A reply, whether or not it is awaited.
fn reply_in(
    alloc: Global,
    held: &Held,
    op: &CallOp,
    phase: CallPhase,
    drive: u32,
    reply: Reply,
) -> Result<CallMove, Memory>
    requires { IsInside op.now }
    ensures { IfOk result (λ m. counted_move held.now m
        ≡ on_reply held.now op.now (phase_of phase) reply (find (answers drive reply) (awaited_in (phase_of phase)))) }
{
    let mut phase = phase;
    match take(&mut phase, drive, reply.nonce) {
        Some(awaited) => take_answer(alloc, held, op, phase, &awaited, reply),
        None => Ok(without_sends(alloc, CallTurn::Goes { phase })),
    }
}

/// A reply of a drive comes. Where no command that it answers is awaited, the call goes on as it was, and nothing is
/// sent.
///
/// # Errors
///
/// Want of memory alone, where the grant and the call are such as the rules of a client make them.
pub fn take_reply(
    alloc: Global,
    held: &mut Held,
    op: &CallOp,
    phase: CallPhase,
    drive: u32,
    reply: Reply,
) -> Result<CallMove, Memory>
    requires inside { IsInside op.now }
    ensures { IfOk result (λ m. moved_of held.new m
        ≡ on_reply held.old op.now (phase_of phase) reply (find (answers drive reply) (awaited_in (phase_of phase)))) }
{
    let moved = reply_in(alloc, held, op, phase, drive, reply)?;
    count_sent(held, &moved.sent)?;
    Ok(moved)
}
