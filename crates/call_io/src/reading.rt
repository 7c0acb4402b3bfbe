// Reads: what a read asks of the drives, and how it ends.
ghost use Rattle.std.specs.Prelude.{◌≡◌, ◌+◌, ◌<◌, ◌≤◌, length, slice_get, slice_set, Some, IfOk};
ghost use Rattle.stripe_plan.specs.Plans.{columns_of};
ghost use Rattle.stripe_plan.specs.Words.{answered};
ghost use Rattle.client_rules.specs.Io.{outs};
ghost use Rattle.client_rules.specs.Reads.{reads_on, reads_due, reads_sent, reads};
ghost use Rattle.call_io.specs.Phases.{counted_move};
ghost use Rattle.call_io.specs.Emptied.{no_column};

use crate::moves::without_sends;
use crate::phase::{CallIo, CallMove, CallPhase, CallTurn};
use crate::sending::send_reads;
use call_commands::{had, out_of};
use client_rules::{AwaitedCommands, Held, Outcome, TimedOuts};
use data_map::{DataMap, MAX_FILE_SIZE};
use osd_lists::{Bytes, Memory};
use std::alloc::Global;
use std::mem;
use stripe_plan::{
    Aim, Asks, Column, Columns, Fetched, Out, Part, PlanErr, Span, asks, assemble, check_readable,
};

// Nothing that was read.
fn no_column(alloc: Global) -> Column
    ensures { result ≡ no_column }
{
    Column {
        position: 0,
        offset: 0,
        bytes: Bytes::new(alloc),
    }
}

// What was read by one command, for which nothing is left.
fn take_column(alloc: Global, got: &mut Columns, i: usize) -> Column
    requires { i < length got.old }
    ensures taken { slice_get got.old i ≡ Some result }
    ensures left { got.new ≡ slice_set got.old i no_column }
{
    mem::replace(got.get_mut(i), no_column(alloc))
}

// What was read of positions, as if of their first components. There is no such position where a reply came.
pub fn fetched(alloc: Global, map: &DataMap, got: Columns) -> Result<Fetched, Memory>
    ensures { IfOk result (λ parts. columns_of map.now parts ≡ got) }
{
    let mut left = got;
    let mut parts = Fetched::new(alloc);
    for i in 0..left.len() {
        let column = take_column(alloc, &mut left, i);
        if column.position >= map.positions() {
            return Err(Memory);
        }
        parts.push(Part {
            component: map.replica(column.position, 0),
            offset: column.offset,
            bytes: column.bytes,
        })?;
    }
    Ok(parts)
}

// The bytes of a range, of which all that it needs was read.
fn assembled(
    alloc: Global,
    held: &Held,
    range: Span,
    got: Columns,
    timed: &TimedOuts,
) -> Result<Bytes, Memory>
    requires inside { range.offset + range.length ≤ MAX_FILE_SIZE }
    ensures { IfOk result (λ bytes. bytes ≡ answered held.now.map range got (outs held.now timed.now)) }
{
    let out = out_of(alloc, held, timed)?;
    let parts = fetched(alloc, &held.map, got)?;
    match assemble(alloc, &held.map, range.offset, range.length, &parts, &out) {
        Ok(bytes) => Ok(bytes),
        Err(_) => Err(Memory),
    }
}

// A read goes on while a reply is awaited; then its bytes are put together.
pub fn reads_on(
    alloc: Global,
    held: &Held,
    range: Span,
    io: CallIo,
    sent: AwaitedCommands,
) -> Result<CallMove, Memory>
    requires inside { range.offset + range.length ≤ MAX_FILE_SIZE }
    ensures { IfOk result (λ m. counted_move held.now m ≡ reads_on held.now range io.got io.timed sent io.pending) }
{
    if !io.pending.is_empty() {
        return Ok(CallMove {
            turn: CallTurn::Goes {
                phase: CallPhase::Reads { io },
            },
            sent,
        });
    }
    let CallIo { got, timed, .. } = io;
    let bytes = assembled(alloc, held, range, got, &timed)?;
    Ok(CallMove {
        turn: CallTurn::Ends {
            outcome: Outcome::ReadOk { bytes },
        },
        sent,
    })
}

// What the plan asks and isn't had.
fn due(alloc: Global, held: &Held, range: Span, io: &CallIo, out: &Out) -> Result<Asks, Memory>
    requires inside { range.offset + range.length ≤ MAX_FILE_SIZE }
    requires out { out.now.components ≡ outs held.now io.now.timed }
    ensures { IfOk result (λ xs. xs ≡ reads_due held.now range io.now.got io.now.timed io.now.pending) }
{
    let had = had(alloc, io.got.as_slice(), &io.pending)?;
    asks(alloc, Aim::Reads, &held.map, range, out, had.as_slice())
}

// It is sent.
fn reads_sent(
    alloc: Global,
    held: &Held,
    range: Span,
    io: CallIo,
    out: &Out,
) -> Result<CallMove, Memory>
    requires inside { range.offset + range.length ≤ MAX_FILE_SIZE }
    requires out { out.now.components ≡ outs held.now io.timed }
    ensures { IfOk result (λ m. counted_move held.now m
        ≡ reads_sent held.now range io.got io.timed io.pending (reads_due held.now range io.got io.timed io.pending)) }
{
    let mut io = io;
    let due = due(alloc, held, range, &io, out)?;
    let sent = send_reads(alloc, held, &mut io.pending, due)?;
    reads_on(alloc, held, range, io, sent)
}

// A read at its begin, and where a component timed out.
#[tactic(auto, unfolding(client_rules::specs::Reads::reads))]
pub fn reads(alloc: Global, held: &Held, range: Span, io: CallIo) -> Result<CallMove, Memory>
    requires inside { range.offset + range.length ≤ MAX_FILE_SIZE }
    ensures { IfOk result (λ m. counted_move held.now m ≡ reads held.now range io.got io.timed io.pending) }
{
    let out = out_of(alloc, held, &io.timed)?;
    match check_readable(alloc, &held.map, range, &out) {
        Ok(()) => reads_sent(alloc, held, range, io, &out),
        Err(PlanErr::TooManyLost { positions }) => Ok(without_sends(
            alloc,
            CallTurn::Ends {
                outcome: Outcome::Lost { positions },
            },
        )),
        Err(PlanErr::Memory) => Err(Memory),
    }
}
