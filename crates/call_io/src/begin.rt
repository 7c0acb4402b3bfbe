// The begin of a call.
ghost use Rattle.std.specs.Prelude.{◌≡◌, [], IfOk};
ghost use Rattle.client_rules.specs.Going.{begins};
ghost use Rattle.call_io.specs.Phases.{counted_move, moved_of};
ghost use Rattle.call_io.specs.Inside.{IsInside};

use crate::moves::clipped_span;
use crate::phase::{CallIo, CallMove};
use crate::probing::probes;
use crate::reading::reads;
use crate::writing::gathers;
use call_commands::{PendingCommands, count_sent};
use client_rules::{CallOp, Held, TimedOuts, is_write};
use osd_lists::Memory;
use std::alloc::Global;
use stripe_plan::Columns;

// A call that has had nothing to do with the drives yet.
fn new_io(alloc: Global) -> CallIo
    ensures pending { result.pending ≡ [] }
    ensures got { result.got ≡ [] }
    ensures timed { result.timed ≡ [] }
{
    CallIo {
        pending: PendingCommands::new(alloc),
        got: Columns::new(alloc),
        timed: TimedOuts::new(alloc),
    }
}

// What a call begins with.
#[tactic(auto, unfolding(client_rules::specs::Going::begins))]
fn begin_with(alloc: Global, held: &Held, op: &CallOp) -> Result<CallMove, Memory>
    requires { IsInside op.now }
    ensures { IfOk result (λ m. counted_move held.now m ≡ begins held.now op.now) }
{
    let io = new_io(alloc);
    if is_write(op) {
        return gathers(alloc, held, op, io);
    }
    let range = clipped_span(held, op);
    if range.length == 0 {
        return probes(alloc, held, io);
    }
    reads(alloc, held, range, io)
}

/// A call begins under a grant that covers it: a write gathers, and a read reads, or probes where it has no byte below
/// the size.
///
/// # Errors
///
/// Want of memory alone, where the grant and the call are such as the rules of a client make them.
pub fn begin_call(alloc: Global, held: &mut Held, op: &CallOp) -> Result<CallMove, Memory>
    requires inside { IsInside op.now }
    ensures { IfOk result (λ m. moved_of held.new m ≡ begins held.old op.now) }
{
    let moved = begin_with(alloc, held, op)?;
    count_sent(held, &moved.sent)?;
    Ok(moved)
}
