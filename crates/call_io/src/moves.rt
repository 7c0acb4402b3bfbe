// What becomes of a call.
ghost use Rattle.std.specs.Prelude.{◌≡◌, ◌+◌, ◌≤◌, [], IfOk};
ghost use Rattle.data_map.specs.declared.ranges.TheConstants.{MAX_FILE_SIZE};
ghost use Rattle.call_io.specs.State.{Outcome as AnOutcome};
ghost use Rattle.client_rules.specs.Turns.{turned, ended, closing};
ghost use Rattle.client_rules.specs.Calls.{span_of};
ghost use Rattle.client_rules.specs.Grants.{clipped};
ghost use Rattle.client_rules.specs.Writes.{accounted, is_past_size, written};
ghost use Rattle.call_io.specs.Phases.{turn_of};
ghost use Rattle.call_io.specs.Inside.{IsInside};

use crate::phase::{CallMove, CallPhase, CallTurn};
use client_rules::{AwaitedCommands, CallOp, Held, Need, Outcome, TimedOuts, span_of};
use layout_types::IoErr;
use osd_lists::Sequence;
use std::alloc::Global;
use stripe_plan::Span;

/// The range of a call as far as it lies below the size of the file.
pub fn clipped_span(held: &Held, op: &CallOp) -> Span
    requires { IsInside op.now }
    ensures value { result ≡ clipped held.now.size (span_of op.now) }
    ensures inside { result.offset + result.length ≤ MAX_FILE_SIZE }
{
    let range = span_of(op);
    Span {
        offset: range.offset,
        length: (range.offset + range.length)
            .min(held.size)
            .saturating_sub(range.offset),
    }
}

// Nothing goes to a drive.
pub fn without_sends(alloc: Global, turn: CallTurn) -> CallMove
    ensures turn { result.turn ≡ turn }
    ensures sent { result.sent ≡ [] }
{
    CallMove {
        turn,
        sent: AwaitedCommands::new(alloc),
    }
}

// The grant goes back with a report, and then the call ends.
pub fn closing(outcome: Outcome, report: Sequence<IoErr>) -> CallTurn
    ensures { turn_of result ≡ closing outcome report }
{
    CallTurn::Goes {
        phase: CallPhase::Needs {
            need: Need::Close { outcome, report },
        },
    }
}

/// What becomes of a write whose bytes are written and whose size the server knows: the components that timed out are
/// reported, and with none the write is over.
pub fn end_or_report(op: &CallOp, timed: TimedOuts) -> CallTurn
    ensures { turn_of result ≡ accounted op.now timed }
{
    if timed.is_empty() {
        return CallTurn::Ends {
            outcome: Outcome::WriteOk {
                length: span_of(op).length,
            },
        };
    }
    CallTurn::Goes {
        phase: CallPhase::Needs {
            need: Need::Report { timed },
        },
    }
}

// What becomes of a write after the last WRITE: where it passes the size it is committed first.
#[tactic(auto, unfolding(client_rules::specs::Writes::written))]
pub fn written(held: &Held, op: &CallOp, timed: TimedOuts) -> CallTurn
    requires { IsInside op.now }
    ensures { turn_of result ≡ written held.now op.now timed }
{
    let range = span_of(op);
    if held.size < range.offset + range.length {
        return CallTurn::Goes {
            phase: CallPhase::Needs {
                need: Need::Commit { timed },
            },
        };
    }
    end_or_report(op, timed)
}
