// The server's answers to a call's requests.
ghost use Rattle.std.specs.Prelude.{◌≡◌, IfOk, OnOk};
ghost use Rattle.call_io.specs.Phases.{turn_of, moved_of};
ghost use Rattle.client_rules.specs.Results.{status_of};
ghost use Rattle.client_rules.specs.Answers.{busy, refused_with, not_granted, is_loss_taken, on_report, not_committed, on_commit};
ghost use Rattle.client_rules.specs.Going.{over};
ghost use Rattle.client_rules.specs.Messages.{on_get, on_need};
ghost use Rattle.held_grants.specs.Ranges.{AsksInFile};
ghost use Rattle.stripe_client.specs.Answering.{commits, answers_need};
ghost use Rattle.stripe_client.specs.States.{done_of};
ghost use Rattle.stripe_client.specs.Inside.{IsInside};

use crate::state::{Made, State};
use crate::turning::{apply, end, go_on, turn};
use call_io::{CallMove, CallPhase, CallTurn, end_or_report};
use client_rules::{
    AwaitedCommands, CallOp, Held, LOSS_TAKEN, MAX_TRIES, NO_COMPONENT, Need, Outcome, TimedOuts,
    span_of,
};
use held_grants::{file_of, grant_from};
use layout_ops::{
    Answer, LayoutCommitResult, LayoutGetResult, LayoutReturnResult, NFS4_OK, NFS4ERR_BADLAYOUT,
    NFS4ERR_LAYOUTTRYLATER, NFS4ERR_LAYOUTUNAVAILABLE, NFS4ERR_NOENT, NFS4ERR_RECALLCONFLICT,
    Results,
};
use osd_lists::Memory;
use std::alloc::Global;

/// The status of an answer, whichever operation it answers.
pub fn status_of(results: &Results) -> u32
    ensures { result ≡ status_of results.now }
{
    match results {
        Results::LayoutGet(LayoutGetResult::Granted(_)) => NFS4_OK,
        Results::LayoutGet(LayoutGetResult::TryLater { .. }) => NFS4ERR_LAYOUTTRYLATER,
        Results::LayoutGet(LayoutGetResult::Refused { status }) => *status,
        Results::LayoutCommit(LayoutCommitResult::Committed { .. }) => NFS4_OK,
        Results::LayoutCommit(LayoutCommitResult::Refused { status }) => *status,
        Results::LayoutReturn(LayoutReturnResult::Returned { .. }) => NFS4_OK,
        Results::LayoutReturn(LayoutReturnResult::Refused { status }) => *status,
    }
}

// Asked again at once, unless this was the last time.
#[tactic(auto, unfolding(client_rules::specs::Answers::busy))]
fn busy(tries: u32, outcome: Outcome) -> CallTurn
    ensures { turn_of result ≡ busy tries outcome }
{
    if u64::from(tries) + 1 < u64::from(MAX_TRIES) {
        let need = Need::Get { tries: tries + 1 };
        return CallTurn::Goes {
            phase: CallPhase::Needs { need },
        };
    }
    CallTurn::Ends { outcome }
}

// What becomes of a call that got no layout.
fn refused_with(status: u32, detail: u32, tries: u32) -> CallTurn
    ensures { turn_of result ≡ refused_with status detail tries }
{
    let outcome = match status {
        NFS4ERR_NOENT => Outcome::NoFile,
        NFS4ERR_LAYOUTTRYLATER => return busy(tries, Outcome::Held { client: detail }),
        NFS4ERR_RECALLCONFLICT => return busy(tries, Outcome::Fencing { component: detail }),
        NFS4ERR_LAYOUTUNAVAILABLE if detail == NO_COMPONENT => Outcome::Spent,
        NFS4ERR_LAYOUTUNAVAILABLE => Outcome::Degraded { component: detail },
        _ => Outcome::Status { status, detail },
    };
    CallTurn::Ends { outcome }
}

// What becomes of a call whose size wasn't taken: BADLAYOUT says that the grant is over.
#[tactic(auto, unfolding(client_rules::specs::Answers::not_committed))]
fn not_committed(status: u32, detail: u32) -> CallTurn
    ensures { turn_of result ≡ not_committed status detail }
{
    let outcome = Outcome::Status { status, detail };
    if status == NFS4ERR_BADLAYOUT {
        CallTurn::Forgets { outcome }
    } else {
        CallTurn::Ends { outcome }
    }
}

// The answer to a LAYOUTCOMMIT: the new size is known, and the write goes on.
#[tactic(auto, unfolding(client_rules::specs::Answers::on_commit))]
fn commit(
    alloc: Global,
    held: &mut Held,
    op: &CallOp,
    answer: &Answer,
    timed: TimedOuts,
) -> CallMove
    ensures { moved_of held.new result ≡ on_commit held.old op.now answer.now timed }
{
    let status = status_of(&answer.results);
    let turn = if status == NFS4_OK {
        held.size = answer.size;
        end_or_report(op, timed)
    } else {
        not_committed(status, answer.detail)
    };
    CallMove {
        turn,
        sent: AwaitedCommands::new(alloc),
    }
}

// The answer to a LAYOUTRETURN with a report: the write is acknowledged where the loss was taken.
#[tactic(auto, unfolding(client_rules::specs::Answers::on_report))]
fn reported(op: &CallOp, answer: &Answer, timed: &TimedOuts) -> Outcome
    ensures { result ≡ on_report op.now answer.now timed.now }
{
    if status_of(&answer.results) == NFS4_OK && answer.detail == LOSS_TAKEN {
        return Outcome::WriteOk {
            length: span_of(op).length,
        };
    }
    match timed.as_slice().first() {
        Some(first) => Outcome::Silent {
            component: first.ask.component,
        },
        None => Outcome::Silent { component: 0 },
    }
}

// The answer to a LAYOUTGET.
#[tactic(auto, unfolding(client_rules::specs::Answers::not_granted))]
fn on_get(
    state: &mut State,
    made: &mut Made,
    alloc: Global,
    op: CallOp,
    tries: u32,
    answer: &Answer,
) -> Result<(), Memory>
    requires op { AsksInFile op }
    requires inside { IsInside state.old }
    ensures done { OnOk result (done_of state.new made.new ≡ on_get (done_of state.old made.old) op tries answer.now) }
    ensures inside { IsInside state.new }
    ensures asked { made.new.asked ≡ made.old.asked }
{
    let status = status_of(&answer.results);
    if status != NFS4_OK {
        turn(state, made, op, refused_with(status, answer.detail, tries));
        return Ok(());
    }
    match grant_from(alloc, answer, &op)? {
        Ok(held) => {
            state.held.put(held)?;
            go_on(state, op, CallPhase::Starts);
        }
        Err(why) => end(state, made, Outcome::BadLayout { why }),
    }
    Ok(())
}

// The answer to a LAYOUTCOMMIT, under the call's grant.
fn on_commit(
    state: &mut State,
    made: &mut Made,
    alloc: Global,
    op: CallOp,
    timed: TimedOuts,
    answer: &Answer,
) -> Result<(), Memory>
    requires op { AsksInFile op }
    requires inside { IsInside state.old }
    ensures done { OnOk result (done_of state.new made.new ≡ commits (done_of state.old made.old) op answer.now timed) }
    ensures inside { IsInside state.new }
    ensures asked { made.new.asked ≡ made.old.asked }
{
    match state.held.take(file_of(&op)) {
        Some(mut held) => {
            let moved = commit(alloc, &mut held, &op, answer, timed);
            apply(state, made, op, held, moved)
        }
        None => {
            let need = Need::Commit { timed };
            go_on(state, op, CallPhase::Waits { need });
            Ok(())
        }
    }
}

// The answer that a call waits for.
pub(crate) fn on_need(
    state: &mut State,
    made: &mut Made,
    alloc: Global,
    op: CallOp,
    need: Need,
    answer: &Answer,
) -> Result<(), Memory>
    requires op { AsksInFile op }
    requires inside { IsInside state.old }
    ensures done { OnOk result (done_of state.new made.new
        ≡ answers_need (done_of state.old made.old) op need answer.now) }
    ensures inside { IsInside state.new }
    ensures asked { made.new.asked ≡ made.old.asked }
{
    match need {
        Need::First => go_on(state, op, CallPhase::Starts),
        Need::Get { tries } => return on_get(state, made, alloc, op, tries, answer),
        Need::Commit { timed } => return on_commit(state, made, alloc, op, timed, answer),
        Need::Report { timed } => {
            let outcome = reported(&op, answer, &timed);
            end(state, made, outcome);
        }
        Need::Close { outcome, .. } => end(state, made, outcome),
    }
    Ok(())
}
