// The steps of a client's state.
ghost use Rattle.std.specs.Prelude.{◌≡◌, [], None, IfOk, OnOk};
ghost use Rattle.osd_lists.specs.declared.node.Node.TheVariants as node;
ghost use Rattle.client_rules.specs.Grants.{held_of};
ghost use Rattle.client_rules.specs.Messages.{finished, hears, Answers, Recalls, on_call, recall_answer};
ghost use Rattle.stripe_client.specs.Hearing.{nothing_made, awaits_answer, recall_status};
ghost use Rattle.stripe_client.specs.States.{client_of, done_of};
ghost use Rattle.stripe_client.specs.Sending.{IsStep};
ghost use Rattle.stripe_client.specs.Inside.{IsInside, HasNotAsked};

use crate::answers::{on_need, status_of};
use crate::asking::progress;
use crate::begin::begin;
use crate::outstanding::Outstanding;
use crate::sending::{CStep, Sends, close};
use crate::state::{Made, PendingCall, State};
use crate::turning::go_on;
use call_io::CallPhase;
use client_rules::{AwaitedCommands, MAX_CLIENT};
use held_grants::{grant_in, make_due};
use layout_ops::{
    Answer, NFS4_OK, NFS4ERR_LAYOUTTRYLATER, NFS4ERR_NOMATCHING_LAYOUT, Recall, RecallAnswer,
};
use osd_lists::Memory;
use std::alloc::Global;

// Nothing was done yet.
pub(crate) fn quiet(alloc: Global) -> Made
    ensures { result ≡ nothing_made }
{
    Made {
        recall: None,
        asked: false,
        commands: AwaitedCommands::new(alloc),
        outcome: None,
    }
}

// Nothing happens.
pub(crate) fn still(alloc: Global) -> CStep
    ensures { result ≡ record { sends = []; outcome = None } }
{
    CStep {
        sends: Sends::new(alloc),
        outcome: None,
    }
}

// Behind every change a call may begin, and then a request may go out.
#[tactic(auto, unfolding(client_rules::specs::Messages::finished))]
pub(crate) fn finish(state: &mut State, alloc: Global, made: Made) -> Result<CStep, Memory>
    requires asked { HasNotAsked made }
    requires inside { IsInside state.old }
    ensures step { IfOk result (λ s. IsStep (finished (done_of state.old made)) (client_of state.new) s) }
    ensures inside { IsInside state.new }
{
    let mut made = made;
    begin(state, &mut made, alloc)?;
    progress(state, &mut made, alloc)?;
    close(alloc, state, made)
}

// Whether the answer is this client's, and to its outstanding request.
fn is_awaited(state: &State, answer: &Answer) -> bool
    ensures { result ≡ awaits_answer state.now answer.now }
{
    let names_nobody = status_of(&answer.results) == NFS4ERR_LAYOUTTRYLATER
        && answer.detail > MAX_CLIENT;
    match state.outstanding.sequence() {
        Some(sequence) => {
            answer.client == state.number && answer.sequence == sequence && !names_nobody
        }
        None => false,
    }
}

// The answer to a request, for the call that waits for it.
fn answer_call(
    state: &mut State,
    made: &mut Made,
    alloc: Global,
    answer: &Answer,
) -> Result<(), Memory>
    requires inside { IsInside state.old }
    ensures done { OnOk result (done_of state.new made.new
        ≡ on_call (done_of state.old made.old) (client_of state.old).call answer.now) }
    ensures inside { IsInside state.new }
    ensures asked { made.new.asked ≡ made.old.asked }
{
    let PendingCall { op, phase } = match state.call.take() {
        Some(call) => call,
        None => return Ok(()),
    };
    match phase {
        CallPhase::Waits { need } => on_need(state, made, alloc, op, need, answer),
        phase => {
            go_on(state, op, phase);
            Ok(())
        }
    }
}

// An answer of the server.
#[tactic(auto, unfolding(client_rules::specs::Messages::hears, client_rules::specs::Messages::takes))]
pub(crate) fn hear_answer(
    state: &mut State,
    alloc: Global,
    answer: &Answer,
) -> Result<CStep, Memory>
    requires { IsInside state.old }
    ensures step { IfOk result (λ s. IsStep (hears (client_of state.old) node.Server (Answers answer.now))
        (client_of state.new) s) }
    ensures inside { IsInside state.new }
{
    if !is_awaited(state, answer) {
        return Ok(still(alloc));
    }
    state.outstanding = Outstanding::none();
    let mut made = quiet(alloc);
    answer_call(state, &mut made, alloc, answer)?;
    finish(state, alloc, made)
}

// The answer to a recall.
fn recall_answer(recall: &Recall, status: u32) -> RecallAnswer
    ensures { result ≡ recall_answer recall.now status }
{
    RecallAnswer {
        client: recall.client,
        number: recall.number,
        file: recall.file,
        status,
    }
}

// The status of the answer to a recall: whether it names the grant that is held of its file.
fn recall_status(state: &State, recall: &Recall) -> u32
    ensures { result ≡ recall_status recall.now (held_of state.now.held recall.now.file) }
{
    match state.held.get(recall.file) {
        Some(held) if held.number == grant_in(&recall.args.stateid) => NFS4_OK,
        _ => NFS4ERR_NOMATCHING_LAYOUT,
    }
}

// A recall of the server. The grant will be returned.
#[tactic(auto, unfolding(client_rules::specs::Messages::hears, client_rules::specs::Messages::takes))]
pub(crate) fn hear_recall(
    state: &mut State,
    alloc: Global,
    recall: &Recall,
) -> Result<CStep, Memory>
    requires { IsInside state.old }
    ensures step { IfOk result (λ s. IsStep (hears (client_of state.old) node.Server (Recalls recall.now))
        (client_of state.new) s) }
    ensures inside { IsInside state.new }
{
    if recall.client != state.number {
        return Ok(still(alloc));
    }
    let status = recall_status(state, recall);
    if status == NFS4_OK {
        make_due(&mut state.due, recall.file, grant_in(&recall.args.stateid))?;
    }
    let mut made = quiet(alloc);
    made.recall = Some(recall_answer(recall, status));
    finish(state, alloc, made)
}
