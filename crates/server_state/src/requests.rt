ghost use Rattle.std.specs.Prelude.{◌≡◌, ◌<◌, ◌^◌, ◌+◌, ◌≤◌, List, ℕ, None, IfOk, OnOk};
ghost use Rattle.server_rules.specs.declared.limits.TheConstants.{GREATEST_GRANT};
ghost use Rattle.layout_ops.specs.Spelling.{ResultsWritable};
ghost use Rattle.server_rules.specs.Requests.{no_file, carries_out};
ghost use Rattle.server_requests.specs.Telling.{IsAnswer};
ghost use Rattle.server_state.specs.States.{server_of, IsGood, IsGoodBut, HasRoom, Did, Finishes, carried_in};

use crate::answers::answer_to;
use crate::at_file::{Served, serve_in};
use crate::lists::{list, unlist};
use crate::outcome::Asking;
use crate::state::State;
use crate::step::Step;
use crate::step_end::{no_effects, only_sends};
use layout_ops::{NFS4_OK, NFS4ERR_BADLAYOUT, NFS4ERR_NOENT};
use osd_lists::Memory;
use server_requests::{Sends, plain_answer, send_recalls, send_to_drives};
use server_rules::{ClientRequest, Effects, RequestArgs};
use std::alloc::Global;

// The status of a request on a file that there isn't.
fn no_file(args: &RequestArgs) -> u32
    ensures value { result ≡ no_file args.now }
    ensures answer { IsAnswer args.now result }
{
    match args {
        RequestArgs::Get { .. } => NFS4ERR_NOENT,
        RequestArgs::Commit { .. } => NFS4ERR_BADLAYOUT,
        RequestArgs::Return { .. } => NFS4_OK,
    }
}

// The step of a new request on a file that there isn't.
fn refuse(alloc: Global, state: &mut State, request: &ClientRequest) -> Result<Step, Memory>
    ensures did { IfOk result (λ out. (now : ℕ) (chosen : List ℕ) → Did out (server_of state.new)
        (carries_out (server_of state.old) now chosen request.now None)) }
    ensures files { OnOk result (state.new.files ≡ state.old.files) }
    ensures grants { OnOk result (state.new.next_grant ≡ state.old.next_grant) }
    ensures drives { OnOk result (state.new.drives ≡ state.old.drives) }
    ensures replies { OnOk result (state.new.replies ≡ state.old.replies) }
    ensures counts { OnOk result (state.new.counts ≡ state.old.counts) }
{
    let answer = plain_answer(request, no_file(&request.args), 0, 0);
    let mut sends = Sends::new(alloc);
    answer_to(alloc, &mut state.slots, &mut sends, answer)?;
    Ok(only_sends(alloc, sends))
}

// What is left of the step of a request behind its file: it sends and counts.
fn finish(
    alloc: Global,
    state: &mut State,
    effects: Effects,
    served: Served,
) -> Result<Step, Memory>
    requires writable { ResultsWritable served.answer.results }
    requires numbers { state.old.next_grant + served.outcome.numbers ≤ GREATEST_GRANT + 1 }
    requires room { state.old.next_recall < 2 ^ 63 }
    ensures { IfOk result (Finishes state.old effects served state.new) }
{
    let Served { outcome, answer } = served;
    let recalls = outcome.recalled.as_slice();
    let mut sends = Sends::new(alloc);
    send_to_drives(
        alloc,
        &mut sends,
        state.drives.as_slice(),
        effects.sent.as_slice(),
    )?;
    send_recalls(alloc, &mut sends, recalls, state.next_recall)?;
    answer_to(alloc, &mut state.slots, &mut sends, answer)?;
    state.next_grant += outcome.numbers;
    state.next_recall += recalls.len() as u64;
    state.next_nonce = effects.nonce;
    state.next_object = effects.object;
    Ok(Step {
        sends,
        notes: effects.notes,
        mended: effects.mended,
    })
}

// The step of a new request at its file, which is unlisted.
fn carry_out_at(
    alloc: Global,
    state: &mut State,
    now: u64,
    request: &ClientRequest,
) -> Result<Step, Memory>
    requires good { IsGoodBut request.now.file state.old }
    requires room { HasRoom (server_of state.old) }
    ensures did { IfOk result (λ out. (chosen : List ℕ) →
        Did out (server_of state.new) (carried_in (server_of state.old) now chosen request.now)) }
    ensures good { OnOk result (IsGoodBut request.now.file state.new) }
{
    let asking = Asking {
        client: request.client,
        time: now,
        next_grant: state.next_grant,
        format: state.format,
    };
    let mut effects = no_effects(alloc, state.next_nonce, state.next_object);
    let drives = state.drives.as_slice();
    match serve_in(
        alloc,
        &mut state.files,
        &mut effects,
        drives,
        &asking,
        request,
    )? {
        Some(served) => finish(alloc, state, effects, served),
        None => refuse(alloc, state, request),
    }
}

/// The step of a new request.
pub fn carry_out(
    alloc: Global,
    state: &mut State,
    now: u64,
    request: &ClientRequest,
) -> Result<Step, Memory>
    requires good { IsGood state.old }
    requires room { HasRoom (server_of state.old) }
    ensures did { IfOk result (λ out. (chosen : List ℕ) →
        Did out (server_of state.new) (carried_in (server_of state.old) now chosen request.now)) }
    ensures good { OnOk result (IsGood state.new) }
{
    unlist(state, request.file);
    let step = carry_out_at(alloc, state, now, request)?;
    list(state, request.file)?;
    Ok(step)
}
