ghost use Rattle.std.specs.Prelude.{◌≡◌, ℕ, List, IfOk, OnOk};
ghost use Rattle.layout_ops.specs.declared.statuses.TheConstants.{NFS4ERR_SEQ_MISORDERED};
ghost use Rattle.server_rules.specs.Served.{tells};
ghost use Rattle.server_rules.specs.Answers.{plain_answer};
ghost use Rattle.server_rules.specs.Files.{file_at};
ghost use Rattle.server_rules.specs.Slots.{admit_after};
ghost use Rattle.server_rules.specs.Requests.{by_admit, on_request, only_answers, size_in};
ghost use Rattle.server_state.specs.Tables.{AreEntries, files_in};
ghost use Rattle.server_state.specs.declared.state.State.{State as AState};
ghost use Rattle.server_state.specs.States.{server_of, Did, HasRoom, IsGood};

use crate::answers::send_answer;
use crate::requests::carry_out;
use crate::slots::{KeptAnswer, slot_of};
use crate::state::{Files, State};
use crate::step::Step;
use crate::step_end::only_sends;
use layout_ops::NFS4ERR_SEQ_MISORDERED;
use osd_lists::Memory;
use server_requests::{Sends, plain_answer};
use server_rules::{ClientRequest, GREATEST_SEQUENCE};
use std::alloc::Global;

// The size of a file, 0 where there is none.
fn size_of(files: &Files, number: u32) -> u64
    requires { AreEntries files.now.entries }
    ensures { result ≡ size_in (file_at (files_in files.now.entries) number) }
{
    match files.get(&number) {
        Some(file) => file.kept.size,
        None => 0,
    }
}

// The step of a request that is neither the last one again nor the next.
fn misordered(
    alloc: Global,
    state: &State,
    request: &ClientRequest,
    expected: u32,
) -> Result<Step, Memory>
    requires { AreEntries state.now.files.entries }
    ensures { IfOk result (λ out. Did out (server_of state.now) (only_answers (server_of state.now)
        (plain_answer request.now (tells NFS4ERR_SEQ_MISORDERED expected)
        (size_in (file_at (files_in state.now.files.entries) request.now.file))))) }
{
    let size = size_of(&state.files, request.file);
    let answer = plain_answer(request, NFS4ERR_SEQ_MISORDERED, expected, size);
    let mut sends = Sends::new(alloc);
    send_answer(alloc, &mut sends, answer)?;
    Ok(only_sends(alloc, sends))
}

// The step of the last request again.
fn again(alloc: Global, slot: &KeptAnswer) -> Result<Step, Memory>
    ensures { IfOk result (λ out. (s : AState) → Did out (server_of s) (only_answers (server_of s) slot.now.kept)) }
{
    let mut sends = Sends::new(alloc);
    sends.push(slot.again(alloc)?)?;
    Ok(only_sends(alloc, sends))
}

// A request that isn't the last one again, which has that number.
#[tactic(auto, unfolding(server_rules::specs::Slots::admit_after))]
fn behind(
    alloc: Global,
    state: &mut State,
    now: u64,
    last: u32,
    request: &ClientRequest,
) -> Result<Step, Memory>
    requires good { IsGood state.old }
    requires room { HasRoom (server_of state.old) }
    ensures did { IfOk result (λ out. (chosen : List ℕ) → Did out (server_of state.new)
        (by_admit (server_of state.old) now chosen request.now (admit_after last request.now.sequence))) }
    ensures good { OnOk result (IsGood state.new) }
{
    let expected = last.saturating_add(1);
    if request.sequence == expected && last < GREATEST_SEQUENCE {
        return carry_out(alloc, state, now, request);
    }
    misordered(alloc, state, request, expected)
}

/// The step of a client's request: a new one is carried out, the last one gets its answer again, and any other
/// is misordered.
#[tactic(auto, unfolding(server_rules::specs::Requests::on_request, server_rules::specs::Slots::admit))]
pub fn on_request(
    alloc: Global,
    state: &mut State,
    now: u64,
    request: &ClientRequest,
) -> Result<Step, Memory>
    requires good { IsGood state.old }
    requires room { HasRoom (server_of state.old) }
    ensures did { IfOk result (λ out. (chosen : List ℕ) → Did out (server_of state.new)
        (on_request (server_of state.old) now chosen request.now)) }
    ensures good { OnOk result (IsGood state.new) }
{
    match slot_of(state.slots.as_slice(), request.client) {
        Some(slot) => {
            let last = slot.last();
            if request.sequence == last {
                return again(alloc, slot);
            }
            behind(alloc, state, now, last, request)
        }
        None => behind(alloc, state, now, 0, request),
    }
}
