ghost use Rattle.std.specs.Prelude.{◌≡◌, ◌<◌, ◌≤◌, ◌^◌, ℕ, List, [], length, IfOk, OnOk};
ghost use Rattle.layout_ops.specs.declared.orders.OrderKind.TheVariants as order;
ghost use Rattle.server_rules.specs.Answers.{recalls_from};
ghost use Rattle.server_requests.specs.Sending.{all_sent};
ghost use Rattle.server_rules.specs.Files.{file_at};
ghost use Rattle.server_rules.specs.Orders.{ordered, starts, unknown};
ghost use Rattle.stripe_repair.specs.Placing.{AreDifferent, drives_of};
ghost use Rattle.zone_place.specs.declared.loads.TheConstants.{MAX_DRIVES};
ghost use Rattle.server_state.specs.declared.state.State.{State as AState};
ghost use Rattle.file_jobs.specs.Placing.{AreLoadsOf};
ghost use Rattle.file_jobs.specs.Sound.{IsSoundFile};
ghost use Rattle.server_state.specs.FileRequests.{LeavesFile};
ghost use Rattle.server_state.specs.Tables.{AreEntries};
ghost use Rattle.server_state.specs.States.{server_of, HasRoom, IsGood, IsGoodBut};
ghost use Rattle.layout_server.specs.Orders.{begun, Begins, BegunIn, Obeys};

use crate::loads::loads_of;
use file_jobs::{FileState, begin, note};
use layout_ops::OrderResult;
use osd_lists::Memory;
use server_requests::{Sends, send_recalls};
use server_rules::{Effects, GREATEST_TAG, Grant, JobKind, NoteKind};
use server_state::{Files, State, Step, finish_step, list, no_effects, only_sends, unlist, waits};
use std::alloc::Global;
use stripe_repair::{DriveLoad, Place};

/// The step of an order, and what came of it.
#[derive(Drop)]
pub struct Obeyed {
    pub step: Step,
    pub result: OrderResult,
}

/// The answer to an order on a file or drive that isn't there.
pub fn unknown(alloc: Global) -> Obeyed
    ensures { (s : AState) → Obeys result (server_of s) (unknown (server_of s)) }
{
    Obeyed {
        step: only_sends(alloc, Sends::new(alloc)),
        result: OrderResult::Unknown,
    }
}

// The step that recalls these grants, counted from `first`.
fn recalls(alloc: Global, grants: &[Grant], first: u64) -> Result<Step, Memory>
    requires { first < 2 ^ 63 }
    ensures sends { IfOk result (λ out. out.sends ≡ all_sent (recalls_from first grants.now)) }
    ensures notes { IfOk result (λ out. (out.notes ≡ []) × (out.mended ≡ [])) }
{
    let mut sends = Sends::new(alloc);
    send_recalls(alloc, &mut sends, grants, first)?;
    Ok(only_sends(alloc, sends))
}

/// A recall goes to each holder of a grant on the file.
pub fn order_recall(alloc: Global, state: &mut State, number: u32) -> Result<Obeyed, Memory>
    requires good { IsGood state.old }
    requires room { HasRoom (server_of state.old) }
    ensures obeys { IfOk result (λ o. (chosen : List ℕ)
        → Obeys o (server_of state.new) (ordered (server_of state.old) chosen order.Recall number)) }
    ensures good { OnOk result (IsGood state.new) }
{
    match state.files.get(&number) {
        Some(file) => {
            let grants = file.kept.grants.as_slice();
            let step = recalls(alloc, grants, state.next_recall)?;
            state.next_recall += grants.len() as u64;
            let result = OrderResult::Started;
            Ok(Obeyed { step, result })
        }
        None => Ok(unknown(alloc)),
    }
}

// A fence begins at a file for a job of that kind, unless a job runs or the tag is spent.
fn begin_at<P: Place>(
    alloc: Global,
    file: &mut FileState,
    effects: &mut Effects,
    kind: JobKind,
    format: u8,
    loads: &[DriveLoad],
    placer: &P,
) -> Result<OrderResult, Memory>
    requires few { length loads.now ≤ MAX_DRIVES }
    requires different { AreDifferent (drives_of loads.now) }
    requires placer { P.is_placer placer.now }
    requires sound { IsSoundFile file.old }
    requires low { effects.old.nonce < 2 ^ 63 }
    requires objects { effects.old.object < 2 ^ 63 }
    ensures begun { IfOk result (λ r.
        Begins (begun kind format file.old.job) loads.now file.old effects.old r file.new effects.new) }
    ensures leaves { OnOk result (LeavesFile file.old file.new) }
{
    if let Some(component) = waits(file) {
        note(effects, file.kept.number, NoteKind::Busy { component })?;
        return Ok(OrderResult::Busy);
    }
    if file.kept.tag == GREATEST_TAG {
        note(effects, file.kept.number, NoteKind::Spent)?;
        return Ok(OrderResult::Spent);
    }
    begin(alloc, file, effects, kind, format, loads, placer)?;
    Ok(OrderResult::Started)
}

// A fence begins at the file of that number for a job of that kind; `None` exactly if there is no such file.
fn begin_in<P: Place>(
    alloc: Global,
    files: &mut Files,
    effects: &mut Effects,
    number: u32,
    kind: JobKind,
    format: u8,
    loads: &[DriveLoad],
    placer: &P,
) -> Result<Option<OrderResult>, Memory>
    requires few { length loads.now ≤ MAX_DRIVES }
    requires different { AreDifferent (drives_of loads.now) }
    requires placer { P.is_placer placer.now }
    requires files { AreEntries files.old.entries }
    requires low { effects.old.nonce < 2 ^ 63 }
    requires objects { effects.old.object < 2 ^ 63 }
    ensures { IfOk result (λ r.
        BegunIn kind format loads.now number files.old.entries effects.old r files.new.entries effects.new) }
{
    match files.get_mut(&number) {
        Some(file) => {
            let result = begin_at(alloc, file, effects, kind, format, loads, placer)?;
            Ok(Some(result))
        }
        None => Ok(None),
    }
}

// The step of an order for a job at its file, which is unlisted.
fn order_job_at<P: Place>(
    alloc: Global,
    state: &mut State,
    number: u32,
    kind: JobKind,
    loads: &[DriveLoad],
    placer: &P,
) -> Result<Obeyed, Memory>
    requires good { IsGoodBut number state.old }
    requires room { HasRoom (server_of state.old) }
    requires few { length loads.now ≤ MAX_DRIVES }
    requires different { AreDifferent (drives_of loads.now) }
    requires loads { AreLoadsOf loads.now state.old.drives }
    requires placer { P.is_placer placer.now }
    ensures obeys { IfOk result (λ o. (chosen : List ℕ) × Obeys o (server_of state.new)
        (starts (server_of state.old) chosen kind (file_at (server_of state.old).files number))) }
    ensures good { OnOk result (IsGoodBut number state.new) }
{
    let mut effects = no_effects(alloc, state.next_nonce, state.next_object);
    let format = state.format;
    let files = &mut state.files;
    let begun = begin_in(
        alloc,
        files,
        &mut effects,
        number,
        kind,
        format,
        loads,
        placer,
    )?;
    match begun {
        Some(result) => {
            let step = finish_step(alloc, state, effects)?;
            Ok(Obeyed { step, result })
        }
        None => Ok(unknown(alloc)),
    }
}

/// A job of that kind begins at a file with its fence, unless one runs or the file's tag is spent.
pub fn order_job<P: Place>(
    alloc: Global,
    state: &mut State,
    number: u32,
    kind: JobKind,
    placer: &P,
) -> Result<Obeyed, Memory>
    requires good { IsGood state.old }
    requires room { HasRoom (server_of state.old) }
    requires placer { P.is_placer placer.now }
    ensures obeys { IfOk result (λ o. (chosen : List ℕ) × Obeys o (server_of state.new)
        (starts (server_of state.old) chosen kind (file_at (server_of state.old).files number))) }
    ensures good { OnOk result (IsGood state.new) }
{
    let loads = loads_of(alloc, state)?;
    let loads = loads.as_slice();
    unlist(state, number);
    let obeyed = order_job_at(alloc, state, number, kind, loads, placer)?;
    list(state, number)?;
    Ok(obeyed)
}
