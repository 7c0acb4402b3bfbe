ghost use Rattle.std.specs.Prelude.{◌≡◌, ◌≤◌, ◌<◌, ◌^◌, ◌++◌, ◌∷◌, [], None, length, IfOk, OnOk};
ghost use Rattle.server_rules.specs.declared.server.Effects.{Effects as TheEffects};
ghost use Rattle.server_rules.specs.Get.{on_grants, fence_first, fence_then, give_or_refuse, high_after};
ghost use Rattle.server_requests.specs.Bounds.{IsLow};
ghost use Rattle.file_jobs.specs.Sound.{IsSoundFile};
ghost use Rattle.server_state.specs.FileRequests.{Serves, LeavesFile, IsLayoutTold, Counts, gets_for};

use crate::awaited::waits;
use crate::outcome::{Asking, Outcome, says};
use file_jobs::{FileState, note, revoke};
use layout_ops::{
    NFS4_OK, NFS4ERR_BADIOMODE, NFS4ERR_INVAL, NFS4ERR_LAYOUTTRYLATER, NFS4ERR_LAYOUTUNAVAILABLE,
    NFS4ERR_RECALLCONFLICT,
};
use osd_lists::Memory;
use server_requests::{Early, Late, Wanted, against, asked, early_row, late_row, must_fence};
use server_rules::{Effects, GREATEST_TAG, Grant, Kept, NO_COMPONENT, NoteKind};
use std::alloc::Global;

// The file has the grant.
fn give(kept: &mut Kept, grant: Grant) -> Result<(), Memory>
    ensures { OnOk result (kept.new
        ≡ record kept.old { grants = kept.old.grants ++ (grant ∷ []); high = high_after kept.old.high grant }) }
{
    kept.grants.push(grant)?;
    if grant.rw {
        kept.high = kept.high.max(grant.end);
    }
    Ok(())
}

// The rows behind that of the fence.
#[tactic(auto, unfolding(server_rules::specs::Get::give_or_refuse))]
fn give_or_refuse(
    alloc: Global,
    file: &mut FileState,
    next_grant: u64,
    grant: Grant,
) -> Result<Outcome, Memory>
    requires low { IsLow grant }
    requires sound { IsSoundFile file.old }
    requires idle { file.old.job ≡ None }
    ensures rule { IfOk result (λ o. (m : TheEffects)
        → Serves (λ go. give_or_refuse go next_grant grant) file.old m o file.new m) }
    ensures told { IfOk result (λ o. IsLayoutTold o.told) }
    ensures numbers { IfOk result (λ o. Counts next_grant o) }
    ensures sound { OnOk result (IsSoundFile file.new) }
    ensures number { OnOk result (file.new.kept.number ≡ file.old.kept.number) }
{
    match late_row(alloc, &file.kept, next_grant, &grant)? {
        Late::NoNumber => Ok(says(alloc, NFS4ERR_LAYOUTUNAVAILABLE, NO_COMPONENT)),
        Late::Lacks { component } => Ok(says(alloc, NFS4ERR_LAYOUTUNAVAILABLE, component)),
        Late::Conflict { holder } => {
            let mut outcome = says(alloc, NFS4ERR_LAYOUTTRYLATER, holder);
            outcome.recalled = against(alloc, file.kept.grants.as_slice(), &grant)?;
            Ok(outcome)
        }
        Late::Gives => {
            give(&mut file.kept, grant)?;
            let mut outcome = says(alloc, NFS4_OK, 0);
            outcome.numbers = 1;
            outcome.told.grant = Some(grant);
            Ok(outcome)
        }
    }
}

// The order goes on behind a fence, unless that waits.
fn fence_then(
    alloc: Global,
    file: &mut FileState,
    next_grant: u64,
    grant: Grant,
) -> Result<Outcome, Memory>
    requires low { IsLow grant }
    requires sound { IsSoundFile file.old }
    ensures rule { IfOk result (λ o. (m : TheEffects)
        → Serves (λ go. fence_then go next_grant grant) file.old m o file.new m) }
    ensures told { IfOk result (λ o. IsLayoutTold o.told) }
    ensures numbers { IfOk result (λ o. Counts next_grant o) }
    ensures sound { OnOk result (IsSoundFile file.new) }
    ensures number { OnOk result (file.new.kept.number ≡ file.old.kept.number) }
{
    match waits(file) {
        Some(component) => Ok(says(alloc, NFS4ERR_RECALLCONFLICT, component)),
        None => give_or_refuse(alloc, file, next_grant, grant),
    }
}

// The fence, which a spent tag refuses, and then the later rows.
#[tactic(auto, unfolding(server_rules::specs::Get::fence_first))]
fn fence_first(
    alloc: Global,
    file: &mut FileState,
    effects: &mut Effects,
    asking: &Asking,
    grant: Grant,
) -> Result<Outcome, Memory>
    requires low { IsLow grant }
    requires sound { IsSoundFile file.old }
    requires nonce { effects.old.nonce < 2 ^ 63 }
    ensures rule { IfOk result (λ o. Serves (λ go. fence_first go asking.now.next_grant asking.now.format grant)
        file.old effects.old o file.new effects.new) }
    ensures told { IfOk result (λ o. IsLayoutTold o.told) }
    ensures numbers { IfOk result (λ o. Counts asking.now.next_grant o) }
    ensures leaves { OnOk result (LeavesFile file.old file.new) }
{
    if file.kept.tag == GREATEST_TAG {
        note(effects, file.kept.number, NoteKind::Spent)?;
        return Ok(says(alloc, NFS4ERR_LAYOUTUNAVAILABLE, NO_COMPONENT));
    }
    revoke(alloc, file, effects, asking.format)?;
    fence_then(alloc, file, asking.next_grant, grant)
}

// The row of the fence and the later rows.
#[tactic(auto, unfolding(server_rules::specs::Get::on_grants))]
fn on_grants(
    alloc: Global,
    file: &mut FileState,
    effects: &mut Effects,
    asking: &Asking,
    grant: Grant,
) -> Result<Outcome, Memory>
    requires low { IsLow grant }
    requires sound { IsSoundFile file.old }
    requires idle { file.old.job ≡ None }
    requires nonce { effects.old.nonce < 2 ^ 63 }
    ensures rule { IfOk result (λ o. Serves
        (λ go. on_grants go asking.now.next_grant asking.now.format asking.now.time grant)
        file.old effects.old o file.new effects.new) }
    ensures told { IfOk result (λ o. IsLayoutTold o.told) }
    ensures numbers { IfOk result (λ o. Counts asking.now.next_grant o) }
    ensures leaves { OnOk result (LeavesFile file.old file.new) }
{
    if must_fence(asking.time, file.kept.grants.as_slice(), &grant) {
        return fence_first(alloc, file, effects, asking, grant);
    }
    give_or_refuse(alloc, file, asking.next_grant, grant)
}

/// A LAYOUTGET at a file.
#[tactic(auto, unfolding(server_rules::specs::Get::gets))]
pub fn get(
    alloc: Global,
    file: &mut FileState,
    effects: &mut Effects,
    asking: &Asking,
    wanted: &Wanted,
) -> Result<Outcome, Memory>
    requires sound { IsSoundFile file.old }
    requires nonce { effects.old.nonce < 2 ^ 63 }
    ensures rule { IfOk result (λ o. Serves (gets_for asking.now wanted.now) file.old effects.old o file.new effects.new) }
    ensures told { IfOk result (λ o. IsLayoutTold o.told) }
    ensures numbers { IfOk result (λ o. Counts asking.now.next_grant o) }
    ensures leaves { OnOk result (LeavesFile file.old file.new) }
{
    match early_row(file.spent, waits(file), wanted) {
        Early::BadMode => Ok(says(alloc, NFS4ERR_BADIOMODE, 0)),
        Early::Invalid => Ok(says(alloc, NFS4ERR_INVAL, 0)),
        Early::Unable => Ok(says(alloc, NFS4ERR_LAYOUTUNAVAILABLE, NO_COMPONENT)),
        Early::Waits { component } => Ok(says(alloc, NFS4ERR_RECALLCONFLICT, component)),
        Early::On => {
            let number = asking.next_grant;
            let grant = asked(&file.kept, number, asking.client, asking.time, wanted);
            on_grants(alloc, file, effects, asking, grant)
        }
    }
}
