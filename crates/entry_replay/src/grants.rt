// Grants that are issued and given back.
ghost use Rattle.std.specs.Prelude.{◌≡◌, ◌==◌, true, not, filter, IfOk, OnOk};
ghost use Rattle.file_jobs.specs.Sound.{IsSoundFile};
ghost use Rattle.file_jobs.specs.Steps.{file_of};
ghost use Rattle.server_rules.specs.Files.{file_at};
ghost use Rattle.server_rules.specs.Get.{high_after};
ghost use Rattle.server_state.specs.FileRequests.{LeavesFile};
ghost use Rattle.server_state.specs.States.{server_of, IsReady};
ghost use Rattle.server_state.specs.Tables.{files_in};
ghost use Rattle.server_entries.specs.Applying.{applied, can_at, holder_of};
ghost use Rattle.server_entries.specs.Changes.{can_grant, granted, is_grant, kept_file, returned};
ghost use Rattle.server_entries.specs.declared.entry.Entry.TheVariants as entry;
ghost use Rattle.entry_replay.specs.Replaying.{Becomes};

use crate::in_use::{has_number, is_free_grant};
use data_map::MAX_FILE_SIZE;
use file_jobs::FileState;
use grant_table::{first_against, grant_of};
use osd_lists::Memory;
use server_entries::Applied;
use server_rules::{Grant, Grants, Kept, MAX_CLIENT};
use server_state::{Files, State};
use std::alloc::Global;

// ---- a grant is issued

// The grant's stripes lie inside the longest file, and its client is one that there may be.
fn is_grant(grant: &Grant) -> bool
    ensures { result ≡ is_grant grant.now }
{
    grant.first <= grant.end
        && grant.end <= MAX_FILE_SIZE
        && (!grant.extending || grant.rw)
        && grant.client <= MAX_CLIENT
}

// The grant may be issued on the file.
fn can_hold(state: &State, kept: &Kept, grant: &Grant) -> bool
    ensures { result ≡ can_grant (server_of state.now) grant.now kept.now }
{
    is_grant(grant)
        && is_free_grant(state, grant.number)
        && grant_of(kept.grants.as_slice(), grant.client).is_none()
        && first_against(kept.grants.as_slice(), grant).is_none()
}

// The grant may be issued.
fn can_grant(state: &State, grant: &Grant) -> bool
    requires { IsReady state.now }
    ensures { result ≡ can_at (can_grant (server_of state.now) grant.now)
        (file_at (files_in state.now.files.entries) grant.now.file) }
{
    match state.files.get(&grant.file) {
        Some(file) => can_hold(state, &file.kept, grant),
        None => false,
    }
}

// The greatest end of stripes for writing, once the grant is issued.
fn high_after(high: u64, grant: &Grant) -> u64
    ensures { result ≡ high_after high grant.now }
{
    if grant.rw { high.max(grant.end) } else { high }
}

// The file has the grant, and no job.
fn add_grant(file: &mut FileState, grant: Grant) -> Result<(), Memory>
    requires sound { IsSoundFile file.old }
    requires grant { is_grant grant ≡ true }
    ensures granted { OnOk result (file_of file.new ≡ kept_file (granted grant file.old.kept)) }
    ensures leaves { LeavesFile file.old file.new }
{
    file.kept.grants.push(grant)?;
    file.kept.high = high_after(file.kept.high, &grant);
    file.spent = false;
    file.job = None;
    Ok(())
}

pub(crate) fn apply_grant(state: &mut State, grant: &Grant) -> Result<Applied, Memory>
    requires ready { IsReady state.old }
    ensures applied { IfOk result (Becomes state.old state.new (applied (server_of state.old) (entry.Grant grant.now))) }
    ensures ready { IsReady state.new }
{
    if !can_grant(state, grant) {
        return Ok(Applied::Unmade);
    }
    match state.files.get_mut(&grant.file) {
        Some(file) => {
            add_grant(file, *grant)?;
            Ok(Applied::Done)
        }
        None => Ok(Applied::Unmade),
    }
}

// ---- a grant is given back

// The first file on which a grant of that number is live.
#[tactic(auto, unfolding(server_entries::specs::Applying::holder_of))]
fn holder_of(files: &Files, number: u32) -> Option<u32>
    ensures { result ≡ holder_of (files_in files.now.entries) number }
{
    for (_, file) in files.iter() {
        if has_number(file.kept.grants.as_slice(), number) {
            return Some(file.kept.number);
        }
    }
    None
}

// The grants but those of that number.
fn without(alloc: Global, grants: &[Grant], number: u32) -> Result<Grants, Memory>
    ensures { IfOk result (λ left. left ≡ filter (λ g. not (g.number == number)) grants.now) }
{
    let mut left = Grants::new(alloc);
    for grant in grants {
        if grant.number != number {
            left.push(*grant)?;
        }
    }
    Ok(left)
}

// The file hasn't the grant any more, and no job.
fn remove_grant(alloc: Global, file: &mut FileState, number: u32) -> Result<(), Memory>
    requires sound { IsSoundFile file.old }
    ensures returned { OnOk result (file_of file.new ≡ kept_file (returned number file.old.kept)) }
    ensures leaves { LeavesFile file.old file.new }
{
    file.kept.grants = without(alloc, file.kept.grants.as_slice(), number)?;
    file.spent = false;
    file.job = None;
    Ok(())
}

pub(crate) fn apply_return(alloc: Global, state: &mut State, grant: u32) -> Result<Applied, Memory>
    requires ready { IsReady state.old }
    ensures applied { IfOk result (Becomes state.old state.new (applied (server_of state.old) (entry.Return grant))) }
    ensures ready { IsReady state.new }
{
    let number = match holder_of(&state.files, grant) {
        Some(number) => number,
        None => return Ok(Applied::Unmade),
    };
    match state.files.get_mut(&number) {
        Some(file) => {
            remove_grant(alloc, file, grant)?;
            Ok(Applied::Done)
        }
        None => Ok(Applied::Unmade),
    }
}
