// What changes of a file.
ghost use Rattle.std.specs.Prelude.{◌≡◌, ◌<◌, length, IfOk, OnErr, OnOk};
ghost use Rattle.file_jobs.specs.Sound.{IsSound, IsSoundFile};
ghost use Rattle.file_jobs.specs.Steps.{file_of};
ghost use Rattle.server_rules.specs.Files.{file_at};
ghost use Rattle.server_rules.specs.Jobs.{fencing};
ghost use Rattle.server_state.specs.FileRequests.{LeavesFile};
ghost use Rattle.server_state.specs.States.{server_of, IsReady};
ghost use Rattle.server_state.specs.Tables.{files_in};
ghost use Rattle.server_entries.specs.Applying.{applied, can_at};
ghost use Rattle.server_entries.specs.Changes.{are_in_zones, can_change, can_stand, changed, is_fencing, is_repairing, IsInside, kept_file};
ghost use Rattle.server_entries.specs.declared.entry.FileChange.TheVariants.{FenceStarted, Fenced, Missing, Present, Repaired};
ghost use Rattle.server_entries.specs.declared.entry.Entry.TheVariants as entry;
ghost use Rattle.entry_replay.specs.Replaying.{Becomes};

use crate::drives::{is_in_zone, is_known};
use crate::in_use::is_free_object;
use crate::numbers::{format_of, is_format};
use data_map::MAX_FILE_SIZE;
use file_jobs::{FileState, lose};
use osd_lists::Memory;
use server_entries::{Applied, FileChange};
use server_rules::{Component, Drive, Grants, Kept, Phase};
use server_state::State;
use std::alloc::Global;

// ---- whether the change may come

// Each component stands, or last stood, on a drive that is in a zone.
fn are_in_zones(drives: &[Drive], components: &[Component]) -> bool
    ensures { result ≡ are_in_zones drives.now components.now }
{
    for at in components {
        if !is_in_zone(at.drive, drives) {
            return false;
        }
    }
    true
}

// A fence is under way.
fn is_fencing(phase: Phase) -> bool
    ensures { result ≡ is_fencing phase }
{
    match phase {
        Phase::Fencing | Phase::FencingAgain => true,
        Phase::Still | Phase::Repairing => false,
    }
}

// A repair follows a fence.
fn is_repairing(phase: Phase) -> bool
    ensures { result ≡ is_repairing phase }
{
    match phase {
        Phase::Repairing => true,
        Phase::Still | Phase::Fencing | Phase::FencingAgain => false,
    }
}

// The component may stand there.
fn can_stand(state: &State, kept: &Kept, component: u32, drive: u32, object: u64) -> bool
    ensures { result ≡ can_stand (server_of state.now) kept.now component drive object }
{
    (component as usize) < kept.components.len()
        && is_known(drive, state.drives.as_slice())
        && is_free_object(state, object)
        && (!kept.zoned || is_in_zone(drive, state.drives.as_slice()))
}

// The change may come to the file.
fn can_change(state: &State, kept: &Kept, change: &FileChange) -> bool
    ensures { result ≡ can_change (server_of state.now) change.now kept.now }
{
    match change {
        FileChange::Size { size } => *size <= MAX_FILE_SIZE,
        FileChange::FenceStarted | FileChange::Ready => true,
        FileChange::Fenced { format, .. } => is_fencing(kept.phase) && is_format(*format),
        FileChange::Repaired => is_repairing(kept.phase),
        FileChange::Missing { component } => (*component as usize) < kept.components.len(),
        FileChange::Present {
            component,
            drive,
            object,
        } => can_stand(state, kept, *component, *drive, *object),
        FileChange::Format { format } => is_format(*format),
        FileChange::Zoned => are_in_zones(state.drives.as_slice(), kept.components.as_slice()),
    }
}

// The change may come.
fn can_come(state: &State, number: u32, change: &FileChange) -> bool
    requires { IsReady state.now }
    ensures { result ≡ can_at (can_change (server_of state.now) change.now) (file_at (files_in state.now.files.entries) number) }
{
    match state.files.get(&number) {
        Some(file) => can_change(state, &file.kept, change),
        None => false,
    }
}

// ---- the change comes

// The phase of a file whose fence starts.
fn fencing(phase: Phase) -> Phase
    ensures { result ≡ fencing phase }
{
    match phase {
        Phase::Still | Phase::Fencing => Phase::Fencing,
        Phase::Repairing | Phase::FencingAgain => Phase::FencingAgain,
    }
}

// A fence started, and ended the grants.
fn start_fence(alloc: Global, kept: &mut Kept) -> Result<(), Memory>
    ensures changed { OnOk result (kept.new ≡ changed FenceStarted kept.old) }
    ensures stays { OnErr result (kept.new ≡ kept.old) }
{
    kept.ended.extend_from_slice(kept.grants.as_slice())?;
    kept.grants = Grants::new(alloc);
    kept.phase = fencing(kept.phase);
    Ok(())
}

// The fence is over.
fn end_fence(kept: &mut Kept, tag: u32, format: u8)
    ensures { kept.new ≡ changed (Fenced tag format) kept.old }
{
    kept.tag = tag;
    kept.format = format;
    kept.phase = Phase::Repairing;
}

// The repair is over.
fn end_repair(alloc: Global, kept: &mut Kept)
    ensures { kept.new ≡ changed Repaired kept.old }
{
    kept.ended = Grants::new(alloc);
    kept.phase = Phase::Still;
}

// A component is missing.
fn lose_component(alloc: Global, kept: &mut Kept, component: u32) -> Result<(), Memory>
    requires { IsSound kept.old }
    ensures changed { OnOk result (kept.new ≡ changed (Missing component) kept.old) }
    ensures stays { OnErr result (kept.new ≡ kept.old) }
{
    kept.components = lose(alloc, kept.components.as_slice(), component)?;
    Ok(())
}

// A component stands there.
fn put_component(kept: &mut Kept, component: u32, drive: u32, object: u64)
    requires { component < length kept.old.components }
    ensures { kept.new ≡ changed (Present component drive object) kept.old }
{
    let at = Component {
        drive,
        object,
        missing: false,
    };
    *kept.components.get_mut(component as usize) = at;
}

// The change comes.
fn change_kept(alloc: Global, kept: &mut Kept, change: &FileChange) -> Result<(), Memory>
    requires sound { IsSound kept.old }
    requires inside { IsInside change.now kept.old }
    ensures changed { OnOk result (kept.new ≡ changed change.now kept.old) }
    ensures stays { OnErr result (kept.new ≡ kept.old) }
{
    match change {
        FileChange::Size { size } => {
            kept.size = *size;
            Ok(())
        }
        FileChange::FenceStarted => start_fence(alloc, kept),
        FileChange::Fenced { tag, format } => {
            end_fence(kept, *tag, format_of(*format));
            Ok(())
        }
        FileChange::Repaired => {
            end_repair(alloc, kept);
            Ok(())
        }
        FileChange::Missing { component } => lose_component(alloc, kept, *component),
        FileChange::Present {
            component,
            drive,
            object,
        } => {
            put_component(kept, *component, *drive, *object);
            Ok(())
        }
        FileChange::Ready => {
            kept.ready = true;
            Ok(())
        }
        FileChange::Format { format } => {
            kept.format = format_of(*format);
            Ok(())
        }
        FileChange::Zoned => {
            kept.zoned = true;
            Ok(())
        }
    }
}

// The change comes, and no job is left.
fn change_file(alloc: Global, file: &mut FileState, change: &FileChange) -> Result<(), Memory>
    requires sound { IsSoundFile file.old }
    requires inside { IsInside change.now file.old.kept }
    ensures changed { OnOk result (file_of file.new ≡ kept_file (changed change.now file.old.kept)) }
    ensures leaves { LeavesFile file.old file.new }
{
    change_kept(alloc, &mut file.kept, change)?;
    file.spent = false;
    file.job = None;
    Ok(())
}

pub(crate) fn apply_change(
    alloc: Global,
    state: &mut State,
    number: u32,
    change: &FileChange,
) -> Result<Applied, Memory>
    requires ready { IsReady state.old }
    ensures applied { IfOk result (Becomes state.old state.new
        (applied (server_of state.old) (entry.Change number change.now))) }
    ensures ready { IsReady state.new }
{
    if !can_come(state, number, change) {
        return Ok(Applied::Unmade);
    }
    match state.files.get_mut(&number) {
        Some(file) => {
            change_file(alloc, file, change)?;
            Ok(Applied::Done)
        }
        None => Ok(Applied::Unmade),
    }
}
