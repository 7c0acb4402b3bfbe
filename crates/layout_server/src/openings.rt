// A server that crashes, and one that is opened after a crash.
ghost use Rattle.std.specs.Prelude.{◌≡◌, ◌<◌, ◌^◌, [], true, IfOk, OnOk};
ghost use Rattle.server_rules.specs.Messages.{counters_have_room};
ghost use Rattle.server_rules.specs.Openings.{crash, is_still, is_unsettled, opens, opens_fenced, opens_made, reopen};
ghost use Rattle.file_jobs.specs.Sound.{IsSoundFile};
ghost use Rattle.file_jobs.specs.Steps.{Steps};
ghost use Rattle.server_state.specs.FileRequests.{LeavesFile};
ghost use Rattle.server_state.specs.States.{server_of, Did, IsGood};
ghost use Rattle.layout_server.specs.Restarting.{crashes_at};
ghost use Rattle.layout_server.specs.Rounds.{unasked};

use crate::rounds::{FileStep, at_each_file};
use file_jobs::{FileState, make, note, revoke};
use osd_lists::Memory;
use server_requests::Sends;
use server_rules::{Effects, GREATEST_TAG, Kept, NoteKind, Phase};
use server_state::{State, Step, finish_step, list_all, no_effects, only_sends};
use std::alloc::Global;

// ---- the crash

// A file whose job is gone.
#[derive(Drop)]
struct FileCrash;

impl FileStep for FileCrash {
    ghost rule = { λ _. crashes_at };

    fn at_file(
        &self,
        _alloc: Global,
        file: &mut FileState,
        _effects: &mut Effects,
    ) -> Result<(), Memory> {
        file.spent = false;
        file.job = None;
        Ok(())
    }
}

/// The server crashes: no job runs any more, and all that is kept stays.
pub fn crash(alloc: Global, state: &mut State) -> Result<(), Memory>
    requires good { IsGood state.old }
    ensures server { OnOk result (server_of state.new ≡ crash (server_of state.old)) }
    ensures good { OnOk result (IsGood state.new) }
{
    // A crash sends nothing, so its counters may stand anywhere.
    let mut effects = no_effects(alloc, 0, 0);
    at_each_file(alloc, &mut state.files, &mut effects, &FileCrash)?;
    list_all(alloc, state)?;
    Ok(())
}

// ---- the opening of a file

// Neither a fence of the file is under way nor a repair.
fn is_still(phase: Phase) -> bool
    ensures { result ≡ is_still phase }
{
    match phase {
        Phase::Still => true,
        Phase::Fencing | Phase::Repairing | Phase::FencingAgain => false,
    }
}

// The file has a grant that nothing ended, or a fence that no repair followed.
fn is_unsettled(kept: &Kept) -> bool
    ensures { result ≡ is_unsettled kept.now }
{
    kept.grants.len() > 0 || !is_still(kept.phase)
}

// A fence begins on the file's grants, unless its tag is spent.
#[tactic(auto, unfolding(server_rules::specs::Openings::opens_fenced))]
fn fence(
    alloc: Global,
    file: &mut FileState,
    effects: &mut Effects,
    format: u8,
) -> Result<(), Memory>
    requires sound { IsSoundFile file.old }
    requires low { effects.old.nonce < 2 ^ 63 }
    ensures steps { OnOk result (Steps (opens_fenced format) file.old effects.old file.new effects.new) }
    ensures leaves { OnOk result (LeavesFile file.old file.new) }
{
    if file.kept.tag == GREATEST_TAG {
        file.spent = true;
        note(effects, file.kept.number, NoteKind::Spent)?;
        return Ok(());
    }
    revoke(alloc, file, effects, format)?;
    Ok(())
}

// The file is made if it isn't ready.
fn make_unready(alloc: Global, file: &mut FileState, effects: &mut Effects) -> Result<(), Memory>
    requires sound { IsSoundFile file.old }
    requires alone { file.old.kept.grants ≡ [] }
    requires low { effects.old.nonce < 2 ^ 63 }
    ensures steps { OnOk result (Steps (λ g. opens_made g g.file.kept.ready) file.old effects.old file.new effects.new) }
    ensures leaves { OnOk result (LeavesFile file.old file.new) }
{
    if file.kept.ready {
        file.job = None;
        return Ok(());
    }
    make(alloc, file, effects)?;
    Ok(())
}

// A file that is opened, and takes this format if a fence begins.
#[derive(Drop)]
struct FileOpening {
    format: u8,
}

impl FileStep for FileOpening {
    ghost rule = { λ o. unasked (opens o.format) };

    fn at_file(
        &self,
        alloc: Global,
        file: &mut FileState,
        effects: &mut Effects,
    ) -> Result<(), Memory> {
        open(alloc, file, effects, self.format)?;
        Ok(())
    }
}

// The file is opened: it is fenced if it is unsettled, and else made if it isn't ready.
#[tactic(auto, unfolding(server_rules::specs::Openings::opens))]
fn open(
    alloc: Global,
    file: &mut FileState,
    effects: &mut Effects,
    format: u8,
) -> Result<(), Memory>
    requires sound { IsSoundFile file.old }
    requires low { effects.old.nonce < 2 ^ 63 }
    ensures steps { OnOk result (Steps (opens format) file.old effects.old file.new effects.new) }
    ensures leaves { OnOk result (LeavesFile file.old file.new) }
{
    if is_unsettled(&file.kept) {
        return fence(alloc, file, effects, format);
    }
    make_unready(alloc, file, effects)
}

// ---- the opening of the server

// Each file is opened, in order.
fn open_all(alloc: Global, state: &mut State) -> Result<Step, Memory>
    requires good { IsGood state.old }
    requires room { counters_have_room (server_of state.old) ≡ true }
    ensures did { IfOk result (λ out. Did out (server_of state.new) (reopen (server_of state.old))) }
    ensures good { OnOk result (IsGood state.new) }
{
    let format = state.format;
    let mut effects = no_effects(alloc, state.next_nonce, state.next_object);
    at_each_file(
        alloc,
        &mut state.files,
        &mut effects,
        &FileOpening { format },
    )?;
    let step = finish_step(alloc, state, effects)?;
    list_all(alloc, state)?;
    Ok(step)
}

/// The server is opened after a crash. Nothing happens if the counters have no room: `has_room` says whether they have.
///
/// # Errors
///
/// Want of memory; and, in place of it, a counter of 64 bits without room in the middle of the step.
#[tactic(auto, unfolding(server_rules::specs::Openings::reopen))]
pub fn reopen(alloc: Global, state: &mut State, has_room: bool) -> Result<Step, Memory>
    requires good { IsGood state.old }
    requires counters { has_room ≡ counters_have_room (server_of state.old) }
    ensures did { IfOk result (λ out. Did out (server_of state.new) (reopen (server_of state.old))) }
    ensures good { OnOk result (IsGood state.new) }
{
    if !has_room {
        return Ok(only_sends(alloc, Sends::new(alloc)));
    }
    open_all(alloc, state)
}
