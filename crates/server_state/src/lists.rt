// Which replies the files await, and how many components stand on each drive.
ghost use Rattle.std.specs.Prelude.{◌≡◌, ◌==◌, ◌&&◌, ◌||◌, ℕ, not, IfOk, OnOk};
ghost use Rattle.server_state.specs.Index.{has};
ghost use Rattle.server_state.specs.Replies.{job_awaits, AreListed};
ghost use Rattle.server_state.specs.Standing.{AreCounted};
ghost use Rattle.server_state.specs.States.{server_of, IsGood, IsGoodBut, IsReady};

use crate::counts::DriveCounts;
use crate::index::ReplyIndex;
use crate::state::{Files, State};
use file_jobs::FileState;
use osd_lists::Memory;
use std::alloc::Global;

// What the file's job awaits isn't listed any more.
fn remove_of(replies: &mut ReplyIndex, number: u32, file: &FileState)
    ensures { (x d m : ℕ) →
        has replies.new x d m ≡ (not ((number == m) && job_awaits file.now.job x d) && has replies.old x d m) }
{
    match &file.job {
        Some(job) => replies.remove_all(number, job.awaited.as_slice()),
        None => {}
    }
}

// What the file's job awaits is listed.
fn add_of(replies: &mut ReplyIndex, number: u32, file: &FileState) -> Result<(), Memory>
    ensures { OnOk result ((x d m : ℕ) →
        has replies.new x d m ≡ ((number == m) && job_awaits file.now.job x d || has replies.old x d m)) }
{
    match &file.job {
        Some(job) => replies.add_all(number, job.awaited.as_slice()),
        None => Ok(()),
    }
}

/// A step at the file of that number begins: what its job awaits isn't listed until the step is over, and its
/// components aren't counted.
pub fn unlist(state: &mut State, number: u32)
    requires { IsGood state.old }
    ensures good { IsGoodBut number state.new }
    ensures server { server_of state.new ≡ server_of state.old }
    ensures files { state.new.files ≡ state.old.files }
{
    match state.files.get(&number) {
        Some(file) => {
            remove_of(&mut state.replies, number, file);
            state.counts.remove(file.kept.components.as_slice());
        }
        None => {}
    }
}

/// The step at the file of that number is over: what its job awaits is listed, and its components are counted.
///
/// # Errors
///
/// Want of memory; and, in place of it, a count of components without room in 64 bits.
pub fn list(state: &mut State, number: u32) -> Result<(), Memory>
    requires { IsGoodBut number state.old }
    ensures good { OnOk result (IsGood state.new) }
    ensures server { OnOk result (server_of state.new ≡ server_of state.old) }
{
    match state.files.get(&number) {
        Some(file) => {
            add_of(&mut state.replies, number, file)?;
            state.counts.add(file.kept.components.as_slice())
        }
        None => Ok(()),
    }
}

// The list of what all files await.
fn list_of(alloc: Global, files: &Files) -> Result<ReplyIndex, Memory>
    ensures { IfOk result (λ replies. AreListed replies files.now.entries) }
{
    let mut replies = ReplyIndex::new(alloc);
    for (number, file) in files.iter() {
        add_of(&mut replies, *number, file)?;
    }
    Ok(replies)
}

// The counts of the components of all files.
fn counts_of(files: &Files) -> Result<DriveCounts, Memory>
    ensures { IfOk result (λ counts. AreCounted counts files.now.entries) }
{
    let mut counts = DriveCounts::new();
    for (_, file) in files.iter() {
        counts.add(file.kept.components.as_slice())?;
    }
    Ok(counts)
}

/// A step at all files is over: what they await is listed anew, and their components are counted anew.
///
/// # Errors
///
/// Want of memory; and, in place of it, a count of components without room in 64 bits.
pub fn list_all(alloc: Global, state: &mut State) -> Result<(), Memory>
    requires { IsReady state.old }
    ensures good { OnOk result (IsGood state.new) }
    ensures server { OnOk result (server_of state.new ≡ server_of state.old) }
{
    state.replies = list_of(alloc, &state.files)?;
    state.counts = counts_of(&state.files)?;
    Ok(())
}
