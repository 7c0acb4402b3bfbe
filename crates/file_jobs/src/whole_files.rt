// Steps at a whole file.
ghost use Rattle.std.specs.Prelude.{[], ◌≡◌, ◌<◌, ◌≤◌, ◌^◌, length, OnOk};
ghost use Rattle.server_rules.specs.declared.files.Kept.{Kept};
ghost use Rattle.server_rules.specs.declared.jobs.JobKind.TheVariants.{Revoking};
ghost use Rattle.server_rules.specs.declared.limits.TheConstants.{GREATEST_TAG};
ghost use Rattle.server_rules.specs.declared.server.Effects.{Effects as TheEffects};
ghost use Rattle.server_rules.specs.Jobs.{fence_begins, making};
ghost use Rattle.stripe_repair.specs.Placing.{AreDifferent, drives_of};
ghost use Rattle.zone_place.specs.declared.loads.TheConstants.{MAX_DRIVES};
ghost use Rattle.file_jobs.specs.Sound.{HasSoundJob, IsSound, IsSoundFile, Leaves, RestsSound};
ghost use Rattle.file_jobs.specs.Steps.{GoesOnAs, IsSettled, SetsJob, Steps, StepsOn};

use crate::fences::{begin_fence, begin_making};
use crate::job::{FileState, RunningJob, Turn};
use crate::next_job::job_after_turn;
use osd_lists::Memory;
use server_rules::{Effects, JobKind};
use std::alloc::Global;
use stripe_repair::{DriveLoad, Place};

/// The job that rests after a turn, `None` if it is over.
pub fn job_of(turn: Turn) -> Option<RunningJob>
    requires { IsSettled turn }
    ensures value { SetsJob turn result }
    ensures sound { (k : Kept) (was is : TheEffects) → RestsSound turn was k is → HasSoundJob k result }
{
    match turn {
        Turn::Rests(job) => Some(job),
        Turn::Over | Turn::Mended { .. } | Turn::Places { .. } => None,
    }
}

// The job that rests after a turn of one that ends with its repair, `None` if it is over.
fn job_after(turn: Turn) -> Option<RunningJob>
    requires { GoesOnAs Revoking turn }
    ensures value { SetsJob turn result }
    ensures sound { (k : Kept) (was is : TheEffects) → RestsSound turn was k is → HasSoundJob k result }
{
    match turn {
        Turn::Rests(job) => Some(job),
        Turn::Over | Turn::Mended { .. } | Turn::Places { .. } => None,
    }
}

/// The present components of a new file are sent CREATE.
pub fn make(alloc: Global, file: &mut FileState, effects: &mut Effects) -> Result<(), Memory>
    requires sound { IsSound file.old.kept }
    requires alone { file.old.kept.grants ≡ [] }
    requires low { effects.old.nonce < 2 ^ 63 }
    ensures steps { OnOk result (Steps making file.old effects.old file.new effects.new) }
    ensures keeps { OnOk result (Leaves file.old.kept file.new.kept) }
    ensures sound { OnOk result (IsSoundFile file.new) }
{
    let turn = begin_making(alloc, &mut file.kept, effects)?;
    file.job = job_of(turn);
    Ok(())
}

/// A fence begins, with the repair behind it and nothing else. The server's format is taken where it is above
/// the file's.
pub fn revoke(
    alloc: Global,
    file: &mut FileState,
    effects: &mut Effects,
    format: u8,
) -> Result<(), Memory>
    requires sound { IsSound file.old.kept }
    requires low { effects.old.nonce < 2 ^ 63 }
    requires next { file.old.kept.tag < GREATEST_TAG }
    ensures steps { OnOk result (Steps (fence_begins Revoking format) file.old effects.old file.new effects.new) }
    ensures keeps { OnOk result (Leaves file.old.kept file.new.kept) }
    ensures sound { OnOk result (IsSoundFile file.new) }
{
    let turn = begin_fence(alloc, &mut file.kept, effects, JobKind::Revoking, format)?;
    file.job = job_after(turn);
    Ok(())
}

/// A fence begins for a job of any kind, with the repair behind it and what the job is for. The server's format
/// is taken where it is above the file's.
pub fn begin<P: Place>(
    alloc: Global,
    file: &mut FileState,
    effects: &mut Effects,
    kind: JobKind,
    format: u8,
    loads: &[DriveLoad],
    placer: &P,
) -> Result<(), Memory>
    requires few { length loads.now ≤ MAX_DRIVES }
    requires different { AreDifferent (drives_of loads.now) }
    requires placer { P.is_placer placer.now }
    requires sound { IsSound file.old.kept }
    requires low { effects.old.nonce < 2 ^ 63 }
    requires objects { effects.old.object < 2 ^ 63 }
    requires next { file.old.kept.tag < GREATEST_TAG }
    ensures steps { OnOk result (StepsOn (fence_begins kind format) loads.now file.old effects.old file.new effects.new) }
    ensures keeps { OnOk result (Leaves file.old.kept file.new.kept) }
    ensures sound { OnOk result (IsSoundFile file.new) }
{
    let turn = begin_fence(alloc, &mut file.kept, effects, kind, format)?;
    file.job = job_after_turn(alloc, &file.kept, effects, turn, loads, placer)?;
    Ok(())
}
