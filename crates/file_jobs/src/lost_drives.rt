// A drive is declared, at a whole file.
ghost use Rattle.std.specs.Prelude.{◌≡◌, ◌<◌, ◌≤◌, ◌+◌, ◌^◌, Some, length, IfOk, OnOk};
ghost use Rattle.server_rules.specs.Jobs.{declares, is_target, loses, others_than, targets};
ghost use Rattle.stripe_repair.specs.Placing.{AreDifferent, drives_of};
ghost use Rattle.zone_place.specs.declared.loads.TheConstants.{MAX_DRIVES};
ghost use Rattle.file_jobs.specs.Losing.{TurnsIn, target_in};
ghost use Rattle.file_jobs.specs.Sound.{FitsAfterLoss, IsSound, IsSoundFile, Leaves, RestsSound};
ghost use Rattle.file_jobs.specs.Steps.{StepsOn};

use crate::awaited::{Gone, forget};
use crate::components::{any_on, lose_on};
use crate::job::{FileState, RunningJob, Turn, Work};
use crate::next_job::job_after_turn;
use crate::next_stage::go_on_after_loss;
use crate::rebuild::{end_component, fill_next_piece, target_of};
use osd_lists::Memory;
use server_rules::{Effects, Kept, NoteKind, Target};
use std::alloc::Global;
use stripe_repair::{DriveLoad, Place};

// A job goes on without what stood on the drive.
fn go_on_without_drive(
    alloc: Global,
    kept: &mut Kept,
    effects: &mut Effects,
    job: RunningJob,
    drive: u32,
) -> Result<Turn, Memory>
    requires sound { IsSound kept.old }
    requires low { effects.old.nonce < 2 ^ 63 }
    requires job { FitsAfterLoss kept.old (length job.awaited + length job.heard) job.work }
    ensures turn { IfOk result (λ turn. TurnsIn job (λ g. loses g job job.work (others_than drive job.awaited)
        (is_target job.work drive)) kept.old effects.old turn kept.new effects.new) }
    ensures sound { IfOk result (λ turn. RestsSound turn effects.old kept.new effects.new) }
    ensures keeps { OnOk result (Leaves kept.old kept.new) }
{
    match target_of(&job.work) {
        Some(target) => redirect_rebuild(alloc, kept, effects, job, target, drive),
        None => {
            let mut job = job;
            forget(&mut job.awaited, Gone::Drive { drive });
            go_on_after_loss(alloc, kept, effects, job)
        }
    }
}

// A rebuild goes on: its target is gone, or its piece begins again.
fn redirect_rebuild(
    alloc: Global,
    kept: &mut Kept,
    effects: &mut Effects,
    job: RunningJob,
    target: Target,
    drive: u32,
) -> Result<Turn, Memory>
    requires target { target_in job.work ≡ Some target }
    requires sound { IsSound kept.old }
    requires low { effects.old.nonce < 2 ^ 63 }
    requires job { FitsAfterLoss kept.old (length job.awaited + length job.heard) job.work }
    ensures turn { IfOk result (λ turn. TurnsIn job (λ g. loses g job job.work (others_than drive job.awaited)
        (is_target job.work drive)) kept.old effects.old turn kept.new effects.new) }
    ensures sound { IfOk result (λ turn. RestsSound turn effects.old kept.new effects.new) }
    ensures keeps { OnOk result (Leaves kept.old kept.new) }
{
    if target.drive == drive {
        let component = target.component;
        return end_component(kept, effects, target, NoteKind::NoDrive { component });
    }
    let RunningJob {
        kind,
        work,
        awaited,
        heard,
    } = job;
    match work {
        Work::Rebuilds(rebuild) => fill_next_piece(alloc, kept, effects, rebuild),
        work => Ok(Turn::Rests(RunningJob {
            kind,
            work,
            awaited,
            heard,
        })),
    }
}

/// A drive is declared: each component of the file on it becomes missing, and the job goes on without them. The
/// drive isn't online any more among `loads`.
#[tactic(auto, unfolding(server_rules::specs::Jobs::declares))]
pub fn declare<P: Place>(
    alloc: Global,
    file: &mut FileState,
    effects: &mut Effects,
    drive: u32,
    loads: &[DriveLoad],
    placer: &P,
) -> Result<(), Memory>
    requires few { length loads.now ≤ MAX_DRIVES }
    requires different { AreDifferent (drives_of loads.now) }
    requires placer { P.is_placer placer.now }
    requires sound { IsSoundFile file.old }
    requires low { effects.old.nonce < 2 ^ 63 }
    requires objects { effects.old.object < 2 ^ 63 }
    ensures steps { OnOk result (StepsOn (λ g. declares g drive) loads.now file.old effects.old file.new effects.new) }
    ensures keeps { OnOk result (Leaves file.old.kept file.new.kept) }
    ensures sound { OnOk result (IsSoundFile file.new) }
{
    if !any_on(drive, file.kept.components.as_slice()) && !has_target(&file.job, drive) {
        return Ok(());
    }
    file.kept.components = lose_on(alloc, file.kept.components.as_slice(), drive)?;
    let Some(job) = file.job.take() else {
        return Ok(());
    };
    let turn = go_on_without_drive(alloc, &mut file.kept, effects, job, drive)?;
    file.job = job_after_turn(alloc, &file.kept, effects, turn, loads, placer)?;
    Ok(())
}

// The job makes a component on the drive.
fn has_target(job: &Option<RunningJob>, drive: u32) -> bool
    ensures { result ≡ targets job.now drive }
{
    match job {
        Some(job) => match target_of(&job.work) {
            Some(target) => target.drive == drive,
            None => false,
        },
        None => false,
    }
}
