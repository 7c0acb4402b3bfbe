// The job that rests at the end of a step: where a repair, or the rebuild of a component, is over, the placer is asked.
ghost use Rattle.std.specs.Prelude.{◌<◌, ◌≤◌, ◌^◌, length, IfOk};
ghost use Rattle.stripe_repair.specs.Placing.{AreDifferent, drives_of};
ghost use Rattle.zone_place.specs.declared.loads.TheConstants.{MAX_DRIVES};
ghost use Rattle.file_jobs.specs.declared.job.Turn.TheVariants.{Mended as IsMended};
ghost use Rattle.file_jobs.specs.Sound.{HasSoundJob, IsSound, RestsLow};
ghost use Rattle.file_jobs.specs.Steps.{Settles};

use crate::audit::begin_audit;
use crate::job::{RunningJob, Turn};
use crate::places::place_missing;
use crate::whole_files::job_of;
use osd_lists::Memory;
use server_rules::{Effects, JobKind, Kept};
use std::alloc::Global;
use stripe_repair::{DriveLoad, Place};

// Begins what a job of that kind does after its repair.
fn begin_work_after_repair<P: Place>(
    alloc: Global,
    kept: &Kept,
    effects: &mut Effects,
    kind: JobKind,
    loads: &[DriveLoad],
    placer: &P,
) -> Result<Option<RunningJob>, Memory>
    requires few { length loads.now ≤ MAX_DRIVES }
    requires different { AreDifferent (drives_of loads.now) }
    requires placer { P.is_placer placer.now }
    requires sound { IsSound kept.now }
    requires low { effects.old.nonce < 2 ^ 63 }
    requires objects { effects.old.object < 2 ^ 63 }
    ensures job { IfOk result (λ job. Settles (IsMended kind) loads.now kept.now effects.old job effects.new) }
    ensures sound { IfOk result (HasSoundJob kept.now) }
{
    match kind {
        JobKind::Making | JobKind::Revoking => Ok(None),
        JobKind::Rebuilding => {
            let turn = place_missing(alloc, kept, effects, 0, loads, placer)?;
            Ok(job_of(turn))
        }
        JobKind::Auditing => {
            let turn = begin_audit(alloc, kept, effects)?;
            Ok(job_of(turn))
        }
    }
}

/// The job that rests after a turn, `None` if it is over. The placer is asked if components are missing.
pub fn job_after_turn<P: Place>(
    alloc: Global,
    kept: &Kept,
    effects: &mut Effects,
    turn: Turn,
    loads: &[DriveLoad],
    placer: &P,
) -> Result<Option<RunningJob>, Memory>
    requires few { length loads.now ≤ MAX_DRIVES }
    requires different { AreDifferent (drives_of loads.now) }
    requires placer { P.is_placer placer.now }
    requires sound { IsSound kept.now }
    requires turn { RestsLow turn kept.now effects.old }
    ensures job { IfOk result (λ job. Settles turn loads.now kept.now effects.old job effects.new) }
    ensures sound { IfOk result (HasSoundJob kept.now) }
{
    match turn {
        Turn::Over => Ok(None),
        Turn::Rests(job) => Ok(Some(job)),
        Turn::Mended { kind } => begin_work_after_repair(alloc, kept, effects, kind, loads, placer),
        Turn::Places { from } => {
            let turn = place_missing(alloc, kept, effects, from, loads, placer)?;
            Ok(job_of(turn))
        }
    }
}
