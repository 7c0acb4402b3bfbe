// A drive's reply at a whole file.
ghost use Rattle.std.specs.Prelude.{◌<◌, ◌≤◌, ◌^◌, length, IfOk, IfSome, IfNone, OnOk};
ghost use Rattle.stripe_repair.specs.Placing.{AreDifferent, drives_of};
ghost use Rattle.zone_place.specs.declared.loads.TheConstants.{MAX_DRIVES};
ghost use Rattle.file_jobs.specs.Heard.{FoundIn, FoundNowhere, HearsReply};
ghost use Rattle.file_jobs.specs.Sound.{IsSoundFile, Leaves};

use crate::awaited::answered_by;
use crate::job::{FileState, RunningJob};
use crate::next_job::job_after_turn;
use crate::replies::take_reply;
use osd_commands::Reply;
use osd_lists::Memory;
use server_rules::Effects;
use std::alloc::Global;
use stripe_repair::{DriveLoad, Place};

// The place of the command that a reply of this drive answers, `None` where there is none.
fn place_of(job: &Option<RunningJob>, drive: u32, reply: &Reply) -> Option<usize>
    ensures found { IfSome result (λ place. FoundIn drive reply.now place job.now) }
    ensures none { IfNone result (FoundNowhere drive reply.now job.now) }
{
    match job {
        Some(job) => answered_by(job.awaited.as_slice(), drive, reply),
        None => None,
    }
}

/// A reply of a drive, if the file's job awaits it: whether it does. Where it doesn't nothing changes.
#[tactic(auto, unfolding(server_rules::specs::Replies::on_reply))]
pub fn on_reply<P: Place>(
    alloc: Global,
    file: &mut FileState,
    effects: &mut Effects,
    drive: u32,
    reply: &Reply,
    loads: &[DriveLoad],
    placer: &P,
) -> Result<bool, Memory>
    requires few { length loads.now ≤ MAX_DRIVES }
    requires different { AreDifferent (drives_of loads.now) }
    requires placer { P.is_placer placer.now }
    requires sound { IsSoundFile file.old }
    requires low { effects.old.nonce < 2 ^ 63 }
    requires objects { effects.old.object < 2 ^ 63 }
    ensures heard { IfOk result (λ heard. HearsReply heard loads.now drive reply.now
        file.old effects.old file.new effects.new) }
    ensures keeps { OnOk result (Leaves file.old.kept file.new.kept) }
    ensures sound { OnOk result (IsSoundFile file.new) }
{
    let Some(place) = place_of(&file.job, drive, reply) else {
        return Ok(false);
    };
    let Some(job) = file.job.take() else {
        return Ok(false);
    };
    let turn = take_reply(alloc, &mut file.kept, effects, job, place, reply)?;
    file.job = job_after_turn(alloc, &file.kept, effects, turn, loads, placer)?;
    Ok(true)
}
