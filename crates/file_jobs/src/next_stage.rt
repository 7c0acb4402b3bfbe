// What comes when nothing is awaited any more, and when a component is lost meanwhile.
ghost use Rattle.std.specs.Prelude.{◌≡◌, ◌<◌, ◌^◌, false, None, length, IfOk, OnOk};
ghost use Rattle.server_rules.specs.Jobs.{goes_on, loses, waits_or_on};
ghost use Rattle.file_jobs.specs.Sound.{Fits, IsSound, IsSoundJob, Leaves, RestsSound};
ghost use Rattle.file_jobs.specs.Steps.{Turns};
ghost use Rattle.file_jobs.specs.Losing.{loses_in_repair, target_in};
ghost use Rattle.file_jobs.specs.Works.{work_of};

use crate::audit::{audit_stripes, judge_rows, read_next_rows};
use crate::fences::{end_fence, end_making};
use crate::job::{RunningJob, Turn, Work};
use crate::rebuild::{feed_rebuild, fill_component};
use crate::repair::{feed_repair, repair_next_piece};
use osd_lists::{Memory, Sequence};
use server_rules::{AwaitedCommands, Effects, Heard, JobKind, Kept};
use std::alloc::Global;
use stripe_repair::{Repair, Stage};

// The next part of a job, all of whose commands are answered.
#[tactic(auto, unfolding(server_rules::specs::Jobs::goes_on))]
fn go_on(
    alloc: Global,
    kept: &mut Kept,
    effects: &mut Effects,
    kind: JobKind,
    work: Work,
    heard: &[Heard],
) -> Result<Turn, Memory>
    requires sound { IsSound kept.old }
    requires low { effects.old.nonce < 2 ^ 63 }
    requires fits { Fits kept.old (length heard.now) (work_of work) }
    ensures turn { IfOk result (λ turn. Turns (goes_on kind (work_of work) heard.now)
        kept.old effects.old turn kept.new effects.new) }
    ensures sound { IfOk result (λ turn. RestsSound turn effects.old kept.new effects.new) }
    ensures keeps { OnOk result (Leaves kept.old kept.new) }
{
    match work {
        Work::Creates => end_making(kept, effects),
        Work::Fences => end_fence(alloc, kept, effects, kind),
        Work::Repairs(repair) => feed_repair(alloc, kept, effects, kind, repair, heard),
        Work::Targets { target } => fill_component(alloc, kept, effects, target),
        Work::Rebuilds(rebuild) => feed_rebuild(alloc, kept, effects, rebuild, heard),
        Work::Lengths => audit_stripes(alloc, kept, effects, heard),
        Work::Checks(audit) => judge_rows(alloc, kept, effects, audit, heard),
    }
}

/// A job waits for the commands that are left, or goes on if there are none.
pub fn wait_or_go_on(
    alloc: Global,
    kept: &mut Kept,
    effects: &mut Effects,
    job: RunningJob,
) -> Result<Turn, Memory>
    requires sound { IsSound kept.old }
    requires low { effects.old.nonce < 2 ^ 63 }
    requires job { IsSoundJob kept.old job }
    ensures turn { IfOk result (λ turn. Turns (λ g. waits_or_on g job job.work job.awaited job.heard)
        kept.old effects.old turn kept.new effects.new) }
    ensures sound { IfOk result (λ turn. RestsSound turn effects.old kept.new effects.new) }
    ensures keeps { OnOk result (Leaves kept.old kept.new) }
{
    if !job.awaited.is_empty() {
        return Ok(Turn::Rests(job));
    }
    let RunningJob {
        kind,
        work,
        heard,
        ..
    } = job;
    go_on(alloc, kept, effects, kind, work, heard.as_slice())
}

// A repair goes on after a component of the file became missing.
fn lose_in_repair(
    alloc: Global,
    kept: &mut Kept,
    effects: &mut Effects,
    kind: JobKind,
    repair: Repair,
    awaited: AwaitedCommands,
    heard: Sequence<Heard>,
) -> Result<Turn, Memory>
    requires sound { IsSound kept.old }
    requires low { effects.old.nonce < 2 ^ 63 }
    ensures turn { IfOk result (λ turn. Turns (λ g. loses_in_repair g kind repair awaited heard)
        kept.old effects.old turn kept.new effects.new) }
    ensures sound { IfOk result (λ turn. RestsSound turn effects.old kept.new effects.new) }
    ensures keeps { OnOk result (Leaves kept.old kept.new) }
{
    let mut repair = repair;
    match repair.stage() {
        Stage::Fetching => repair_next_piece(alloc, kept, effects, kind, repair),
        Stage::Storing { .. } => {
            repair.drop_component();
            let work = Work::Repairs(repair);
            let job = RunningJob {
                kind,
                work,
                awaited,
                heard,
            };
            wait_or_go_on(alloc, kept, effects, job)
        }
    }
}

/// A job that isn't a rebuild goes on after a component of the file became missing; it awaits what others are to answer.
#[tactic(auto, unfolding(server_rules::specs::Jobs::loses))]
pub fn go_on_after_loss(
    alloc: Global,
    kept: &mut Kept,
    effects: &mut Effects,
    job: RunningJob,
) -> Result<Turn, Memory>
    requires sound { IsSound kept.old }
    requires low { effects.old.nonce < 2 ^ 63 }
    requires job { IsSoundJob kept.old job }
    requires target { target_in job.work ≡ None }
    ensures turn { IfOk result (λ turn. Turns (λ g. loses g job job.work job.awaited false)
        kept.old effects.old turn kept.new effects.new) }
    ensures sound { IfOk result (λ turn. RestsSound turn effects.old kept.new effects.new) }
    ensures keeps { OnOk result (Leaves kept.old kept.new) }
{
    let RunningJob {
        kind,
        work,
        awaited,
        heard,
    } = job;
    match work {
        Work::Repairs(repair) => lose_in_repair(alloc, kept, effects, kind, repair, awaited, heard),
        Work::Checks(audit) => read_next_rows(alloc, kept, effects, audit),
        work => wait_or_go_on(
            alloc,
            kept,
            effects,
            RunningJob {
                kind,
                work,
                awaited,
                heard,
            },
        ),
    }
}
