// Rebuild: a missing component is made anew on its target.
ghost use Rattle.std.specs.Prelude.{◌≡◌, ◌<◌, ◌^◌, ℕ, length, IfOk, OnOk};
ghost use Rattle.server_rules.specs.declared.jobs.JobKind.{JobKind as AJobKind};
ghost use Rattle.server_rules.specs.Going.{noting};
ghost use Rattle.server_rules.specs.Jobs.{filled_in, gathered, goes_on};
ghost use Rattle.server_rules.specs.Rebuild.{fills, fills_all, goes_past, rebuilt};
ghost use Rattle.stripe_repair.specs.Filling.{comes_to, fill_work_of, IsFetch, IsReadable, ReadsSome, StagesAs};
ghost use Rattle.file_jobs.specs.Losing.{target_in};
ghost use Rattle.file_jobs.specs.Sound.{CanFill, Fits, IsSound, Leaves, RestsSound};
ghost use Rattle.file_jobs.specs.Steps.{Turns};
ghost use Rattle.file_jobs.specs.Works.{work_of};

use crate::effects::{note, rest};
use crate::job::{Turn, Work};
use osd_lists::Memory;
use server_rules::{AwaitedCommands, Component, Effects, Heard, JobKind, Kept, NoteKind, Target};
use std::alloc::Global;
use stripe_repair::{FillStage, FillStep, Rebuild};

/// The target of a rebuild, `None` if the job is none.
pub fn target_of(work: &Work) -> Option<Target>
    ensures { result ≡ target_in (work_of work.now) }
{
    match work {
        Work::Targets { target } => Some(*target),
        Work::Rebuilds(rebuild) => Some(rebuild.target()),
        _ => None,
    }
}

/// Ends the rebuild of a component with that note; the missing ones behind it are next.
pub fn end_component(
    kept: &Kept,
    effects: &mut Effects,
    target: Target,
    kind: NoteKind,
) -> Result<Turn, Memory>
    requires sound { IsSound kept.now }
    requires target { target.component < length kept.now.components }
    ensures turn { IfOk result (λ turn. Turns (λ g. goes_past (noting g kind) target)
        kept.now effects.old turn kept.now effects.new) }
    ensures sound { IfOk result (λ turn. RestsSound turn effects.old kept.now effects.new) }
{
    note(effects, kept.number, kind)?;
    Ok(Turn::Places {
        from: target.component + 1,
    })
}

// Puts the component on its new drive, where it is made.
fn install(kept: &mut Kept, effects: &mut Effects, target: Target) -> Result<Turn, Memory>
    requires sound { IsSound kept.old }
    requires target { target.component < length kept.old.components }
    ensures turn { IfOk result (λ turn. Turns (λ g. rebuilt g target) kept.old effects.old turn kept.new effects.new) }
    ensures sound { IfOk result (λ turn. RestsSound turn effects.old kept.new effects.new) }
    ensures keeps { OnOk result (Leaves kept.old kept.new) }
{
    let Target {
        component,
        drive,
        object,
    } = target;
    *kept.components.get_mut(component as usize) = Component {
        drive,
        object,
        missing: false,
    };
    end_component(
        kept,
        effects,
        target,
        NoteKind::Rebuilt { component, drive },
    )
}

// What a rebuild does after a step over its pieces.
fn after_fill_step(
    alloc: Global,
    kept: &mut Kept,
    effects: &mut Effects,
    rebuild: Rebuild,
    step: FillStep,
) -> Result<Turn, Memory>
    requires sound { IsSound kept.old }
    requires low { effects.old.nonce < 2 ^ 63 }
    requires fill { CanFill kept.old rebuild.target rebuild.todo }
    requires some { ReadsSome step }
    requires stage { StagesAs step rebuild.stage }
    requires readable { IsFetch step → IsReadable kept.old rebuild }
    ensures turn { IfOk result (λ turn. Turns (λ g. comes_to step g rebuild)
        kept.old effects.old turn kept.new effects.new) }
    ensures sound { IfOk result (λ turn. RestsSound turn effects.old kept.new effects.new) }
    ensures keeps { OnOk result (Leaves kept.old kept.new) }
{
    let target = rebuild.target();
    match step {
        FillStep::Fetch(reads) => {
            let work = Work::Rebuilds(rebuild);
            rest(alloc, effects, JobKind::Rebuilding, work, reads)
        }
        FillStep::Store(write) => {
            let mut writes = AwaitedCommands::new(alloc);
            writes.push(write)?;
            let work = Work::Rebuilds(rebuild);
            rest(alloc, effects, JobKind::Rebuilding, work, writes)
        }
        FillStep::Over => install(kept, effects, target),
        FillStep::Lost { positions } => {
            let component = target.component;
            let kind = NoteKind::Lost {
                component,
                positions,
            };
            end_component(kept, effects, target, kind)
        }
    }
}

/// Makes the first piece of a rebuild, which begins or begins again.
pub fn fill_next_piece(
    alloc: Global,
    kept: &mut Kept,
    effects: &mut Effects,
    rebuild: Rebuild,
) -> Result<Turn, Memory>
    requires sound { IsSound kept.old }
    requires low { effects.old.nonce < 2 ^ 63 }
    requires fill { CanFill kept.old rebuild.target rebuild.todo }
    ensures turn { IfOk result (λ turn. Turns (λ g. fills g rebuild.target rebuild.todo)
        kept.old effects.old turn kept.new effects.new) }
    ensures sound { IfOk result (λ turn. RestsSound turn effects.old kept.new effects.new) }
    ensures keeps { OnOk result (Leaves kept.old kept.new) }
{
    let mut rebuild = rebuild;
    let step = rebuild.next(alloc, kept, effects.nonce)?;
    after_fill_step(alloc, kept, effects, rebuild, step)
}

/// The object of the target is made, and the pieces of the component come next.
pub fn fill_component(
    alloc: Global,
    kept: &mut Kept,
    effects: &mut Effects,
    target: Target,
) -> Result<Turn, Memory>
    requires sound { IsSound kept.old }
    requires low { effects.old.nonce < 2 ^ 63 }
    requires target { target.component < length kept.old.components }
    ensures turn { IfOk result (λ turn. Turns (λ g. fills_all g target) kept.old effects.old turn kept.new effects.new) }
    ensures sound { IfOk result (λ turn. RestsSound turn effects.old kept.new effects.new) }
    ensures keeps { OnOk result (Leaves kept.old kept.new) }
{
    let rebuild = Rebuild::new(kept.map, target, kept.high);
    fill_next_piece(alloc, kept, effects, rebuild)
}

// Feeds a rebuild the sources of its first piece, which are read.
fn feed_sources(
    alloc: Global,
    kept: &mut Kept,
    effects: &mut Effects,
    rebuild: Rebuild,
    heard: &[Heard],
) -> Result<Turn, Memory>
    requires sound { IsSound kept.old }
    requires low { effects.old.nonce < 2 ^ 63 }
    requires fill { CanFill kept.old rebuild.target rebuild.todo }
    requires readable { IsReadable kept.old rebuild }
    ensures turn { IfOk result (λ turn. Turns (λ g. gathered g rebuild.target rebuild.todo heard.now)
        kept.old effects.old turn kept.new effects.new) }
    ensures sound { IfOk result (λ turn. RestsSound turn effects.old kept.new effects.new) }
    ensures keeps { OnOk result (Leaves kept.old kept.new) }
{
    let mut rebuild = rebuild;
    let step = rebuild.feed(alloc, kept, heard, effects.nonce)?;
    after_fill_step(alloc, kept, effects, rebuild, step)
}

// Goes past the first piece of a rebuild, which is written.
fn go_on_after_write(
    alloc: Global,
    kept: &mut Kept,
    effects: &mut Effects,
    rebuild: Rebuild,
) -> Result<Turn, Memory>
    requires sound { IsSound kept.old }
    requires low { effects.old.nonce < 2 ^ 63 }
    requires fill { CanFill kept.old rebuild.target rebuild.todo }
    ensures turn { IfOk result (λ turn. Turns (λ g. filled_in g rebuild.target rebuild.todo)
        kept.old effects.old turn kept.new effects.new) }
    ensures sound { IfOk result (λ turn. RestsSound turn effects.old kept.new effects.new) }
    ensures keeps { OnOk result (Leaves kept.old kept.new) }
{
    let mut rebuild = rebuild;
    let step = rebuild.stored(alloc, kept, effects.nonce)?;
    after_fill_step(alloc, kept, effects, rebuild, step)
}

/// Feeds a rebuild the replies to what it sent for its first piece.
pub fn feed_rebuild(
    alloc: Global,
    kept: &mut Kept,
    effects: &mut Effects,
    rebuild: Rebuild,
    heard: &[Heard],
) -> Result<Turn, Memory>
    requires sound { IsSound kept.old }
    requires low { effects.old.nonce < 2 ^ 63 }
    requires fits { Fits kept.old (length heard.now) (fill_work_of rebuild) }
    ensures turn { IfOk result (λ turn. (kind : AJobKind) → Turns (goes_on kind (fill_work_of rebuild) heard.now)
        kept.old effects.old turn kept.new effects.new) }
    ensures sound { IfOk result (λ turn. RestsSound turn effects.old kept.new effects.new) }
    ensures keeps { OnOk result (Leaves kept.old kept.new) }
{
    match rebuild.stage() {
        FillStage::Gathering => feed_sources(alloc, kept, effects, rebuild, heard),
        FillStage::Filling => go_on_after_write(alloc, kept, effects, rebuild),
    }
}
