// A file is made, and a fence raises its tag.
ghost use Rattle.std.specs.Prelude.{[], ◌≡◌, ◌<◌, ◌^◌, IfOk, OnOk};
ghost use Rattle.server_rules.specs.declared.limits.TheConstants.{GREATEST_TAG};
ghost use Rattle.server_rules.specs.Jobs.{fence_begins, fenced, fences, is_made, making};
ghost use Rattle.file_jobs.specs.Sound.{IsSound, Leaves, RestsSound};
ghost use Rattle.file_jobs.specs.Steps.{GoesOnAs, IsSettled, Turns};

use crate::effects::{note, rest};
use crate::ended_grants::end_grants;
use crate::job::{Turn, Work};
use crate::repair::begin_repair;
use osd_lists::Memory;
use server_rules::{Effects, JobKind, Kept, NoteKind, Phase};
use std::alloc::Global;
use stripe_repair::{Ask, Which, to_all};

/// Notes that a file is ready: each component was made, or is missing.
pub fn end_making(kept: &mut Kept, effects: &mut Effects) -> Result<Turn, Memory>
    ensures turn { IfOk result (λ turn. Turns is_made kept.old effects.old turn kept.new effects.new) }
    ensures settled { IfOk result IsSettled }
    ensures sound { IfOk result (λ turn. RestsSound turn effects.old kept.new effects.new) }
    ensures keeps { OnOk result (Leaves kept.old kept.new) }
{
    kept.ready = true;
    note(effects, kept.number, NoteKind::Ready)?;
    Ok(Turn::Over)
}

/// Begins to make a file: its present components are sent CREATE.
#[tactic(auto, unfolding(server_rules::specs::Jobs::making))]
pub fn begin_making(alloc: Global, kept: &mut Kept, effects: &mut Effects) -> Result<Turn, Memory>
    requires sound { IsSound kept.old }
    requires low { effects.old.nonce < 2 ^ 63 }
    ensures turn { IfOk result (λ turn. Turns making kept.old effects.old turn kept.new effects.new) }
    ensures settled { IfOk result IsSettled }
    ensures sound { IfOk result (λ turn. RestsSound turn effects.old kept.new effects.new) }
    ensures keeps { OnOk result (Leaves kept.old kept.new) }
{
    let creates = to_all(alloc, kept, Which::Every, Ask::Create, effects.nonce)?;
    if creates.is_empty() {
        return end_making(kept, effects);
    }
    rest(alloc, effects, JobKind::Making, Work::Creates, creates)
}

/// Ends a fence: each present component has the next tag, and the repair begins.
#[tactic(auto, unfolding(server_rules::specs::Jobs::fenced))]
pub fn end_fence(
    alloc: Global,
    kept: &mut Kept,
    effects: &mut Effects,
    kind: JobKind,
) -> Result<Turn, Memory>
    requires sound { IsSound kept.old }
    requires low { effects.old.nonce < 2 ^ 63 }
    requires next { kept.old.tag < GREATEST_TAG }
    ensures turn { IfOk result (λ turn. Turns (fenced kind) kept.old effects.old turn kept.new effects.new) }
    ensures kind { IfOk result (GoesOnAs kind) }
    ensures sound { IfOk result (λ turn. RestsSound turn effects.old kept.new effects.new) }
    ensures keeps { OnOk result (Leaves kept.old kept.new) }
{
    kept.tag += 1;
    kept.phase = Phase::Repairing;
    note(effects, kept.number, NoteKind::Fenced { tag: kept.tag })?;
    begin_repair(alloc, kept, effects, kind)
}

// Sends the next tag to the present components.
fn send_next_tag(
    alloc: Global,
    kept: &mut Kept,
    effects: &mut Effects,
    kind: JobKind,
) -> Result<Turn, Memory>
    requires sound { IsSound kept.old }
    requires low { effects.old.nonce < 2 ^ 63 }
    requires next { kept.old.tag < GREATEST_TAG }
    ensures turn { IfOk result (λ turn. Turns (fences kind) kept.old effects.old turn kept.new effects.new) }
    ensures kind { IfOk result (GoesOnAs kind) }
    ensures sound { IfOk result (λ turn. RestsSound turn effects.old kept.new effects.new) }
    ensures keeps { OnOk result (Leaves kept.old kept.new) }
{
    let raises = to_all(alloc, kept, Which::Every, Ask::Raise, effects.nonce)?;
    if raises.is_empty() {
        return end_fence(alloc, kept, effects, kind);
    }
    rest(alloc, effects, kind, Work::Fences, raises)
}

/// Begins a fence: all grants end, and the present components are sent the next tag.
#[tactic(auto, unfolding(server_rules::specs::Jobs::fence_begins))]
pub fn begin_fence(
    alloc: Global,
    kept: &mut Kept,
    effects: &mut Effects,
    kind: JobKind,
    format: u8,
) -> Result<Turn, Memory>
    requires sound { IsSound kept.old }
    requires low { effects.old.nonce < 2 ^ 63 }
    requires next { kept.old.tag < GREATEST_TAG }
    ensures turn { IfOk result (λ turn. Turns (fence_begins kind format) kept.old effects.old turn kept.new effects.new) }
    ensures alone { OnOk result (kept.new.grants ≡ []) }
    ensures kind { IfOk result (GoesOnAs kind) }
    ensures sound { IfOk result (λ turn. RestsSound turn effects.old kept.new effects.new) }
    ensures keeps { OnOk result (Leaves kept.old kept.new) }
{
    end_grants(alloc, kept, format)?;
    send_next_tag(alloc, kept, effects, kind)
}
