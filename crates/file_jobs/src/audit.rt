// Audit: the lengths of the present components, and then the rows of all stripes.
ghost use Rattle.std.specs.Prelude.{◌≤◌, ◌<◌, ◌^◌, length, IfOk};
ghost use Rattle.server_rules.specs.declared.limits.TheConstants.{MAX_FILE_COMPONENTS};
ghost use Rattle.server_rules.specs.Audit.{audit_begins, audited, audits, audits_all};
ghost use Rattle.server_rules.specs.Jobs.{audited_on};
ghost use Rattle.stripe_repair.specs.Auditing.{rests_auditing};
ghost use Rattle.file_jobs.specs.Sound.{IsSound, RestsSound};
ghost use Rattle.file_jobs.specs.Steps.{IsSettled, Turns};

use crate::effects::{note, rest};
use crate::job::{Turn, Work};
use osd_lists::Memory;
use server_rules::{AwaitedCommands, Effects, Heard, JobKind, Kept, NoteKind};
use std::alloc::Global;
use stripe_repair::{Ask, Audit, Which, to_all};

// Notes what an audit that is over found.
fn end_audit(kept: &Kept, effects: &mut Effects, audit: &Audit) -> Result<Turn, Memory>
    requires sound { IsSound kept.now }
    ensures turn { IfOk result (λ turn. Turns (λ g. audited g audit.now.tally)
        kept.now effects.old turn kept.now effects.new) }
    ensures settled { IfOk result IsSettled }
    ensures sound { IfOk result (λ turn. RestsSound turn effects.old kept.now effects.new) }
{
    let kind = NoteKind::Audit {
        stripes: kept.high,
        short: audit.short_count(),
        bad: audit.bad_count(),
        bytes: audit.present_lengths(kept.components.as_slice()),
    };
    note(effects, kept.number, kind)?;
    Ok(Turn::Over)
}

// The audit rests on these READs, or is over if there are none.
fn rest_in_audit(
    alloc: Global,
    kept: &Kept,
    effects: &mut Effects,
    audit: Audit,
    reads: AwaitedCommands,
) -> Result<Turn, Memory>
    requires sound { IsSound kept.now }
    requires low { effects.old.nonce < 2 ^ 63 }
    ensures turn { IfOk result (λ turn. Turns (λ g. rests_auditing reads g audit)
        kept.now effects.old turn kept.now effects.new) }
    ensures settled { IfOk result IsSettled }
    ensures sound { IfOk result (λ turn. RestsSound turn effects.old kept.now effects.new) }
{
    if reads.is_empty() {
        return end_audit(kept, effects, &audit);
    }
    rest(
        alloc,
        effects,
        JobKind::Auditing,
        Work::Checks(audit),
        reads,
    )
}

/// Reads the rows of an audit's piece, which begins or begins again.
pub fn read_next_rows(
    alloc: Global,
    kept: &Kept,
    effects: &mut Effects,
    audit: Audit,
) -> Result<Turn, Memory>
    requires sound { IsSound kept.now }
    requires low { effects.old.nonce < 2 ^ 63 }
    ensures turn { IfOk result (λ turn. Turns (λ g. audits g audit.todo audit.tally)
        kept.now effects.old turn kept.now effects.new) }
    ensures settled { IfOk result IsSettled }
    ensures sound { IfOk result (λ turn. RestsSound turn effects.old kept.now effects.new) }
{
    let mut audit = audit;
    let reads = audit.next(alloc, kept, effects.nonce)?;
    rest_in_audit(alloc, kept, effects, audit, reads)
}

/// Judges the rows of an audit's first piece, which are read.
pub fn judge_rows(
    alloc: Global,
    kept: &Kept,
    effects: &mut Effects,
    audit: Audit,
    heard: &[Heard],
) -> Result<Turn, Memory>
    requires sound { IsSound kept.now }
    requires low { effects.old.nonce < 2 ^ 63 }
    ensures turn { IfOk result (λ turn. Turns (λ g. audited_on g audit.todo audit.tally heard.now)
        kept.now effects.old turn kept.now effects.new) }
    ensures settled { IfOk result IsSettled }
    ensures sound { IfOk result (λ turn. RestsSound turn effects.old kept.now effects.new) }
{
    let mut audit = audit;
    let reads = audit.feed(alloc, kept, heard, effects.nonce)?;
    rest_in_audit(alloc, kept, effects, audit, reads)
}

/// The lengths are read, and the stripes of the file come next.
pub fn audit_stripes(
    alloc: Global,
    kept: &Kept,
    effects: &mut Effects,
    heard: &[Heard],
) -> Result<Turn, Memory>
    requires sound { IsSound kept.now }
    requires low { effects.old.nonce < 2 ^ 63 }
    requires few { length heard.now ≤ MAX_FILE_COMPONENTS }
    ensures turn { IfOk result (λ turn. Turns (λ g. audits_all g heard.now)
        kept.now effects.old turn kept.now effects.new) }
    ensures settled { IfOk result IsSettled }
    ensures sound { IfOk result (λ turn. RestsSound turn effects.old kept.now effects.new) }
{
    let audit = Audit::new(alloc, &kept.map, kept.high, heard)?;
    read_next_rows(alloc, kept, effects, audit)
}

/// Begins an audit: reads the lengths of the present components.
#[tactic(auto, unfolding(server_rules::specs::Audit::audit_begins))]
pub fn begin_audit(alloc: Global, kept: &Kept, effects: &mut Effects) -> Result<Turn, Memory>
    requires sound { IsSound kept.now }
    requires low { effects.old.nonce < 2 ^ 63 }
    ensures turn { IfOk result (λ turn. Turns audit_begins kept.now effects.old turn kept.now effects.new) }
    ensures settled { IfOk result IsSettled }
    ensures sound { IfOk result (λ turn. RestsSound turn effects.old kept.now effects.new) }
{
    let measures = to_all(alloc, kept, Which::Every, Ask::Measure, effects.nonce)?;
    if measures.is_empty() {
        return audit_stripes(alloc, kept, effects, &[]);
    }
    rest(alloc, effects, JobKind::Auditing, Work::Lengths, measures)
}
