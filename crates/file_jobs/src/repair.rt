// Repair: the stripes of the ended grants become codewords of their data, equal in all replicas.
ghost use Rattle.std.specs.Prelude.{◌≡◌, ◌<◌, ◌^◌, IfOk, OnOk};
ghost use Rattle.server_rules.specs.Jobs.{goes_on};
ghost use Rattle.server_rules.specs.Repair.{mended, repair_begins, repairs};
ghost use Rattle.stripe_repair.specs.Repairing.{rests_repairing, work_of};
ghost use Rattle.file_jobs.specs.Sound.{IsSound, Leaves, RestsSound};
ghost use Rattle.file_jobs.specs.Steps.{GoesOnAs, Makes, Turns};

use crate::effects::{note, rest};
use crate::job::{Turn, Work};
use crate::ranges::{count_stripes, merged};
use osd_lists::{Memory, Sequence, Times};
use server_rules::{AwaitedCommands, Effects, Heard, JobKind, Kept, Mended, NoteKind, Phase};
use std::alloc::Global;
use stripe_repair::Repair;

// Ends a repair, which left these stripes short.
fn end_repair(
    alloc: Global,
    kept: &mut Kept,
    effects: &mut Effects,
    short: &[u64],
) -> Result<(), Memory>
    requires { IsSound kept.old }
    ensures made { OnOk result (Makes (λ g. mended g short.now) kept.old effects.old kept.new effects.new) }
    ensures keeps { OnOk result (Leaves kept.old kept.new) }
{
    let worked = merged(alloc, kept.ended.as_slice())?;
    let kind = NoteKind::Repaired {
        stripes: count_stripes(worked.as_slice()),
        short: short.len() as u64,
    };
    note(effects, kept.number, kind)?;
    kept.ended = Sequence::new(alloc);
    kept.phase = Phase::Still;
    effects.mended.push(Mended {
        file: kept.number,
        worked,
        short: Times::copied(alloc, short)?,
    })
}

// The repair rests on these commands, or is over if there are none.
fn rest_in_repair(
    alloc: Global,
    kept: &mut Kept,
    effects: &mut Effects,
    kind: JobKind,
    repair: Repair,
    sends: AwaitedCommands,
) -> Result<Turn, Memory>
    requires sound { IsSound kept.old }
    requires low { effects.old.nonce < 2 ^ 63 }
    ensures turn { IfOk result (λ turn. Turns (λ g. rests_repairing sends g kind repair)
        kept.old effects.old turn kept.new effects.new) }
    ensures kind { IfOk result (GoesOnAs kind) }
    ensures sound { IfOk result (λ turn. RestsSound turn effects.old kept.new effects.new) }
    ensures keeps { OnOk result (Leaves kept.old kept.new) }
{
    if sends.is_empty() {
        end_repair(alloc, kept, effects, repair.short())?;
        return Ok(Turn::Mended { kind });
    }
    rest(alloc, effects, kind, Work::Repairs(repair), sends)
}

/// Works the first piece of a repair, which begins or begins again.
pub fn repair_next_piece(
    alloc: Global,
    kept: &mut Kept,
    effects: &mut Effects,
    kind: JobKind,
    repair: Repair,
) -> Result<Turn, Memory>
    requires sound { IsSound kept.old }
    requires low { effects.old.nonce < 2 ^ 63 }
    ensures turn { IfOk result (λ turn. Turns (λ g. repairs kind g repair.todo repair.short)
        kept.old effects.old turn kept.new effects.new) }
    ensures kind { IfOk result (GoesOnAs kind) }
    ensures sound { IfOk result (λ turn. RestsSound turn effects.old kept.new effects.new) }
    ensures keeps { OnOk result (Leaves kept.old kept.new) }
{
    let mut repair = repair;
    let sends = repair.next(alloc, kept, effects.nonce)?;
    rest_in_repair(alloc, kept, effects, kind, repair, sends)
}

/// Feeds a repair the replies to what it sent.
pub fn feed_repair(
    alloc: Global,
    kept: &mut Kept,
    effects: &mut Effects,
    kind: JobKind,
    repair: Repair,
    heard: &[Heard],
) -> Result<Turn, Memory>
    requires sound { IsSound kept.old }
    requires low { effects.old.nonce < 2 ^ 63 }
    ensures turn { IfOk result (λ turn. Turns (goes_on kind (work_of repair) heard.now)
        kept.old effects.old turn kept.new effects.new) }
    ensures kind { IfOk result (GoesOnAs kind) }
    ensures sound { IfOk result (λ turn. RestsSound turn effects.old kept.new effects.new) }
    ensures keeps { OnOk result (Leaves kept.old kept.new) }
{
    let mut repair = repair;
    let sends = repair.feed(alloc, kept, heard, effects.nonce)?;
    rest_in_repair(alloc, kept, effects, kind, repair, sends)
}

/// Begins the repair of the stripes of ended grants.
#[tactic(auto, unfolding(server_rules::specs::Repair::repair_begins))]
pub fn begin_repair(
    alloc: Global,
    kept: &mut Kept,
    effects: &mut Effects,
    kind: JobKind,
) -> Result<Turn, Memory>
    requires sound { IsSound kept.old }
    requires low { effects.old.nonce < 2 ^ 63 }
    ensures turn { IfOk result (λ turn. Turns (repair_begins kind) kept.old effects.old turn kept.new effects.new) }
    ensures kind { IfOk result (GoesOnAs kind) }
    ensures sound { IfOk result (λ turn. RestsSound turn effects.old kept.new effects.new) }
    ensures keeps { OnOk result (Leaves kept.old kept.new) }
{
    let ranges = merged(alloc, kept.ended.as_slice())?;
    let repair = Repair::new(alloc, &kept.map, ranges);
    repair_next_piece(alloc, kept, effects, kind, repair)
}
