// A step that goes through all files.
ghost use Rattle.std.specs.Prelude.{◌≡◌, ◌<◌, ◌^◌, List, OnOk};
ghost use Rattle.std.specs.Ordering.{nat_cmp};
ghost use Rattle.std.specs.BTreeMap.{insert_entry};
ghost use Rattle.server_rules.specs.declared.server.Drive.{Drive};
ghost use Rattle.server_rules.specs.Going.{Going};
ghost use Rattle.file_jobs.specs.Sound.{IsSoundFile};
ghost use Rattle.server_state.specs.FileRequests.{LeavesFile};
ghost use Rattle.server_state.specs.Tables.{AreEntries};
ghost use Rattle.layout_server.specs.Rounds.{DoesAt, GoesRound};

use file_jobs::FileState;
use osd_lists::Memory;
use server_rules::{COUNTERS_END, Effects};
use server_state::Files;
use std::alloc::Global;
use std::mem;

/// What a step does at each file.
pub trait FileStep {
    /// What the rules do at a file.
    ghost rule: { Self → Going → Going };

    /// Whether these may be the server's drives.
    ghost fits: { Self → List Drive → Type 0 } = { λ _ _. Unit {0} };

    /// What has to hold before it is done.
    ghost can: { Self → Type 0 } = { λ _. Unit {0} };

    /// Does it at a file.
    fn at_file(
        &self,
        alloc: Global,
        file: &mut FileState,
        effects: &mut Effects,
    ) -> Result<(), Memory>
        requires can { can self.now }
        requires sound { IsSoundFile file.old }
        requires low { effects.old.nonce < 2 ^ 63 }
        requires objects { effects.old.object < 2 ^ 63 }
        ensures does { OnOk result (DoesAt (fits self.now) (rule self.now) file.old effects.old file.new effects.new) }
        ensures leaves { OnOk result (LeavesFile file.old file.new) };
}

/// The file stands at its number.
pub fn put(files: &mut Files, number: u32, file: FileState) -> Result<(), Memory>
    ensures { OnOk result (files.new.entries ≡ insert_entry nat_cmp files.old.entries number file) }
{
    files.insert(number, file)?;
    Ok(())
}

/// Does the step at each file, in order. There must be room in the counters for each.
///
/// # Errors
///
/// Want of memory; and, in place of it, a counter of 64 bits without room in the middle of the step.
pub fn at_each_file<S: FileStep>(
    alloc: Global,
    files: &mut Files,
    effects: &mut Effects,
    step: &S,
) -> Result<(), Memory>
    requires can { S.can step.now }
    requires files { AreEntries files.old.entries }
    ensures { OnOk result (GoesRound (S.fits step.now) (S.rule step.now)
        files.old.entries effects.old files.new.entries effects.new) }
{
    let left = mem::replace(files, Files::new(alloc));
    for (number, mut file) in left {
        if effects.nonce >= COUNTERS_END || effects.object >= COUNTERS_END {
            return Err(Memory);
        }
        step.at_file(alloc, &mut file, effects)?;
        put(files, number, file)?;
    }
    Ok(())
}
