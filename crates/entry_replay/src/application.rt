ghost use Rattle.std.specs.Prelude.{IfOk};
ghost use Rattle.server_state.specs.States.{server_of, IsReady};
ghost use Rattle.server_entries.specs.Applying.{applied, applied_all};
ghost use Rattle.server_entries.specs.Taking.{Takes};
ghost use Rattle.entry_replay.specs.Replaying.{Becomes, Stops};

use crate::changes::apply_change;
use crate::drives::{apply_drive, apply_zone};
use crate::grants::{apply_grant, apply_return};
use crate::new_files::apply_file;
use crate::numbers::{apply_counters, apply_format};
use crate::slots::apply_slot;
use osd_lists::Memory;
use server_entries::{Applied, Entry};
use server_state::State;
use std::alloc::Global;

/// Takes an entry into a state of files without jobs. Where nothing can be made of it the server stays as it was.
///
/// Which replies are awaited and how many components stand on each drive isn't kept up:
/// [`list_all`](server_state::list_all) makes both anew.
///
/// # Errors
///
/// Want of memory. Then the state may have a part of the entry.
pub fn apply(alloc: Global, state: &mut State, entry: &Entry) -> Result<Applied, Memory>
    requires ready { IsReady state.old }
    ensures applied { IfOk result (Becomes state.old state.new (applied (server_of state.old) entry.now)) }
    ensures ready { IsReady state.new }
{
    match entry {
        Entry::Drive(drive) => apply_drive(alloc, state, drive),
        Entry::File(file) => apply_file(alloc, state, file),
        Entry::Grant(grant) => apply_grant(state, grant),
        Entry::Return { grant } => apply_return(alloc, state, *grant),
        Entry::Change { file, change } => apply_change(alloc, state, *file, change),
        Entry::Counters(counters) => Ok(apply_counters(state, counters)),
        Entry::Slot(slot) => apply_slot(alloc, state, slot),
        Entry::Format { format } => Ok(apply_format(state, *format)),
        Entry::Zone { drive, zone } => Ok(apply_zone(state, *drive, *zone)),
    }
}

/// Takes entries into a state, up to the first that nothing can be made of.
///
/// # Errors
///
/// Want of memory. Then the state may have some of the entries.
pub fn apply_all(alloc: Global, state: &mut State, entries: &[Entry]) -> Result<Applied, Memory>
    requires ready { IsReady state.old }
    ensures applied { IfOk result (λ a. Takes a (server_of state.new) (applied_all (server_of state.old) entries.now)) }
    ensures stops { IfOk result (Stops (server_of state.old) (server_of state.new) entries.now) }
    ensures ready { IsReady state.new }
{
    for entry in entries {
        match apply(alloc, state, entry) {
            Ok(Applied::Done) => {}
            Ok(Applied::Unmade) => return Ok(Applied::Unmade),
            Err(e) => return Err(e),
        }
    }
    Ok(Applied::Done)
}
