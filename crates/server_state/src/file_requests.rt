ghost use Rattle.std.specs.Prelude.{◌≡◌, ◌<◌, ◌^◌, IfOk, OnOk};
ghost use Rattle.server_rules.specs.Requests.{serves};
ghost use Rattle.server_requests.specs.Telling.{IsTold};
ghost use Rattle.file_jobs.specs.Sound.{IsSoundFile};
ghost use Rattle.server_state.specs.FileRequests.{Serves, LeavesFile, Counts, serves_for};

use crate::layout_commit::commit;
use crate::layout_get::get;
use crate::layout_return::give_back;
use crate::outcome::{Asking, Outcome};
use file_jobs::FileState;
use osd_lists::Memory;
use server_requests::Wanted;
use server_rules::{Effects, RequestArgs};
use std::alloc::Global;

/// A request at its file.
///
/// # Errors
///
/// Want of memory alone. Then nothing is said of the file.
pub fn serve(
    alloc: Global,
    file: &mut FileState,
    effects: &mut Effects,
    asking: &Asking,
    args: &RequestArgs,
) -> Result<Outcome, Memory>
    requires sound { IsSoundFile file.old }
    requires low { effects.old.nonce < 2 ^ 63 }
    ensures rule { IfOk result (λ o. Serves (serves_for asking.now args.now) file.old effects.old o file.new effects.new) }
    ensures told { IfOk result (λ o. IsTold args.now o.told) }
    ensures numbers { IfOk result (λ o. Counts asking.now.next_grant o) }
    ensures leaves { OnOk result (LeavesFile file.old file.new) }
{
    match args {
        RequestArgs::Get {
            iomode,
            offset,
            length,
        } => {
            let wanted = Wanted {
                iomode: *iomode,
                offset: *offset,
                length: *length,
            };
            get(alloc, file, effects, asking, &wanted)
        }
        RequestArgs::Commit { last } => Ok(commit(alloc, file, asking.client, *last)),
        RequestArgs::Return { report } => {
            give_back(alloc, file, effects, asking, report.as_slice())
        }
    }
}
