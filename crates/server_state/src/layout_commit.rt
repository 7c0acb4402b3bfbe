ghost use Rattle.std.specs.Prelude.{◌≡◌, None};
ghost use Rattle.server_rules.specs.declared.server.Effects.{Effects as TheEffects};
ghost use Rattle.server_rules.specs.Commit.{commits};
ghost use Rattle.file_jobs.specs.Sound.{IsSoundFile};
ghost use Rattle.server_state.specs.FileRequests.{Serves};

use crate::outcome::{Outcome, says};
use file_jobs::FileState;
use layout_ops::{NFS4_OK, NFS4ERR_BADLAYOUT, NFS4ERR_INVAL};
use server_requests::{Committed, commit_row};
use std::alloc::Global;

/// A LAYOUTCOMMIT at a file, of a client whose last written byte has this offset, if it tells one.
#[tactic(auto, unfolding(server_rules::specs::Commit::commits))]
pub fn commit(alloc: Global, file: &mut FileState, client: u32, last: Option<u64>) -> Outcome
    requires { IsSoundFile file.old }
    ensures rule { (m : TheEffects) → Serves (λ go. commits go client last) file.old m result file.new m }
    ensures sound { IsSoundFile file.new }
    ensures number { file.new.kept.number ≡ file.old.kept.number }
    ensures told { result.told.grant ≡ None }
    ensures numbers { result.numbers ≡ 0 }
{
    match commit_row(&file.kept, client, last) {
        Committed::NoGrant => says(alloc, NFS4ERR_BADLAYOUT, 0),
        Committed::Wrong => says(alloc, NFS4ERR_INVAL, 0),
        Committed::Sizes { size } => {
            file.kept.size = size;
            says(alloc, NFS4_OK, 0)
        }
    }
}
