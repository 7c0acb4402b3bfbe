ghost use Rattle.std.specs.Prelude.{◌≡◌, ◌<◌, ◌^◌, IfOk};
ghost use Rattle.file_jobs.specs.Sound.{IsSoundFile};
ghost use Rattle.server_state.specs.Tables.{AreEntries};
ghost use Rattle.server_state.specs.AtFile.{ServedAt, ServedIn};

use crate::file_requests::serve;
use crate::outcome::{Asking, Outcome};
use crate::state::Files;
use file_jobs::FileState;
use layout_ops::Answer;
use osd_lists::Memory;
use server_requests::file_answer;
use server_rules::{ClientRequest, Drive, Effects};
use std::alloc::Global;

/// What a request did besides its file, and the answer to it.
#[derive(Drop)]
pub struct Served {
    pub outcome: Outcome,
    pub answer: Answer,
}

// A request at its file.
fn serve_at(
    alloc: Global,
    file: &mut FileState,
    effects: &mut Effects,
    drives: &[Drive],
    asking: &Asking,
    request: &ClientRequest,
) -> Result<Served, Memory>
    requires sound { IsSoundFile file.old }
    requires low { effects.old.nonce < 2 ^ 63 }
    ensures { IfOk result (λ v. ServedAt asking.now request.now drives.now file.old effects.old v file.new effects.new) }
{
    let outcome = serve(alloc, file, effects, asking, &request.args)?;
    let answer = file_answer(alloc, drives, &file.kept, request, &outcome.told)?;
    Ok(Served { outcome, answer })
}

/// A request at the file of its number, `None` exactly where there is none.
pub fn serve_in(
    alloc: Global,
    files: &mut Files,
    effects: &mut Effects,
    drives: &[Drive],
    asking: &Asking,
    request: &ClientRequest,
) -> Result<Option<Served>, Memory>
    requires files { AreEntries files.old.entries }
    requires low { effects.old.nonce < 2 ^ 63 }
    ensures { IfOk result (λ v. ServedIn asking.now request.now drives.now files.old.entries effects.old v
        files.new.entries effects.new) }
{
    match files.get_mut(&request.file) {
        Some(file) => Ok(Some(serve_at(alloc, file, effects, drives, asking, request)?)),
        None => Ok(None),
    }
}
