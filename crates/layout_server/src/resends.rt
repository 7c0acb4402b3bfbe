ghost use Rattle.std.specs.Prelude.{◌≡◌, ◌++◌, OnOk, IfOk};
ghost use Rattle.server_rules.specs.Files.{file_at, to_drives};
ghost use Rattle.server_rules.specs.Messages.{awaited_by, resend};
ghost use Rattle.server_requests.specs.Sending.{all_sent};
ghost use Rattle.server_state.specs.Tables.{AreEntries, files_in};
ghost use Rattle.server_state.specs.States.{server_of};
ghost use Rattle.layout_server.specs.Resending.{resent, waited_of};

use file_jobs::FileState;
use osd_lists::Memory;
use server_requests::{Sends, send_to_drives};
use server_rules::Drive;
use server_state::{Files, State};
use std::alloc::Global;

// Sends what the file's job waits for.
fn resend_of(
    alloc: Global,
    sends: &mut Sends,
    drives: &[Drive],
    file: &FileState,
) -> Result<(), Memory>
    ensures { OnOk result (sends.new ≡ sends.old ++ all_sent (to_drives drives.now (awaited_by file.now.job))) }
{
    match &file.job {
        Some(job) => send_to_drives(alloc, sends, drives, job.awaited.as_slice()),
        None => Ok(()),
    }
}

// Sends what the jobs of these files wait for.
fn resend_all(
    alloc: Global,
    sends: &mut Sends,
    drives: &[Drive],
    files: &Files,
) -> Result<(), Memory>
    ensures { OnOk result (sends.new ≡ sends.old ++ all_sent (resent drives.now (files_in files.now.entries))) }
{
    for (_, file) in files.iter() {
        resend_of(alloc, sends, drives, file)?;
    }
    Ok(())
}

/// Every command that a job waits for, once more, sealed.
pub fn resend(alloc: Global, state: &State) -> Result<Sends, Memory>
    ensures { IfOk result (λ sends. sends ≡ all_sent (resend (server_of state.now))) }
{
    let mut sends = Sends::new(alloc);
    let drives = state.drives.as_slice();
    resend_all(alloc, &mut sends, drives, &state.files)?;
    Ok(sends)
}

/// The lowest component that the job of a file waits for, `None` exactly where no job of it runs.
pub fn waits(files: &Files, number: u32) -> Option<u32>
    requires { AreEntries files.now.entries }
    ensures { result ≡ waited_of (file_at (files_in files.now.entries) number) }
{
    match files.get(&number) {
        Some(file) => server_state::waits(file),
        None => None,
    }
}
