// The journal of a server on a disk.
ghost use Rattle.std.specs.Prelude.{◌≡◌, false, IsTrue, IfOk, IfErr};
ghost use Rattle.server_journal.specs.Journals.{IsKept, core_of, is_over_in, made_of};
ghost use Rattle.stored_server.specs.Opened.{BeginsWith, LeavesOpenable, StopsOpening, stop_of_journal};
ghost use Rattle.stored_server.specs.StoredServer.{kept_on};

use crate::again::told_again;
use crate::stored_server::StoredServer;
use cluster_text::CommandStop;
use drive_command::StoredStop;
use layout_server::{DriveTable, Sends, Step};
use osd_disk::Disk;
use server_journal::{JournalErr, JournaledServer};
use server_state::only_sends;
use std::alloc::Global;

// Why a server with a journal stops if its journal can't be made or opened.
fn stop_of(e: JournalErr) -> StoredStop
    ensures { result ≡ stop_of_journal e }
{
    match e {
        JournalErr::NotEmpty { .. } => StoredStop::BadStore { at: 0 },
        JournalErr::NotAJournal { at } => StoredStop::BadStore { at },
        JournalErr::DiskFault => StoredStop::DiskFault,
        JournalErr::Memory => StoredStop::Command(CommandStop::Memory),
    }
}

/// The server's journal on a disk, which is the file of this name if it is one, and the step of its opening: a new journal of
/// a server without drives if the disk has no bytes, whose step is empty, else the one that stands there.
pub(crate) fn journal_on<D: Disk>(
    alloc: Global,
    disk: D,
    name: &str,
) -> Result<(StoredServer<D>, Step), (StoredStop, D)>
    ensures begins { IfOk result (λ b. IsTrue (D.tells disk)
        → BeginsWith (D.seen disk) (core_of b.0.journal) (made_of b.0.journal) b.1) }
    ensures kept { IfOk result (λ b. IsTrue (D.tells disk) → IsKept D.Disk b.0.journal) }
    ensures goes_on { IfOk result (λ b. is_over_in b.0.journal ≡ false) }
    ensures refused { IfErr result (λ e. StopsOpening D.Disk disk e.1 e.0) }
    ensures leaves { IfOk result (λ b. IsTrue (D.tells disk) → LeavesOpenable D.Disk disk (kept_on b.0)) }
    ensures cut_off { IfErr result (λ e. IsTrue (D.tells disk) → LeavesOpenable D.Disk disk e.1) }
    ensures no_fault { IfOk result (λ b. D.faults (kept_on b.0) ≡ D.faults disk) }
{
    let mut disk = disk;
    match disk.open(name) {
        Ok(()) => {}
        Err(e) => return Err((StoredStop::from(e), disk)),
    }
    let size = match disk.size() {
        Ok(size) => size,
        Err(e) => return Err((StoredStop::from(e), disk)),
    };
    if size > 0 {
        return match JournaledServer::open(alloc, disk) {
            Ok((journal, step)) => match told_again(alloc, journal.noted(), step) {
                Ok(step) => Ok((StoredServer { journal }, step)),
                Err(e) => Err((StoredStop::from(e), journal.into_disk())),
            },
            Err((e, disk)) => Err((stop_of(e), disk)),
        };
    }
    match JournaledServer::create(alloc, disk, DriveTable::new(alloc)) {
        Ok(journal) => {
            let step = only_sends(alloc, Sends::new(alloc));
            Ok((StoredServer { journal }, step))
        }
        Err((e, disk)) => Err((stop_of(e), disk)),
    }
}
