// The server with which serving begins.
ghost use Rattle.std.specs.Prelude.{◌≡◌, false, IsTrue, IfOk, IfErr};
ghost use Rattle.cluster_text.specs.Peers.{KeepsAddresses};
ghost use Rattle.osd_bytes.specs.Connections.{after_notes};
ghost use Rattle.server_journal.specs.Journals.{IsKept, core_of, is_over_in, made_of};
ghost use Rattle.stored_server.specs.Beginning.{StopsBeginning};
ghost use Rattle.stored_server.specs.Differences.{difference_lines, is_of_another, shares_key, shares_number};
ghost use Rattle.stored_server.specs.Opened.{BeginsWith, LeavesOpenable};
ghost use Rattle.stored_server.specs.StoredServer.{kept_on};

use crate::differences::{has_key, tell_differences};
use crate::lacking::has_number;
use crate::opened::journal_on;
use crate::stored_server::StoredServer;
use cluster_text::{Cluster, ClusterDrive};
use drive_command::StoredStop;
use layout_server::Step;
use osd_bytes::Links;
use osd_disk::Disk;
use server_rules::Drive;
use std::alloc::Global;

/// The place in a journal's header, after its name and version, at which the journal of another cluster is refused. What isn't
/// in the form of a journal is refused at 0, or after the header.
const CLUSTER_PLACE: u64 = 8;

// Whether a server has a drive of the text by its number.
fn shares_number(text: &[ClusterDrive], drives: &[Drive]) -> bool
    ensures { result ≡ shares_number text.now drives.now }
{
    text.iter().any(|drive| has_number(drives, drive.number))
}

// Whether it has one with the text's key.
fn shares_key(text: &[ClusterDrive], drives: &[Drive]) -> bool
    ensures { result ≡ shares_key text.now drives.now }
{
    text.iter()
        .any(|drive| has_key(drives, drive.number, drive.key))
}

// Whether a server with these drives is another cluster's than the text describes.
fn is_of_another(text: &[ClusterDrive], drives: &[Drive]) -> bool
    ensures { result ≡ is_of_another text.now drives.now }
{
    shares_number(text, drives) && !shares_key(text, drives)
}

/// The server's journal on a disk, as [`journal_on`] has it, once what the text has otherwise was told. A server that has drives
/// of the text, and none of them with the text's key, is another cluster's: its journal is refused.
pub(crate) fn begin_on<D: Disk, L: Links>(
    alloc: Global,
    disk: D,
    name: &str,
    cluster: &Cluster,
    links: &mut L,
) -> Result<(StoredServer<D>, Step), (StoredStop, D)>
    ensures begins { IfOk result (λ b. IsTrue (D.tells disk)
        → BeginsWith (D.seen disk) (core_of b.0.journal) (made_of b.0.journal) b.1) }
    ensures kept { IfOk result (λ b. IsTrue (D.tells disk) → IsKept D.Disk b.0.journal) }
    ensures goes_on { IfOk result (λ b. is_over_in b.0.journal ≡ false) }
    ensures own { IfOk result (λ b. is_of_another cluster.now.drives (core_of b.0.journal).drives ≡ false) }
    ensures told { IfOk result (λ b. L.told links.new
        ≡ after_notes (difference_lines cluster.now (core_of b.0.journal)) (L.told links.old)) }
    ensures refused { IfErr result (λ e. StopsBeginning D.Disk cluster.now disk e.1 (L.told links.old) (L.told links.new) e.0) }
    ensures leaves { IfOk result (λ b. IsTrue (D.tells disk) → LeavesOpenable D.Disk disk (kept_on b.0)) }
    ensures cut_off { IfErr result (λ e. IsTrue (D.tells disk) → LeavesOpenable D.Disk disk e.1) }
    ensures no_fault { IfOk result (λ b. D.faults (kept_on b.0) ≡ D.faults disk) }
    ensures same { L.faults links.new ≡ L.faults links.old }
    ensures addresses { KeepsAddresses (L.standing links.old) (L.standing links.new) }
{
    let (server, step) = match journal_on(alloc, disk, name) {
        Ok(opened) => opened,
        Err(refusal) => return Err(refusal),
    };
    if is_of_another(cluster.drives.as_slice(), server.journal.drives()) {
        return Err((
            StoredStop::BadStore { at: CLUSTER_PLACE },
            server.into_disk(),
        ));
    }
    match tell_differences(alloc, links, cluster, &server.journal) {
        Ok(()) => Ok((server, step)),
        Err(e) => Err((StoredStop::from(e), server.into_disk())),
    }
}
