// Why a drive or a server doesn't serve from its file.
use crate::network::Asker;
use osd_links::{FileCause, Printable};
use std::alloc::{AllocError, Global};

// The place of a drive's number in its store.
const NUMBER_PLACE: u64 = 8;

// The place at which the journal of another cluster is refused.
const CLUSTER_PLACE: u64 = 8;

// The place of the first gate, behind the header.
const FIRST_GATE: u64 = 24;

// What may be done about a file that others can read.
const FOR_THE_OWNER: &str =
    "Start it as the user who owns the file, or have that user give it mode 0600.\n";

// What may be done about the file of a drive.
fn rest_for_drive(cause: &FileCause) -> &'static str {
    match cause {
        FileCause::NoFolder => "The file is made where there is none, but its folder isn't.\n",
        FileCause::InUse =>
            "One drive at a time can serve from a store: end the other one first.\n",
        FileCause::NotPrivate => FOR_THE_OWNER,
        FileCause::Full => {
            "All that was answered is in the store. Make room, and start the drive again: it goes on from there.\n"
        }
        FileCause::System(_) => {
            "If the disk itself fails, don't start the drive on it again: declare it, and rebuild its files.\n"
        }
        _ => "",
    }
}

// What may be done about the file of a server.
fn rest_for_server(cause: &FileCause) -> &'static str {
    match cause {
        FileCause::NoFolder => "The file is made where there is none, but its folder isn't.\n",
        FileCause::InUse =>
            "One server at a time can serve from a journal: end the other one first.\n",
        FileCause::NotPrivate => FOR_THE_OWNER,
        FileCause::Full => {
            "All that was answered is in the journal. Make room, and start the server again: it goes on from there.\n"
        }
        FileCause::System(_) => {
            "If the disk itself fails, copy the file to another one first: it alone tells which objects the cluster's files are made of.\n"
        }
        _ => "",
    }
}

// What may be done about the file of a party.
fn rest_for(asker: Asker, cause: &FileCause) -> &'static str {
    match asker {
        Asker::Server => rest_for_server(cause),
        Asker::Drive | Asker::Client => rest_for_drive(cause),
    }
}

/// What a person is told if the file that keeps a party can't be opened, read, written or synced.
pub fn failed_disk(
    alloc: Global,
    asker: Asker,
    store: &str,
    cause: Option<&FileCause>,
) -> Result<String, AllocError> {
    let file = Printable::new(store.as_bytes());
    match cause {
        Some(cause) => {
            let rest = rest_for(asker, cause);
            format!(in alloc; "pnfs_osd: the file {file}: {cause}\n{rest}")
        }
        None => format!(in alloc; "pnfs_osd: the file {file} failed\n"),
    }
}

// What is wrong with the header of a file that is no store of the party: its name and version, or the drive's number.
fn fault_at(asker: Asker, at: u64) -> &'static str {
    match at {
        NUMBER_PLACE => "is the store of a drive with another number",
        _ if asker == Asker::Server => "isn't the journal of a server",
        _ => "isn't the store of a drive",
    }
}

/// What a person is told if a file is no store of the drive, or no journal of the server, from this place on: whose it is, what
/// its header says, or which record isn't as it was written.
pub fn refused_store(
    alloc: Global,
    asker: Asker,
    store: &str,
    at: u64,
) -> Result<String, AllocError> {
    let file = Printable::new(store.as_bytes());
    if asker == Asker::Server && at == CLUSTER_PLACE {
        return format!(in alloc;
            "pnfs_osd: is the file {file} the right journal? It has drives of the cluster text, but all with other keys, as another cluster's has. No drive was asked for anything\n"
        );
    }
    if at < FIRST_GATE {
        let fault = fault_at(asker, at);
        return format!(in alloc; "pnfs_osd: the file {file} {fault}. It is left as it is\n");
    }
    format!(in alloc;
        "pnfs_osd: the file {file}: the record at byte {at} was cut short or changed (docs/use/STORES.md). It is left as it is\n"
    )
}
