// The drives of a cluster, as its server knows them.
ghost use Rattle.std.specs.Prelude.{◌≡◌, Ok, IfErr, IfOk, OnOk};
ghost use Rattle.server_command.specs.Drives.{StopsKnowing, has_number, server_in, with_drive, with_drives};

use cluster_text::{Cluster, ClusterDrive, ClusterKind, CommandStop};
use layout_server::{DriveInfo, DriveTable, ServerCore};
use server_rules::Drive;
use std::alloc::Global;
use zone_place::MAX_DRIVES;

fn has_number(drives: &[Drive], number: u32) -> bool
    ensures { result ≡ has_number drives.now number }
{
    drives.iter().any(|drive| drive.number == number)
}

// Tells the server of a further drive of the cluster.
fn add_drive(core: &mut ServerCore, drive: &ClusterDrive) -> Result<(), CommandStop>
    ensures knows { OnOk result (with_drive core.old drive.now ≡ Ok core.new) }
    ensures stops { IfErr result (StopsKnowing (with_drive core.old drive.now)) }
{
    let Some(key) = drive.key else {
        return Err(CommandStop::BadCluster(ClusterKind::Missing));
    };
    if MAX_DRIVES <= drive.number as usize {
        return Err(CommandStop::BadCluster(ClusterKind::Range));
    }
    if has_number(core.drives(), drive.number) {
        return Err(CommandStop::BadCluster(ClusterKind::Repeated));
    }
    core.add_drive(DriveInfo {
        number: drive.number,
        key,
        capacity: drive.capacity,
    })?;
    Ok(())
}

// Tells the server of these drives of the cluster too.
fn add_drives(core: &mut ServerCore, drives: &[ClusterDrive]) -> Result<(), CommandStop>
    ensures knows { OnOk result (with_drives core.old drives.now ≡ Ok core.new) }
    ensures stops { IfErr result (StopsKnowing (with_drives core.old drives.now)) }
{
    for drive in drives {
        // Here and below, arms in place of `?` or of the bare call are for the prover (docs/dev/PROVER_FORMS.md).
        match add_drive(core, drive) {
            Ok(()) => {}
            Err(stop) => return Err(stop),
        }
    }
    Ok(())
}

/// The server of a cluster before it makes a file: it knows the drives, and has the cluster's format.
///
/// # Errors
///
/// [`CommandStop::BadCluster`] exactly if a drive has no key, or a number that isn't below 64 or stands twice,
/// with the first such kind of the first such drive; [`CommandStop::Memory`].
pub fn server_of(alloc: Global, cluster: &Cluster) -> Result<ServerCore, CommandStop>
    ensures knows { IfOk result (λ core. server_in cluster.now ≡ Ok core) }
    ensures stops { IfErr result (StopsKnowing (server_in cluster.now)) }
{
    let mut core = ServerCore::new(alloc, DriveTable::new(alloc))?;
    match add_drives(&mut core, cluster.drives.as_slice()) {
        Ok(()) => {}
        Err(stop) => return Err(stop),
    }
    core.set_format(cluster.format);
    Ok(core)
}
