// The drives and files of a cluster that its server lacks.
ghost use Rattle.std.specs.Prelude.{◌≡◌, [], true, false, Ok, IfErr, OnOk};
ghost use Rattle.cluster_text.specs.Peers.{KeepsAddresses};
ghost use Rattle.cluster_text.specs.Outside.{network_at};
ghost use Rattle.server_command.specs.Cuts.{CutsFile};
ghost use Rattle.server_command.specs.Drives.{has_number};
ghost use Rattle.server_command.specs.Files.{LosesFile, RefusesFile, StopsBy};
ghost use Rattle.server_command.specs.GoesOn.{Breaks, Does, Goes};
ghost use Rattle.server_command.specs.Messages.{serving};
ghost use Rattle.server_command.specs.declared.server_stop.ServerStop.TheVariants.{DiskFault};
ghost use Rattle.stored_server.specs.Lacking.{CutsLacking, LosesLacking, MakesAllLacking, MakesLacking, RefusesLacking, StopsLacking};
ghost use Rattle.stored_server.specs.Lacking.{has_file, with_all_lacking, with_lacking};

use cluster_text::{ClusterDrive, ClusterFile, ClusterKind, CommandStop};
use layout_server::DriveInfo;
use osd_bytes::{Clock, Links};
use server_command::{MetadataServer, ServerStop, make_file};
use server_rules::Drive;
use std::alloc::Global;
use stripe_repair::Place;
use zone_place::MAX_DRIVES;

/// Whether one of these drives has the number.
pub(crate) fn has_number(drives: &[Drive], number: u32) -> bool
    ensures { result ≡ has_number drives.now number }
{
    drives.iter().any(|drive| drive.number == number)
}

// Tells the server of a drive of the cluster, unless it knows one of that number.
fn add_lacking_one<H: MetadataServer>(
    server: &mut H,
    drive: &ClusterDrive,
) -> Result<(), ServerStop>
    requires goes_on { H.is_over server.old ≡ false }
    ensures knows { OnOk result (with_lacking (H.server server.old) drive.now ≡ Ok (H.server server.new)) }
    ensures stops { IfErr result (StopsLacking (with_lacking (H.server server.old) drive.now)) }
    ensures goes { Goes H.MetadataServer DiskFault server.old server.new result }
{
    if has_number(server.drives(), drive.number) {
        return Ok(());
    }
    let Some(key) = drive.key else {
        return Err(ServerStop::Command(CommandStop::BadCluster(ClusterKind::Missing)));
    };
    if MAX_DRIVES <= drive.number as usize {
        return Err(ServerStop::Command(CommandStop::BadCluster(ClusterKind::Range)));
    }
    let info = DriveInfo {
        number: drive.number,
        key,
        capacity: drive.capacity,
    };
    // Here and below, arms in place of `?` or of the bare call are for the prover (docs/dev/PROVER_FORMS.md).
    match server.add_drive(info) {
        Ok(()) => Ok(()),
        Err(e) => Err(ServerStop::from(e)),
    }
}

/// Tells the server of the drives of the cluster whose numbers it doesn't know. What it knows of the others stays: their
/// keys and capacities too.
///
/// # Errors
///
/// [`CommandStop::BadCluster`] exactly if a drive that it doesn't know has no key, or a number that isn't below 64, with the
/// first such kind of the first such drive; [`CommandStop::Memory`]; [`ServerStop::DiskFault`] only if the count of faults
/// rose.
pub fn add_lacking<H: MetadataServer>(
    server: &mut H,
    drives: &[ClusterDrive],
) -> Result<(), ServerStop>
    requires goes_on { H.is_over server.old ≡ false }
    ensures knows { OnOk result (with_all_lacking (H.server server.old) drives.now ≡ Ok (H.server server.new)) }
    ensures stops { IfErr result (StopsLacking (with_all_lacking (H.server server.old) drives.now)) }
    ensures goes { Goes H.MetadataServer DiskFault server.old server.new result }
{
    for drive in drives {
        match add_lacking_one(server, drive) {
            Ok(()) => {}
            Err(stop) => return Err(stop),
        }
    }
    Ok(())
}

// Makes a file of the cluster, unless the server has one of that number.
fn make_lacking_one<H: MetadataServer, L: Links, C: Clock, P: Place>(
    alloc: Global,
    server: &mut H,
    links: &mut L,
    clock: &mut C,
    placer: &P,
    file: &ClusterFile,
) -> Result<(), ServerStop>
    requires goes_on { H.is_over server.old ≡ false }
    requires placer { P.is_placer placer.now }
    ensures makes { OnOk result (Does H.MetadataServer server.old server.new (λ had has. MakesLacking file.now
        (serving (H.server server.old) [] true had (network_at L.Links C.Clock links.old clock.old))
        (serving (H.server server.new) [] true has (network_at L.Links C.Clock links.new clock.new)))) }
    ensures lacks { IfErr result (λ stop. has_file (H.server server.old) file.now ≡ false) }
    ensures stops { IfErr result (λ stop. Breaks H.MetadataServer (stop ≡ DiskFault) server.old server.new (λ had. StopsBy
        (λ has. LosesFile file.now
        (serving (H.server server.old) [] true had (network_at L.Links C.Clock links.old clock.old))
        (H.server server.new) has (network_at L.Links C.Clock links.new clock.new))
        (RefusesFile file.now (H.server server.old))
        (CutsFile file.now
        (serving (H.server server.old) [] true had (network_at L.Links C.Clock links.old clock.old))
        (network_at L.Links C.Clock links.new clock.new)) stop)) }
    ensures addresses { KeepsAddresses (L.standing links.old) (L.standing links.new) }
{
    if server.has_file(file.number) {
        return Ok(());
    }
    match make_file(alloc, server, links, clock, placer, file) {
        Ok(()) => Ok(()),
        Err(stop) => Err(stop),
    }
}

/// Makes the files of the cluster whose numbers the server doesn't have, one after the other.
///
/// # Errors
///
/// Those of [`server_command::make_files`], of the first file that the server lacks and that isn't made.
pub fn make_lacking<H: MetadataServer, L: Links, C: Clock, P: Place>(
    alloc: Global,
    server: &mut H,
    links: &mut L,
    clock: &mut C,
    placer: &P,
    files: &[ClusterFile],
) -> Result<(), ServerStop>
    requires goes_on { H.is_over server.old ≡ false }
    requires placer { P.is_placer placer.now }
    ensures makes { OnOk result (Does H.MetadataServer server.old server.new (λ had has. MakesAllLacking files.now
        (serving (H.server server.old) [] true had (network_at L.Links C.Clock links.old clock.old))
        (serving (H.server server.new) [] true has (network_at L.Links C.Clock links.new clock.new)))) }
    ensures stops { IfErr result (λ stop. Breaks H.MetadataServer (stop ≡ DiskFault) server.old server.new (λ had. StopsBy
        (λ has. LosesLacking files.now
        (serving (H.server server.old) [] true had (network_at L.Links C.Clock links.old clock.old))
        (H.server server.new) has (network_at L.Links C.Clock links.new clock.new))
        (RefusesLacking files.now
        (serving (H.server server.old) [] true had (network_at L.Links C.Clock links.old clock.old)))
        (CutsLacking files.now
        (serving (H.server server.old) [] true had (network_at L.Links C.Clock links.old clock.old))
        (network_at L.Links C.Clock links.new clock.new)) stop)) }
    ensures addresses { KeepsAddresses (L.standing links.old) (L.standing links.new) }
{
    for i in 0..files.len() {
        match make_lacking_one(alloc, server, links, clock, placer, &files[i]) {
            Ok(()) => {}
            Err(stop) => return Err(stop),
        }
    }
    Ok(())
}
