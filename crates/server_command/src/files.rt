// The files of a cluster, made one after the other.
ghost use Rattle.std.specs.Prelude.{◌≡◌, [], true, false, IfErr, OnOk};
ghost use Rattle.cluster_text.specs.Peers.{KeepsAddresses};
ghost use Rattle.cluster_text.specs.Outside.{network_at};
ghost use Rattle.server_command.specs.GoesOn.{Breaks, Does};
ghost use Rattle.server_command.specs.declared.server_stop.ServerStop.TheVariants.{Command, DiskFault};
ghost use Rattle.cluster_text.specs.declared.errors.ClusterKind.TheVariants.{Range};
ghost use Rattle.cluster_text.specs.declared.stop.CommandStop.TheVariants.{BadCluster};
ghost use Rattle.server_command.specs.Cuts.{CutsFile, CutsFiles};
ghost use Rattle.server_command.specs.Messages.{serving};
ghost use Rattle.server_command.specs.Files.{LosesFile, LosesFiles, MakesFile, MakesFiles, RefusesFile, RefusesFiles, StopsBy};

use crate::creates::make_all;
use crate::metadata_server::{MakeErr, MetadataServer};
use crate::notes::tell_notes;
use crate::server_stop::ServerStop;
use cluster_text::{ClusterFile, ClusterKind, CommandStop};
use data_map::{RAID_0, RAID_PQ};
use layout_server::Step;
use osd_bytes::{Clock, Links};
use osd_lists::Memory;
use std::alloc::Global;
use stripe_repair::Place;

/// The first tag of each file of a cluster.
pub const FIRST_TAG: u32 = 1;

// Why the making stops at a file that the server refuses.
fn refused() -> ServerStop
    ensures { result ≡ Command (BadCluster Range) }
{
    ServerStop::Command(CommandStop::BadCluster(ClusterKind::Range))
}

/// Makes a file of a cluster: each CREATE, and what its answer brings, is one exchange with its drive. What the server notes
/// is told through the links.
///
/// # Errors
///
/// As [`make_files`] says of each file.
pub fn make_file<H: MetadataServer, L: Links, C: Clock, P: Place>(
    alloc: Global,
    server: &mut H,
    links: &mut L,
    clock: &mut C,
    placer: &P,
    file: &ClusterFile,
) -> Result<(), ServerStop>
    requires goes_on { H.is_over server.old ≡ false }
    requires placer { P.is_placer placer.now }
    ensures makes { OnOk result (Does H.MetadataServer server.old server.new (λ had has. MakesFile file.now
        (serving (H.server server.old) [] true had (network_at L.Links C.Clock links.old clock.old))
        (serving (H.server server.new) [] true has (network_at L.Links C.Clock links.new clock.new)))) }
    ensures stops { IfErr result (λ stop. Breaks H.MetadataServer (stop ≡ DiskFault) server.old server.new (λ had. StopsBy
        (λ has. LosesFile file.now
        (serving (H.server server.old) [] true had (network_at L.Links C.Clock links.old clock.old))
        (H.server server.new) has (network_at L.Links C.Clock links.new clock.new))
        (RefusesFile file.now (H.server server.old))
        (CutsFile file.now
        (serving (H.server server.old) [] true had (network_at L.Links C.Clock links.old clock.old))
        (network_at L.Links C.Clock links.new clock.new)) stop)) }
    ensures addresses { KeepsAddresses (L.standing links.old) (L.standing links.new) }
{
    let map = file.map;
    if !server.counters_low() {
        return Err(ServerStop::Command(CommandStop::Memory));
    }
    if map.algorithm < RAID_0 || RAID_PQ < map.algorithm {
        return Err(refused());
    }
    match server.create_file(file.number, map, FIRST_TAG, placer) {
        Ok(Step { sends, notes, .. }) => {
            tell_notes(alloc, links, notes)?;
            // Here and below, arms in place of `?` or of the bare call are for the prover (docs/dev/PROVER_FORMS.md).
            match make_all(alloc, server, links, clock, placer, sends) {
                Ok(()) => Ok(()),
                Err(stop) => Err(stop),
            }
        }
        Err(MakeErr::Refused(_)) => Err(refused()),
        Err(MakeErr::DiskFault) => Err(ServerStop::DiskFault),
        Err(MakeErr::Memory) => Err(ServerStop::Command(CommandStop::Memory)),
    }
}

/// Makes the files of a cluster, one after the other. What the server notes is told through the links.
///
/// # Errors
///
/// [`CommandStop::LinkFault`] exactly if an exchange with a drive gave no record, or one to a CREATE that neither says that the
/// object was made nor asks for another format, as Exists does if the drive holds that object already: a note names the drive;
/// [`CommandStop::BadCluster`] of the kind [`ClusterKind::Range`] exactly if the server refuses a file, or its map has no
/// algorithm; [`CommandStop::Memory`]
/// for want of memory, and also before a file if the server's counters have no room, which takes a drive that has each
/// command sent again 2^63 times; [`ServerStop::DiskFault`] only if the count of faults rose.
pub fn make_files<H: MetadataServer, L: Links, C: Clock, P: Place>(
    alloc: Global,
    server: &mut H,
    links: &mut L,
    clock: &mut C,
    placer: &P,
    files: &[ClusterFile],
) -> Result<(), ServerStop>
    requires goes_on { H.is_over server.old ≡ false }
    requires placer { P.is_placer placer.now }
    ensures makes { OnOk result (Does H.MetadataServer server.old server.new (λ had has. MakesFiles files.now
        (serving (H.server server.old) [] true had (network_at L.Links C.Clock links.old clock.old))
        (serving (H.server server.new) [] true has (network_at L.Links C.Clock links.new clock.new)))) }
    ensures stops { IfErr result (λ stop. Breaks H.MetadataServer (stop ≡ DiskFault) server.old server.new (λ had. StopsBy
        (λ has. LosesFiles files.now
        (serving (H.server server.old) [] true had (network_at L.Links C.Clock links.old clock.old))
        (H.server server.new) has (network_at L.Links C.Clock links.new clock.new))
        (RefusesFiles files.now
        (serving (H.server server.old) [] true had (network_at L.Links C.Clock links.old clock.old)))
        (CutsFiles files.now
        (serving (H.server server.old) [] true had (network_at L.Links C.Clock links.old clock.old))
        (network_at L.Links C.Clock links.new clock.new)) stop)) }
    ensures addresses { KeepsAddresses (L.standing links.old) (L.standing links.new) }
{
    for i in 0..files.len() {
        match make_file(alloc, server, links, clock, placer, &files[i]) {
            Ok(()) => {}
            Err(stop) => return Err(stop),
        }
    }
    Ok(())
}
