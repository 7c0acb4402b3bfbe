// The command of a metadata server with a store.
ghost use Rattle.std.specs.Prelude.{◌≡◌, IfErr, IfOk};
ghost use Rattle.osd_bytes.specs.Reading.{TakesAtMost};
ghost use Rattle.osd_bytes.specs.declared.lines.TheConstants.{MAX_READ};
ghost use Rattle.cluster_text.specs.Outside.{network_at, streams_at};
ghost use Rattle.cluster_text.specs.Peers.{KeepsAddresses};
ghost use Rattle.server_command.specs.Ends.{SettlesAsText};
ghost use Rattle.server_command.proofs.Described.{IsSound};
ghost use Rattle.stored_server.specs.Ends.{EndsStored, ServesStoredAs, StopsStoredServer};
ghost use Rattle.stored_server.specs.Service.{ServesFrom, StopsFrom, stored_stop_of};

use crate::beginning::begin_on;
use crate::preparing::prepare;
use cluster_text::{Cluster, Reader, cluster_from, settle_at};
use drive_command::{StoredStop, put_stored_stop};
use osd_bytes::{Clock, Links, Sink, Source};
use osd_disk::Disk;
use server_command::{ServerStop, serve_told};
use std::alloc::Global;
use stripe_repair::Place;

// Why the command stops if its server does.
fn stored_stop_of(stop: ServerStop) -> StoredStop
    ensures { result ≡ stored_stop_of stop }
{
    match stop {
        ServerStop::Command(stop) => StoredStop::Command(stop),
        ServerStop::DiskFault => StoredStop::DiskFault,
    }
}

// Serves so many connections over links that listen, from the journal on a disk.
fn serve_from<K: Sink, L: Links, C: Clock, D: Disk, P: Place>(
    alloc: Global,
    cluster: &Cluster,
    name: &str,
    connections: u32,
    sink: &mut K,
    links: &mut L,
    clock: &mut C,
    placer: &P,
    disk: D,
) -> Result<D, (StoredStop, D)>
    requires placer { P.is_placer placer.now }
    requires sound { IsSound cluster.now }
    ensures serves { IfOk result (λ left. ServesFrom D.Disk connections cluster.now
        (network_at L.Links C.Clock links.old clock.old) (network_at L.Links C.Clock links.new clock.new)
        (K.taken sink.old) (K.taken sink.new) disk left) }
    ensures stops { IfErr result (λ e. StopsFrom D.Disk connections cluster.now
        (network_at L.Links C.Clock links.old clock.old) (network_at L.Links C.Clock links.new clock.new)
        (K.taken sink.old) (K.taken sink.new) (K.faults sink.old) (K.faults sink.new) disk e.1 e.0) }
    ensures addresses { KeepsAddresses (L.standing links.old) (L.standing links.new) }
{
    let (mut server, step) = match begin_on(alloc, disk, name, cluster, links) {
        Ok(opened) => opened,
        Err(refusal) => return Err(refusal),
    };
    match prepare(alloc, &mut server, step, cluster, links, clock, placer) {
        Ok(()) => {}
        Err(stop) => return Err((stored_stop_of(stop), server.into_disk())),
    }
    match serve_told(alloc, &mut server, connections, sink, links, clock, placer) {
        Ok(()) => Ok(server.into_disk()),
        Err(stop) => Err((stored_stop_of(stop), server.into_disk())),
    }
}

// Serves as the server of the cluster that the source describes. A stop isn't told here.
fn serve_stored_cluster<S: Source, K: Sink, L: Links, C: Clock, D: Disk, P: Place>(
    alloc: Global,
    connections: u32,
    name: &str,
    source: &mut S,
    sink: &mut K,
    links: &mut L,
    clock: &mut C,
    placer: &P,
    disk: D,
) -> Result<D, (StoredStop, D)>
    requires placer { P.is_placer placer.now }
    ensures serves { IfOk result (λ left. ServesStoredAs D.Disk connections
        (streams_at S.Source K.Sink source.old sink.old) (streams_at S.Source K.Sink source.new sink.new)
        (network_at L.Links C.Clock links.old clock.old) (network_at L.Links C.Clock links.new clock.new)
        (L.standing links.new) disk left) }
    ensures stops { IfErr result (λ e. StopsStoredServer D.Disk connections
        (streams_at S.Source K.Sink source.old sink.old) (streams_at S.Source K.Sink source.new sink.new)
        (network_at L.Links C.Clock links.old clock.old) (network_at L.Links C.Clock links.new clock.new)
        (L.standing links.new) disk e.1 e.0) }
    ensures addresses { SettlesAsText (S.left source.old) (S.left source.new) (L.standing links.old) (L.standing links.new) }
    ensures input { TakesAtMost MAX_READ (S.left source.old) (S.left source.new) }
{
    let cluster = match cluster_from(alloc, Reader::Server, source) {
        Ok(cluster) => cluster,
        Err(stop) => return Err((StoredStop::Command(stop), disk)),
    };
    match settle_at(alloc, links, &cluster, cluster.server.as_slice()) {
        Ok(()) => {}
        Err(stop) => return Err((StoredStop::Command(stop), disk)),
    }
    match serve_from(
        alloc,
        &cluster,
        name,
        connections,
        sink,
        links,
        clock,
        placer,
        disk,
    ) {
        Ok(disk) => Ok(disk),
        Err(refusal) => Err(refusal),
    }
}

/// Serves so many connections as the metadata server of the cluster that the source describes, from its journal: the file of
/// this name, if the disk is one. On an empty disk a journal is made. What the text has otherwise than the journal is told, and
/// changes nothing. What an opening gives to send is sent; then the drives of the cluster that the server doesn't know are
/// added, its files that the server lacks are made, and the server's format is at least the cluster's. The sink is told
/// `listening` and `served` as by [`server_command::server_command`], or else, in a line of its own, why the server stopped
/// before. The disk comes back.
///
/// # Errors
///
/// [`StoredStop::Command`] for the causes of [`server_command::server_command`], those of the text and the links first, and if
/// fewer drives are online than a file that the server lacks has components; [`StoredStop::DiskFault`] only if the disk's
/// count of faults rose; [`StoredStop::BadStore`] exactly if what the disk has isn't in the form of a journal from this byte
/// on, or, with 8, is the journal of another cluster: it has drives of the text, and none of them with the text's key.
pub fn stored_server_command<S: Source, K: Sink, L: Links, C: Clock, D: Disk, P: Place>(
    alloc: Global,
    connections: u32,
    name: &str,
    source: &mut S,
    sink: &mut K,
    links: &mut L,
    clock: &mut C,
    placer: &P,
    disk: D,
) -> Result<D, (StoredStop, D)>
    requires placer { P.is_placer placer.now }
    ensures serves { IfOk result (λ left. ServesStoredAs D.Disk connections
        (streams_at S.Source K.Sink source.old sink.old) (streams_at S.Source K.Sink source.new sink.new)
        (network_at L.Links C.Clock links.old clock.old) (network_at L.Links C.Clock links.new clock.new)
        (L.standing links.new) disk left) }
    ensures stops { IfErr result (λ e. EndsStored D.Disk connections
        (streams_at S.Source K.Sink source.old sink.old) (streams_at S.Source K.Sink source.new sink.new)
        (network_at L.Links C.Clock links.old clock.old) (network_at L.Links C.Clock links.new clock.new)
        (L.standing links.new) disk e.1 e.0) }
    ensures addresses { SettlesAsText (S.left source.old) (S.left source.new) (L.standing links.old) (L.standing links.new) }
    ensures input { TakesAtMost MAX_READ (S.left source.old) (S.left source.new) }
{
    match serve_stored_cluster(
        alloc,
        connections,
        name,
        source,
        sink,
        links,
        clock,
        placer,
        disk,
    ) {
        Ok(disk) => Ok(disk),
        Err(refusal) => {
            let cause = put_stored_stop(alloc, sink, refusal.0);
            Err((cause, refusal.1))
        }
    }
}
