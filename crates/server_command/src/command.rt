ghost use Rattle.std.specs.Prelude.{◌≡◌, IfErr, OnOk};
ghost use Rattle.osd_bytes.specs.Reading.{TakesAtMost};
ghost use Rattle.osd_bytes.specs.declared.lines.TheConstants.{MAX_READ};
ghost use Rattle.cluster_text.specs.Outside.{network_at, streams_at};
ghost use Rattle.server_command.specs.Ends.{EndsServer, ServesAs, ServesIn, SettlesAs, SettlesAsText, StopsIn, StopsServer};

use crate::drives::server_of;
use crate::files::make_files;
use crate::server_stop::without_disk;
use crate::service::serve_told;
use cluster_text::{Cluster, CommandStop, Reader, cluster_from, put_stop, settle_at};
use osd_bytes::{Clock, Links, Sink, Source};
use osd_lists::Memory;
use std::alloc::Global;
use stripe_repair::Place;

// Makes the files of a cluster that was read, and serves so many connections as its server.
fn serve_in<K: Sink, L: Links, C: Clock, P: Place>(
    alloc: Global,
    cluster: &Cluster,
    connections: u32,
    sink: &mut K,
    links: &mut L,
    clock: &mut C,
    placer: &P,
) -> Result<(), CommandStop>
    requires placer { P.is_placer placer.now }
    ensures serves { OnOk result (ServesIn connections cluster.now
        (network_at L.Links C.Clock links.old clock.old) (network_at L.Links C.Clock links.new clock.new)
        (L.standing links.new) (K.taken sink.old) (K.taken sink.new)) }
    ensures stops { IfErr result (StopsIn connections cluster.now
        (network_at L.Links C.Clock links.old clock.old) (network_at L.Links C.Clock links.new clock.new)
        (L.standing links.new) (K.taken sink.old) (K.taken sink.new) (K.faults sink.old) (K.faults sink.new)) }
    ensures addresses { SettlesAs cluster.now (L.standing links.old) (L.standing links.new) }
{
    // Here and below, arms in place of `?` or of the bare call are for the prover (docs/dev/PROVER_FORMS.md).
    match settle_at(alloc, links, cluster, cluster.server.as_slice()) {
        Ok(()) => {}
        Err(stop) => return Err(stop),
    }
    let mut core = match server_of(alloc, cluster) {
        Ok(core) => core,
        Err(stop) => return Err(stop),
    };
    match make_files(
        alloc,
        &mut core,
        links,
        clock,
        placer,
        cluster.files.as_slice(),
    ) {
        Ok(()) => {}
        Err(stop) => return Err(without_disk(stop)),
    }
    match serve_told(alloc, &mut core, connections, sink, links, clock, placer) {
        Ok(()) => Ok(()),
        Err(stop) => Err(without_disk(stop)),
    }
}

// Serves as the server of the cluster that the source describes. A stop isn't told here.
fn serve_cluster<S: Source, K: Sink, L: Links, C: Clock, P: Place>(
    alloc: Global,
    connections: u32,
    source: &mut S,
    sink: &mut K,
    links: &mut L,
    clock: &mut C,
    placer: &P,
) -> Result<(), CommandStop>
    requires placer { P.is_placer placer.now }
    ensures serves { OnOk result (ServesAs connections
        (streams_at S.Source K.Sink source.old sink.old) (streams_at S.Source K.Sink source.new sink.new)
        (network_at L.Links C.Clock links.old clock.old) (network_at L.Links C.Clock links.new clock.new)
        (L.standing links.new)) }
    ensures stops { IfErr result (StopsServer connections
        (streams_at S.Source K.Sink source.old sink.old) (streams_at S.Source K.Sink source.new sink.new)
        (network_at L.Links C.Clock links.old clock.old) (network_at L.Links C.Clock links.new clock.new)
        (L.standing links.new)) }
    ensures addresses { SettlesAsText (S.left source.old) (S.left source.new) (L.standing links.old) (L.standing links.new) }
    ensures input { TakesAtMost MAX_READ (S.left source.old) (S.left source.new) }
{
    let cluster = match cluster_from(alloc, Reader::Server, source) {
        Ok(cluster) => cluster,
        Err(stop) => return Err(stop),
    };
    match serve_in(alloc, &cluster, connections, sink, links, clock, placer) {
        Ok(()) => Ok(()),
        Err(stop) => Err(stop),
    }
}

/// Makes the files of the cluster that the source describes, and serves so many connections as its server. The sink is
/// told `listening` once the server listens at its own address and has had one exchange for each CREATE of its files,
/// and `served` with the number of connections at the end; or else, in a line of its own, why the server stopped before.
/// What the server notes is told through the links, as it comes; so is which drive stops the making of files.
///
/// # Errors
///
/// [`CommandStop::BadCluster`] exactly if the text is refused; [`CommandStop::ReadFault`]; [`CommandStop::Full`]
/// exactly if the text passes 67,108,864 bytes; [`CommandStop::LinkFault`] if the links couldn't be settled or no
/// further connection accepted, or a drive gave no record or held an object already while the files were made;
/// [`CommandStop::WriteFault`]; [`CommandStop::Memory`].
pub fn server_command<S: Source, K: Sink, L: Links, C: Clock, P: Place>(
    alloc: Global,
    connections: u32,
    source: &mut S,
    sink: &mut K,
    links: &mut L,
    clock: &mut C,
    placer: &P,
) -> Result<(), CommandStop>
    requires placer { P.is_placer placer.now }
    ensures serves { OnOk result (ServesAs connections
        (streams_at S.Source K.Sink source.old sink.old) (streams_at S.Source K.Sink source.new sink.new)
        (network_at L.Links C.Clock links.old clock.old) (network_at L.Links C.Clock links.new clock.new)
        (L.standing links.new)) }
    ensures stops { IfErr result (EndsServer connections
        (streams_at S.Source K.Sink source.old sink.old) (streams_at S.Source K.Sink source.new sink.new)
        (network_at L.Links C.Clock links.old clock.old) (network_at L.Links C.Clock links.new clock.new)
        (L.standing links.new)) }
    ensures addresses { SettlesAsText (S.left source.old) (S.left source.new) (L.standing links.old) (L.standing links.new) }
    ensures input { TakesAtMost MAX_READ (S.left source.old) (S.left source.new) }
{
    match serve_cluster(alloc, connections, source, sink, links, clock, placer) {
        Ok(()) => Ok(()),
        Err(stop) => {
            put_stop(sink, stop);
            Err(stop)
        }
    }
}
