// What a server serves once its files are made, and the lines before and after.
ghost use Rattle.std.specs.Prelude.{◌≡◌, false, IfErr, OnOk};
ghost use Rattle.cluster_text.specs.Peers.{KeepsAddresses};
ghost use Rattle.cluster_text.specs.Outside.{network_at};
ghost use Rattle.cluster_text.specs.Lines.{served_line};
ghost use Rattle.server_command.specs.Ends.{Serves, StopsCore};
ghost use Rattle.server_command.specs.GoesOn.{Breaks, Does};
ghost use Rattle.server_command.specs.declared.server_stop.ServerStop.TheVariants.{DiskFault};

use crate::connections::serve;
use crate::metadata_server::MetadataServer;
use crate::server_stop::{ServerStop, stop_of_serving};
use cluster_text::{CommandStop, served_line};
use osd_bytes::{Clock, Links, Sink, put_all};
use std::alloc::Global;
use stripe_repair::Place;

/// Serves so many connections over links that listen, and tells when that begins and when it is over.
///
/// # Errors
///
/// [`CommandStop::WriteFault`], [`CommandStop::LinkFault`] and [`CommandStop::Memory`], as the server's command has them;
/// [`ServerStop::DiskFault`] only if the count of faults rose.
pub fn serve_told<H: MetadataServer, K: Sink, L: Links, C: Clock, P: Place>(
    alloc: Global,
    server: &mut H,
    connections: u32,
    sink: &mut K,
    links: &mut L,
    clock: &mut C,
    placer: &P,
) -> Result<(), ServerStop>
    requires goes_on { H.is_over server.old ≡ false }
    requires placer { P.is_placer placer.now }
    ensures serves { OnOk result (Does H.MetadataServer server.old server.new (λ had has.
        Serves connections (H.server server.old) (H.server server.new) had has
        (network_at L.Links C.Clock links.old clock.old) (network_at L.Links C.Clock links.new clock.new)
        (K.taken sink.old) (K.taken sink.new))) }
    ensures stops { IfErr result (λ stop. Breaks H.MetadataServer (stop ≡ DiskFault) server.old server.new (λ had served unserved.
        StopsCore connections (H.server server.old) (H.server server.new) had served unserved
        (network_at L.Links C.Clock links.old clock.old) (network_at L.Links C.Clock links.new clock.new)
        (K.taken sink.old) (K.taken sink.new) (K.faults sink.old) (K.faults sink.new) stop)) }
    ensures addresses { KeepsAddresses (L.standing links.old) (L.standing links.new) }
{
    let served = served_line(alloc, connections)?;
    match put_all(sink, b"listening\n") {
        Ok(()) => {}
        Err(_) => return Err(ServerStop::Command(CommandStop::WriteFault)),
    }
    match serve(alloc, server, links, clock, placer, connections) {
        Ok(()) => {}
        Err(e) => return Err(stop_of_serving(e)),
    }
    match put_all(sink, served.as_bytes()) {
        Ok(()) => Ok(()),
        Err(_) => Err(ServerStop::Command(CommandStop::WriteFault)),
    }
}
