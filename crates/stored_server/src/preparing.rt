// What a server does between its opening and its first connection.
ghost use Rattle.std.specs.Prelude.{◌≡◌, ◌++◌, false, filter, IfErr, IfOk, OnOk};
ghost use Rattle.cluster_text.specs.Outside.{network_at};
ghost use Rattle.cluster_text.specs.Peers.{KeepsAddresses};
ghost use Rattle.server_command.proofs.Described.{IsSound};
ghost use Rattle.server_command.specs.GoesOn.{Breaks, Does};
ghost use Rattle.server_command.specs.Files.{StopsBy};
ghost use Rattle.server_command.specs.declared.server_stop.ServerStop.TheVariants.{DiskFault};
ghost use Rattle.stored_server.specs.Preparing.{CutsResuming, LosesResuming, Prepares, Resumes, StopsPreparing};
ghost use Rattle.stored_server.specs.Preparing.{is_new, picked_of, picks};

use crate::lacking::{add_lacking, make_lacking};
use cluster_text::Cluster;
use layout_server::{Sends, Sent, Step};
use osd_bytes::{Clock, Links};
use osd_lists::{Bytes, Memory, Node};
use reply_matching::created_object;
use server_command::{MetadataServer, ServerStop, make_all, tell_notes, work_all};
use std::alloc::Global;
use stripe_repair::Place;

// Whether a message is the CREATE of an object that the server doesn't know to be made.
fn is_new<H: MetadataServer>(alloc: Global, server: &H, sent: &Sent) -> Result<bool, Memory>
    ensures { IfOk result (λ new. new ≡ is_new (H.knows server.now) sent.now) }
{
    let created = created_object(alloc, sent.bytes.as_slice())?;
    match (sent.to, created) {
        (Node::Drive(drive), Some(object)) => Ok(!server.has_made(drive, object)),
        _ => Ok(false),
    }
}

// Whether a message is picked, where those are that are new, or the others.
fn picks(new: bool, is: bool) -> bool
    ensures { result ≡ picks new is }
{
    if new { is } else { !is }
}

// Adds a message, if it is picked.
fn push_if(alloc: Global, picked: &mut Sends, sent: &Sent, picks: bool) -> Result<(), Memory>
    ensures { OnOk result (picked.new ≡ picked.old ++ picked_of picks sent.now) }
{
    if picks {
        let bytes = Bytes::copied(alloc, sent.bytes.as_slice())?;
        picked.push(Sent { to: sent.to, bytes })?;
    }
    Ok(())
}

// The CREATEs among these messages of objects that the server doesn't know to be made, in order, or the others.
fn pick<H: MetadataServer>(
    alloc: Global,
    server: &H,
    sends: &Sends,
    new: bool,
) -> Result<Sends, Memory>
    ensures { IfOk result (λ picked. picked ≡ filter (λ m. picks new (is_new (H.knows server.now) m)) sends.now) }
{
    let mut picked = Sends::new(alloc);
    for i in 0..sends.len() {
        let found = is_new(alloc, server, sends.get(i))?;
        push_if(alloc, &mut picked, sends.get(i), picks(new, found))?;
    }
    Ok(picked)
}

// Tells what the opening noted. Then it sends the CREATEs of objects that the server doesn't know to be made, as those of a new
// file, and then the rest that the opening gives to send, and what that brings until nothing waits.
fn resume<H: MetadataServer, L: Links, C: Clock, P: Place>(
    alloc: Global,
    server: &mut H,
    step: Step,
    links: &mut L,
    clock: &mut C,
    placer: &P,
) -> Result<(), ServerStop>
    requires goes_on { H.is_over server.old ≡ false }
    requires placer { P.is_placer placer.now }
    ensures resumes { OnOk result (Does H.MetadataServer server.old server.new (λ had has.
        Resumes (H.knows server.old) (H.server server.old) step had
        (network_at L.Links C.Clock links.old clock.old) (H.server server.new) has
        (network_at L.Links C.Clock links.new clock.new))) }
    ensures stops { IfErr result (λ stop. Breaks H.MetadataServer (stop ≡ DiskFault) server.old server.new (λ had. StopsBy
        (λ has. LosesResuming (H.knows server.old) (H.server server.old) step had
        (network_at L.Links C.Clock links.old clock.old) (H.server server.new) has
        (network_at L.Links C.Clock links.new clock.new))
        ⊥
        (CutsResuming (H.knows server.old) (H.server server.old) step had
        (network_at L.Links C.Clock links.old clock.old) (network_at L.Links C.Clock links.new clock.new)) stop)) }
    ensures addresses { KeepsAddresses (L.standing links.old) (L.standing links.new) }
{
    let Step { sends, notes, .. } = step;
    let new = pick(alloc, server, &sends, true)?;
    let others = pick(alloc, server, &sends, false)?;
    tell_notes(alloc, links, notes)?;
    match make_all(alloc, server, links, clock, placer, new) {
        Ok(()) => {}
        Err(stop) => return Err(stop),
    }
    match work_all(alloc, server, links, clock, placer, None, others, true) {
        Ok(_) => Ok(()),
        Err(e) => Err(ServerStop::from(e)),
    }
}

/// Tells what the opening noted, sends what it gives to send and what that brings until nothing waits, and then has the
/// cluster's format, drives and files as far as the server lacks them. A CREATE of the opening whose object the server doesn't
/// know to be made is one of a new file: the drive has to make it now. To all else that the opening sends a drive may give no
/// answer, as one may while connections are served: the job waits, and its commands go again at the next connection.
pub(crate) fn prepare<H: MetadataServer, L: Links, C: Clock, P: Place>(
    alloc: Global,
    server: &mut H,
    step: Step,
    cluster: &Cluster,
    links: &mut L,
    clock: &mut C,
    placer: &P,
) -> Result<(), ServerStop>
    requires goes_on { H.is_over server.old ≡ false }
    requires placer { P.is_placer placer.now }
    requires sound { IsSound cluster.now }
    ensures prepares { OnOk result (Does H.MetadataServer server.old server.new (λ had has.
        Prepares (H.knows server.old) cluster.now (H.server server.old) step had
        (network_at L.Links C.Clock links.old clock.old) (H.server server.new) has
        (network_at L.Links C.Clock links.new clock.new))) }
    ensures stops { IfErr result (λ stop. Breaks H.MetadataServer (stop ≡ DiskFault) server.old server.new (λ had.
        StopsPreparing (H.knows server.old) cluster.now (H.server server.old) step had
        (network_at L.Links C.Clock links.old clock.old) (H.server server.new)
        (network_at L.Links C.Clock links.new clock.new) stop)) }
    ensures addresses { KeepsAddresses (L.standing links.old) (L.standing links.new) }
{
    match resume(alloc, server, step, links, clock, placer) {
        Ok(()) => {}
        Err(stop) => return Err(stop),
    }
    match server.set_format(cluster.format) {
        Ok(()) => {}
        Err(e) => return Err(ServerStop::from(e)),
    }
    match add_lacking(server, cluster.drives.as_slice()) {
        Ok(()) => {}
        Err(stop) => return Err(stop),
    }
    match make_lacking(
        alloc,
        server,
        links,
        clock,
        placer,
        cluster.files.as_slice(),
    ) {
        Ok(()) => Ok(()),
        Err(stop) => Err(stop),
    }
}
