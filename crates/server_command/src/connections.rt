// The records of a connection, and one connection after the other.
ghost use Rattle.std.specs.Prelude.{◌≡◌, [], false, IfErr, IfOk, OnOk};
ghost use Rattle.cluster_text.specs.Peers.{KeepsAddresses};
ghost use Rattle.cluster_text.specs.Outside.{network_at};
ghost use Rattle.server_command.specs.Cuts.{CutsConnection, CutsRecord, CutsRecords, CutsStream};
ghost use Rattle.server_command.specs.GoesOn.{Breaks, Does, EndsServing};
ghost use Rattle.server_command.specs.declared.metadata_server.StepErr.TheVariants.{DiskFault};
ghost use Rattle.server_command.specs.Messages.{InTurn, ServesRecord, serving};
ghost use Rattle.server_command.specs.Connections.{ServesConnection, ServesStream};

use crate::messages::work_all;
use crate::metadata_server::{MetadataServer, StepErr};
use crate::records::{handle, sender_of};
use crate::serve_err::ServerServeErr;
use osd_bytes::{Clock, Inbox, Links};
use osd_lists::ByteLists;
use std::alloc::Global;
use stripe_repair::Place;

// Handles a record of the accepted connection, and sends all that it brings. Gives whether the connection stands after
// that: it took whole what was put on it.
fn serve_record<H: MetadataServer, L: Links, C: Clock, P: Place>(
    alloc: Global,
    server: &mut H,
    links: &mut L,
    clock: &mut C,
    placer: &P,
    message: &[u8],
    puts: bool,
) -> Result<bool, StepErr>
    requires goes_on { H.is_over server.old ≡ false }
    requires placer { P.is_placer placer.now }
    ensures serves { IfOk result (λ still. Does H.MetadataServer server.old server.new (λ had has. ServesRecord message.now
        (serving (H.server server.old) [] puts had (network_at L.Links C.Clock links.old clock.old))
        (serving (H.server server.new) [] still has (network_at L.Links C.Clock links.new clock.new)))) }
    ensures cuts { IfErr result (λ e. Breaks H.MetadataServer (e ≡ DiskFault) server.old server.new (λ had. CutsRecord message.now
        (serving (H.server server.old) [] puts had (network_at L.Links C.Clock links.old clock.old))
        (network_at L.Links C.Clock links.new clock.new))) }
    ensures addresses { KeepsAddresses (L.standing links.old) (L.standing links.new) }
{
    let sender = sender_of(alloc, message)?;
    let sends = handle(alloc, server, links, clock, placer, sender, message)?;
    let still = work_all(
        alloc,
        server,
        links,
        clock,
        placer,
        Some(sender),
        sends,
        puts,
    )?;
    Ok(still)
}

// Serves these records in order. Gives whether the connection stands after them.
fn serve_records<H: MetadataServer, L: Links, C: Clock, P: Place>(
    alloc: Global,
    server: &mut H,
    links: &mut L,
    clock: &mut C,
    placer: &P,
    records: &ByteLists,
    puts: bool,
) -> Result<bool, StepErr>
    requires goes_on { H.is_over server.old ≡ false }
    requires placer { P.is_placer placer.now }
    ensures serves { IfOk result (λ still. Does H.MetadataServer server.old server.new (λ had has. InTurn ServesRecord records.now
        (serving (H.server server.old) [] puts had (network_at L.Links C.Clock links.old clock.old))
        (serving (H.server server.new) [] still has (network_at L.Links C.Clock links.new clock.new)))) }
    ensures cuts { IfErr result (λ e. Breaks H.MetadataServer (e ≡ DiskFault) server.old server.new (λ had.
        CutsRecords records.now
        (serving (H.server server.old) [] puts had (network_at L.Links C.Clock links.old clock.old))
        (network_at L.Links C.Clock links.new clock.new))) }
    ensures addresses { KeepsAddresses (L.standing links.old) (L.standing links.new) }
{
    let mut stands = puts;
    for i in 0..records.len() {
        stands = serve_record(
            alloc,
            server,
            links,
            clock,
            placer,
            records.get(i).as_slice(),
            stands,
        )?;
    }
    Ok(stands)
}

// Serves the records that come on the accepted connection.
fn serve_stream<H: MetadataServer, L: Links, C: Clock, P: Place>(
    alloc: Global,
    server: &mut H,
    links: &mut L,
    clock: &mut C,
    placer: &P,
    puts: bool,
) -> Result<(), StepErr>
    requires goes_on { H.is_over server.old ≡ false }
    requires placer { P.is_placer placer.now }
    ensures serves { OnOk result (Does H.MetadataServer server.old server.new (λ had has. ServesStream
        (serving (H.server server.old) [] puts had (network_at L.Links C.Clock links.old clock.old))
        (H.server server.new) has (network_at L.Links C.Clock links.new clock.new))) }
    ensures cuts { IfErr result (λ e. Breaks H.MetadataServer (e ≡ DiskFault) server.old server.new (λ had. CutsStream
        (serving (H.server server.old) [] puts had (network_at L.Links C.Clock links.old clock.old))
        (network_at L.Links C.Clock links.new clock.new))) }
    ensures addresses { KeepsAddresses (L.standing links.old) (L.standing links.new) }
{
    let mut inbox = Inbox::new(alloc);
    let mut stands = puts;
    loop {
        match inbox.more(links)? {
            None => return Ok(()),
            Some(records) => {
                stands = serve_records(alloc, server, links, clock, placer, &records, stands)?;
            }
        }
    }
}

// Serves the connection that was accepted.
fn serve_connection<H: MetadataServer, L: Links, C: Clock, P: Place>(
    alloc: Global,
    server: &mut H,
    links: &mut L,
    clock: &mut C,
    placer: &P,
) -> Result<(), StepErr>
    requires goes_on { H.is_over server.old ≡ false }
    requires placer { P.is_placer placer.now }
    ensures serves { OnOk result (Does H.MetadataServer server.old server.new (λ had has.
        ServesConnection (H.server server.old) (H.server server.new) had has
        (network_at L.Links C.Clock links.old clock.old) (network_at L.Links C.Clock links.new clock.new))) }
    ensures cuts { IfErr result (λ e. Breaks H.MetadataServer (e ≡ DiskFault) server.old server.new (λ had.
        CutsConnection (H.server server.old) had
        (network_at L.Links C.Clock links.old clock.old) (network_at L.Links C.Clock links.new clock.new))) }
    ensures addresses { KeepsAddresses (L.standing links.old) (L.standing links.new) }
{
    let sends = server.resend()?;
    let stands = work_all(alloc, server, links, clock, placer, None, sends, true)?;
    serve_stream(alloc, server, links, clock, placer, stands)?;
    Ok(())
}

/// Accepts so many connections, one after the other, and serves each: the commands that jobs wait for are sent once
/// more; then every whole record that comes is handled at the next time of the clock, what the server notes then is told
/// through the links, and what the record brings is worked until nothing waits, up to the connection's end, a call on it
/// that fails, a record that is too long, or 67,108,864 bytes.
///
/// A command is one exchange with its drive, whose record is handled in its turn. The command is lost if the exchange is
/// refused, or if it is longer than a record may be. What is for who sent the record is put, unless an answer
/// before it couldn't be put whole. A message to any other client is lost.
///
/// What was put on a connection is what steps gave that the server had done to their ends by then. If a disk keeps the server,
/// it has each of these from the step's end on.
///
/// # Errors
///
/// [`ServerServeErr::LinkFault`] if no further connection could be accepted, after those before it were served whole;
/// [`ServerServeErr::DiskFault`] only if the count of faults of the disk that keeps the server rose;
/// [`ServerServeErr::Memory`], after which nothing may be left of a server that no disk keeps. Of the step at which memory or the
/// disk failed nothing was put.
pub fn serve<H: MetadataServer, L: Links, C: Clock, P: Place>(
    alloc: Global,
    server: &mut H,
    links: &mut L,
    clock: &mut C,
    placer: &P,
    connections: u32,
) -> Result<(), ServerServeErr>
    requires goes_on { H.is_over server.old ≡ false }
    requires placer { P.is_placer placer.now }
    ensures ends { EndsServing H.MetadataServer connections server.old server.new
        (network_at L.Links C.Clock links.old clock.old) (network_at L.Links C.Clock links.new clock.new) result }
    ensures addresses { KeepsAddresses (L.standing links.old) (L.standing links.new) }
{
    let mut served = 0;
    while served < connections {
        // Arms in place of `?` are for the prover (docs/dev/PROVER_FORMS.md).
        match links.accept() {
            Ok(()) => {}
            Err(_) => return Err(ServerServeErr::LinkFault),
        }
        match serve_connection(alloc, server, links, clock, placer) {
            Ok(()) => {}
            Err(e) => return Err(ServerServeErr::from(e)),
        }
        served += 1;
    }
    Ok(())
}
