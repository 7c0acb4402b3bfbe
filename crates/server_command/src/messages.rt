// The messages that a server has to send, one after the other.
ghost use Rattle.std.specs.Prelude.{◌≡◌, [], ℕ, false, List, Option, IfOk, IfErr, OnErr};
ghost use Rattle.cluster_text.specs.Peers.{KeepsAddresses};
ghost use Rattle.cluster_text.specs.Outside.{network_at};
ghost use Rattle.osd_bytes.specs.Asking.{ends_of};
ghost use Rattle.server_rules.specs.declared.server.Server.{Server};
ghost use Rattle.server_requests.specs.declared.outgoing.Sent.{Sent};
ghost use Rattle.server_command.specs.Cuts.{Cuts, CutsRound, CutsWork};
ghost use Rattle.server_command.specs.GoesOn.{Breaks, Does};
ghost use Rattle.server_command.specs.Steps.{ServerStep};
ghost use Rattle.server_command.specs.declared.metadata_server.StepErr.TheVariants.{DiskFault};
ghost use Rattle.server_command.specs.Messages.{InTurn, PutsIf, Works, WorksAll, is_sender, serving};

use crate::metadata_server::{MetadataServer, StepErr};
use crate::records::ask_drive;
use layout_server::{Sends, Sent};
use osd_bytes::{Clock, Links, put_record};
use osd_lists::{Memory, Node};
use std::alloc::Global;
use std::mem;
use stripe_repair::Place;

// Whether this node sent the record whose messages are sent.
fn is_sender(sender: Option<Node>, to: Node) -> bool
    ensures { result ≡ is_sender sender to }
{
    match (sender, to) {
        (Some(Node::Server), Node::Server) => true,
        (Some(Node::Client(client)), Node::Client(other)) => client == other,
        _ => false,
    }
}

// Puts a message on the accepted connection, if it is meant to go there. Gives whether the connection stands after that.
fn put_if<L: Links>(
    alloc: Global,
    links: &mut L,
    message: &[u8],
    is_meant: bool,
    stands: bool,
) -> Result<bool, Memory>
    ensures puts { IfOk result (λ still. (server : Server) (waiting : List Sent) (done : List ServerStep)
        (times : Option (List ℕ)) → PutsIf is_meant message.now
        (serving server waiting stands done (ends_of (L.told links.old) (L.faults links.old) times))
        (serving server waiting still done (ends_of (L.told links.new) (L.faults links.new) times))) }
    ensures none { OnErr result ((L.told links.new ≡ L.told links.old) × (L.faults links.new ≡ L.faults links.old)) }
    ensures addresses { KeepsAddresses (L.standing links.old) (L.standing links.new) }
{
    if !is_meant {
        return Ok(stands);
    }
    let still = put_record(alloc, links, message)?;
    Ok(still)
}

// Sends one message. Gives whether the accepted connection stands after that.
fn work<H: MetadataServer, L: Links, C: Clock, P: Place>(
    alloc: Global,
    server: &mut H,
    links: &mut L,
    clock: &mut C,
    placer: &P,
    sender: Option<Node>,
    sent: &Sent,
    stands: bool,
    waiting: &mut Sends,
) -> Result<bool, StepErr>
    requires goes_on { H.is_over server.old ≡ false }
    requires placer { P.is_placer placer.now }
    ensures works { IfOk result (λ still. Does H.MetadataServer server.old server.new (λ had has. Works sender sent.now
        (serving (H.server server.old) waiting.old stands had (network_at L.Links C.Clock links.old clock.old))
        (serving (H.server server.new) waiting.new still has (network_at L.Links C.Clock links.new clock.new)))) }
    ensures cuts { IfErr result (λ e. Breaks H.MetadataServer (e ≡ DiskFault) server.old server.new (λ had. Cuts sent.now
        (serving (H.server server.old) waiting.old stands had (network_at L.Links C.Clock links.old clock.old))
        (network_at L.Links C.Clock links.new clock.new))) }
    ensures addresses { KeepsAddresses (L.standing links.old) (L.standing links.new) }
{
    let message = sent.bytes.as_slice();
    match sent.to {
        Node::Drive(drive) => {
            ask_drive(alloc, server, links, clock, placer, drive, message, waiting)?;
            Ok(stands)
        }
        Node::Server => {
            let is_meant = is_sender(sender, Node::Server) && stands;
            let still = put_if(alloc, links, message, is_meant, stands)?;
            Ok(still)
        }
        Node::Client(client) => {
            let is_meant = is_sender(sender, Node::Client(client)) && stands;
            let still = put_if(alloc, links, message, is_meant, stands)?;
            Ok(still)
        }
    }
}

// Sends these messages in order. What they bring waits after that.
fn work_round<H: MetadataServer, L: Links, C: Clock, P: Place>(
    alloc: Global,
    server: &mut H,
    links: &mut L,
    clock: &mut C,
    placer: &P,
    sender: Option<Node>,
    round: &Sends,
    puts: bool,
    waiting: &mut Sends,
) -> Result<bool, StepErr>
    requires goes_on { H.is_over server.old ≡ false }
    requires placer { P.is_placer placer.now }
    ensures works { IfOk result (λ still. Does H.MetadataServer server.old server.new (λ had has. InTurn (Works sender) round.now
        (serving (H.server server.old) waiting.old puts had (network_at L.Links C.Clock links.old clock.old))
        (serving (H.server server.new) waiting.new still has (network_at L.Links C.Clock links.new clock.new)))) }
    ensures cuts { IfErr result (λ e. Breaks H.MetadataServer (e ≡ DiskFault) server.old server.new (λ had.
        CutsRound sender round.now
        (serving (H.server server.old) waiting.old puts had (network_at L.Links C.Clock links.old clock.old))
        (network_at L.Links C.Clock links.new clock.new))) }
    ensures addresses { KeepsAddresses (L.standing links.old) (L.standing links.new) }
{
    let mut stands = puts;
    for i in 0..round.len() {
        stands = work(
            alloc,
            server,
            links,
            clock,
            placer,
            sender,
            round.get(i),
            stands,
            waiting,
        )?;
    }
    Ok(stands)
}

/// Sends these messages in order, and then what they bring, until none waits. Gives whether the accepted connection
/// stands after that: it took whole what was put on it.
pub fn work_all<H: MetadataServer, L: Links, C: Clock, P: Place>(
    alloc: Global,
    server: &mut H,
    links: &mut L,
    clock: &mut C,
    placer: &P,
    sender: Option<Node>,
    sends: Sends,
    puts: bool,
) -> Result<bool, StepErr>
    requires goes_on { H.is_over server.old ≡ false }
    requires placer { P.is_placer placer.now }
    ensures works { IfOk result (λ still. Does H.MetadataServer server.old server.new (λ had has. WorksAll sender
        (serving (H.server server.old) sends puts had (network_at L.Links C.Clock links.old clock.old))
        (serving (H.server server.new) [] still has (network_at L.Links C.Clock links.new clock.new)))) }
    ensures cuts { IfErr result (λ e. Breaks H.MetadataServer (e ≡ DiskFault) server.old server.new (λ had. CutsWork sender
        (serving (H.server server.old) sends puts had (network_at L.Links C.Clock links.old clock.old))
        (network_at L.Links C.Clock links.new clock.new))) }
    ensures addresses { KeepsAddresses (L.standing links.old) (L.standing links.new) }
{
    let mut waiting = sends;
    let mut stands = puts;
    // Each round that brings messages raises the server's nonce, so a drive that answers for ever is left at last.
    'rounds: while !waiting.is_empty() {
        let round = mem::replace(&mut waiting, Sends::new(alloc));
        stands = work_round(
            alloc,
            server,
            links,
            clock,
            placer,
            sender,
            &round,
            stands,
            &mut waiting,
        )?;
    }
    Ok(stands)
}
