// A record of a node, handed to the server.
ghost use Rattle.std.specs.Prelude.{◌≡◌, ◌++◌, Bool, false, List, IfOk, IfErr, OnOk};
ghost use Rattle.cluster_text.specs.Peers.{KeepsAddresses};
ghost use Rattle.cluster_text.specs.Outside.{network_at};
ghost use Rattle.osd_lists.specs.declared.node.Node.TheVariants.{Drive};
ghost use Rattle.server_requests.specs.declared.outgoing.Sent.{Sent};
ghost use Rattle.server_command.specs.Cuts.{CutsAsk, CutsHandle};
ghost use Rattle.server_command.specs.GoesOn.{Breaks, Does};
ghost use Rattle.server_command.specs.declared.metadata_server.StepErr.TheVariants.{DiskFault};
ghost use Rattle.server_command.specs.Messages.{AsksDrive, Handles, sender_of, serving};

use crate::metadata_server::{MetadataServer, StepErr};
use crate::notes::tell_notes;
use layout_ops::{Envelope, OpErr, read_envelope};
use layout_server::{Sends, Sent, Step};
use osd_bytes::{Clock, Links, asked};
use osd_lists::{Bytes, Memory, Node};
use std::alloc::Global;
use stripe_repair::Place;

/// Who sent a record of an accepted connection: the client that a request or a recall's answer names, else the program
/// that gives orders, which stands for the server.
pub fn sender_of(alloc: Global, message: &[u8]) -> Result<Node, Memory>
    ensures { IfOk result (λ sender. sender ≡ sender_of message.now) }
{
    match read_envelope(alloc, message) {
        Ok(Envelope::Request(request)) => Ok(Node::Client(request.client)),
        Ok(Envelope::RecallAnswer(answer)) => Ok(Node::Client(answer.client)),
        Ok(_) => Ok(Node::Server),
        Err(OpErr::Memory) => Err(Memory),
        Err(_) => Ok(Node::Server),
    }
}

/// Hands a record of a node to the server at the next time of the clock, tells what the server notes then, and gives what
/// is to be sent.
///
/// # Errors
///
/// [`StepErr::DiskFault`] only if the count of faults rose, and [`StepErr::Memory`]. Then the server takes no more.
pub fn handle<H: MetadataServer, L: Links, C: Clock, P: Place>(
    alloc: Global,
    server: &mut H,
    links: &mut L,
    clock: &mut C,
    placer: &P,
    from: Node,
    message: &[u8],
) -> Result<Sends, StepErr>
    requires goes_on { H.is_over server.old ≡ false }
    requires placer { P.is_placer placer.now }
    ensures handles { IfOk result (λ sends. (waiting : List Sent) (stands : Bool) →
        Does H.MetadataServer server.old server.new (λ had has. Handles from message.now
        (serving (H.server server.old) waiting stands had (network_at L.Links C.Clock links.old clock.old))
        (serving (H.server server.new) (waiting ++ sends) stands has
        (network_at L.Links C.Clock links.new clock.new)))) }
    ensures cuts { IfErr result (λ e. (waiting : List Sent) (stands : Bool) →
        Breaks H.MetadataServer (e ≡ DiskFault) server.old server.new (λ had. CutsHandle from message.now
        (serving (H.server server.old) waiting stands had (network_at L.Links C.Clock links.old clock.old))
        (network_at L.Links C.Clock links.new clock.new))) }
    ensures addresses { KeepsAddresses (L.standing links.old) (L.standing links.new) }
{
    let now = clock.now();
    let Step { sends, notes, .. } = server.on_message(now, from, message, placer)?;
    tell_notes(alloc, links, notes)?;
    Ok(sends)
}

// Adds these messages after those that wait.
fn push_all(alloc: Global, waiting: &mut Sends, more: &[Sent]) -> Result<(), Memory>
    ensures { OnOk result (waiting.new ≡ waiting.old ++ more.now) }
{
    for sent in more {
        let bytes = Bytes::copied(alloc, sent.bytes.as_slice())?;
        waiting.push(Sent { to: sent.to, bytes })?;
    }
    Ok(())
}

/// Hands the record that came of a drive to the server, and tells what the server notes then. What that gives to send
/// waits behind all other messages.
pub fn hear_drive<H: MetadataServer, L: Links, C: Clock, P: Place>(
    alloc: Global,
    server: &mut H,
    links: &mut L,
    clock: &mut C,
    placer: &P,
    drive: u32,
    reply: &[u8],
    waiting: &mut Sends,
) -> Result<(), StepErr>
    requires goes_on { H.is_over server.old ≡ false }
    requires placer { P.is_placer placer.now }
    ensures hears { OnOk result ((stands : Bool) →
        Does H.MetadataServer server.old server.new (λ had has. Handles (Drive drive) reply.now
        (serving (H.server server.old) waiting.old stands had (network_at L.Links C.Clock links.old clock.old))
        (serving (H.server server.new) waiting.new stands has (network_at L.Links C.Clock links.new clock.new)))) }
    ensures cuts { IfErr result (λ e. (stands : Bool) →
        Breaks H.MetadataServer (e ≡ DiskFault) server.old server.new (λ had. CutsHandle (Drive drive) reply.now
        (serving (H.server server.old) waiting.old stands had (network_at L.Links C.Clock links.old clock.old))
        (network_at L.Links C.Clock links.new clock.new))) }
    ensures addresses { KeepsAddresses (L.standing links.old) (L.standing links.new) }
{
    let sends = handle(
        alloc,
        server,
        links,
        clock,
        placer,
        Node::Drive(drive),
        reply,
    )?;
    push_all(alloc, waiting, sends.as_slice())?;
    Ok(())
}

/// Sends a message to a drive in an exchange, and hands the record that comes, if any, to the server. What that gives to
/// send waits behind all other messages.
pub fn ask_drive<H: MetadataServer, L: Links, C: Clock, P: Place>(
    alloc: Global,
    server: &mut H,
    links: &mut L,
    clock: &mut C,
    placer: &P,
    drive: u32,
    message: &[u8],
    waiting: &mut Sends,
) -> Result<(), StepErr>
    requires goes_on { H.is_over server.old ≡ false }
    requires placer { P.is_placer placer.now }
    ensures asks { OnOk result ((stands : Bool) →
        Does H.MetadataServer server.old server.new (λ had has. AsksDrive drive message.now
        (serving (H.server server.old) waiting.old stands had (network_at L.Links C.Clock links.old clock.old))
        (serving (H.server server.new) waiting.new stands has (network_at L.Links C.Clock links.new clock.new)))) }
    ensures cuts { IfErr result (λ e. (stands : Bool) →
        Breaks H.MetadataServer (e ≡ DiskFault) server.old server.new (λ had. CutsAsk drive message.now
        (serving (H.server server.old) waiting.old stands had (network_at L.Links C.Clock links.old clock.old))
        (network_at L.Links C.Clock links.new clock.new))) }
    ensures addresses { KeepsAddresses (L.standing links.old) (L.standing links.new) }
{
    match asked(alloc, links, Node::Drive(drive), message)? {
        Some(reply) => {
            hear_drive(
                alloc,
                server,
                links,
                clock,
                placer,
                drive,
                reply.as_slice(),
                waiting,
            )?;
            Ok(())
        }
        None => Ok(()),
    }
}
