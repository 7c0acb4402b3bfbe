// The commands by which files are made, one after the other.
ghost use Rattle.std.specs.Prelude.{◌≡◌, [], true, false, IfErr, IfOk, OnErr, OnOk};
ghost use Rattle.cluster_text.specs.Peers.{KeepsAddresses};
ghost use Rattle.cluster_text.specs.Outside.{network_at};
ghost use Rattle.osd_lists.specs.declared.node.Node.TheVariants.{Drive};
ghost use Rattle.server_command.specs.Cuts.{CutsMake, CutsMakes, CutsMaking, CutsOn};
ghost use Rattle.server_command.specs.Faults.{IsTold};
ghost use Rattle.server_command.specs.GoesOn.{Breaks, BrokeBy, Does, WentBy};
ghost use Rattle.server_command.specs.Knowing.{Learns};
ghost use Rattle.server_command.specs.declared.metadata_server.StepErr.TheVariants as step_err;
ghost use Rattle.server_command.specs.declared.server_stop.ServerStop.TheVariants.{DiskFault};
ghost use Rattle.server_command.specs.Messages.{InTurn, UntilNone, serving};
ghost use Rattle.server_command.specs.Files.{Loses, LosesAll, LosesIn, LosesTo, Makes, MakesTo, StopsBy};

use crate::faults::{held_line, refused_line, silent_line};
use crate::metadata_server::{MetadataServer, StepErr};
use crate::records::hear_drive;
use crate::server_stop::ServerStop;
use cluster_text::CommandStop;
use layout_server::{Sends, Sent};
use osd_bytes::{Clock, Links, asked};
use osd_lists::{Memory, Node};
use reply_matching::{Creation, creation_told};
use std::alloc::Global;
use std::mem;
use stripe_repair::Place;

// Tells why the making stops at what a drive says of an object, and gives whether it does.
fn tell_fault<L: Links>(
    alloc: Global,
    links: &mut L,
    drive: u32,
    said: Option<Creation>,
) -> Result<bool, Memory>
    ensures told { IfOk result (λ stops. IsTold drive said stops (L.told links.old) (L.told links.new)) }
    ensures err { OnErr result (L.told links.new ≡ L.told links.old) }
    ensures same { L.faults links.new ≡ L.faults links.old }
    ensures addresses { KeepsAddresses (L.standing links.old) (L.standing links.new) }
{
    match said {
        Some(Creation::Held { object }) => {
            let line = held_line(alloc, drive, object)?;
            links.note(line.as_bytes())?;
            Ok(true)
        }
        Some(Creation::Refused { object }) => {
            let line = refused_line(alloc, drive, object)?;
            links.note(line.as_bytes())?;
            Ok(true)
        }
        Some(Creation::Made { .. }) | Some(Creation::OldFormat) | None => Ok(false),
    }
}

// A server that keeps itself keeps that a drive made an object, before anything comes of that. Of an object that the drive
// holds already, or refuses, it keeps nothing.
fn keep_creation<H: MetadataServer>(
    server: &mut H,
    drive: u32,
    said: Option<Creation>,
) -> Result<(), StepErr>
    requires goes_on { H.is_over server.old ≡ false }
    ensures learns { OnOk result (H.keeps server.old → Learns (H.knows server.old) (H.knows server.new) drive said) }
    ensures ok { OnOk result (WentBy H.MetadataServer [] server.old server.new) }
    ensures err { IfErr result (λ e. BrokeBy H.MetadataServer [] [] (e ≡ step_err.DiskFault) server.old server.new) }
{
    match said {
        Some(Creation::Made { object }) => match server.keep_made(drive, object) {
            Ok(()) => Ok(()),
            Err(e) => Err(e),
        },
        Some(Creation::Held { .. })
        | Some(Creation::Refused { .. })
        | Some(Creation::OldFormat)
        | None => Ok(()),
    }
}

// Sends a command to its drive, and hands the server the record that comes. The file isn't made if no record comes, or
// one that doesn't say that the drive made the object.
fn make_on<H: MetadataServer, L: Links, C: Clock, P: Place>(
    alloc: Global,
    server: &mut H,
    links: &mut L,
    clock: &mut C,
    placer: &P,
    drive: u32,
    message: &[u8],
    waiting: &mut Sends,
) -> Result<(), ServerStop>
    requires goes_on { H.is_over server.old ≡ false }
    requires placer { P.is_placer placer.now }
    ensures makes { OnOk result (Does H.MetadataServer server.old server.new (λ had has. MakesTo (Drive drive) message.now
        (serving (H.server server.old) waiting.old true had (network_at L.Links C.Clock links.old clock.old))
        (serving (H.server server.new) waiting.new true has (network_at L.Links C.Clock links.new clock.new)))) }
    ensures stops { IfErr result (λ stop. Breaks H.MetadataServer (stop ≡ DiskFault) server.old server.new (λ had. StopsBy
        (λ has. LosesTo (Drive drive) message.now
        (serving (H.server server.old) waiting.old true had (network_at L.Links C.Clock links.old clock.old))
        (serving (H.server server.new) waiting.new true has (network_at L.Links C.Clock links.new clock.new)))
        ⊥
        (CutsOn drive message.now
        (serving (H.server server.old) waiting.old true had (network_at L.Links C.Clock links.old clock.old))
        (network_at L.Links C.Clock links.new clock.new)) stop)) }
    ensures addresses { KeepsAddresses (L.standing links.old) (L.standing links.new) }
{
    let Some(reply) = asked(alloc, links, Node::Drive(drive), message)? else {
        let line = silent_line(alloc, drive)?;
        links.note(line.as_bytes())?;
        return Err(ServerStop::Command(CommandStop::LinkFault));
    };
    let said = creation_told(alloc, message, reply.as_slice())?;
    let stops = tell_fault(alloc, links, drive, said)?;
    if stops {
        return Err(ServerStop::Command(CommandStop::LinkFault));
    }
    keep_creation(server, drive, said)?;
    hear_drive(
        alloc,
        server,
        links,
        clock,
        placer,
        drive,
        reply.as_slice(),
        waiting,
    )?;
    Ok(())
}

// Sends a command to its drive. A message to another node isn't sent.
fn make_one<H: MetadataServer, L: Links, C: Clock, P: Place>(
    alloc: Global,
    server: &mut H,
    links: &mut L,
    clock: &mut C,
    placer: &P,
    sent: &Sent,
    waiting: &mut Sends,
) -> Result<(), ServerStop>
    requires goes_on { H.is_over server.old ≡ false }
    requires placer { P.is_placer placer.now }
    ensures makes { OnOk result (Does H.MetadataServer server.old server.new (λ had has. Makes sent.now
        (serving (H.server server.old) waiting.old true had (network_at L.Links C.Clock links.old clock.old))
        (serving (H.server server.new) waiting.new true has (network_at L.Links C.Clock links.new clock.new)))) }
    ensures stops { IfErr result (λ stop. Breaks H.MetadataServer (stop ≡ DiskFault) server.old server.new (λ had. StopsBy
        (λ has. Loses sent.now
        (serving (H.server server.old) waiting.old true had (network_at L.Links C.Clock links.old clock.old))
        (serving (H.server server.new) waiting.new true has (network_at L.Links C.Clock links.new clock.new)))
        ⊥
        (CutsMake sent.now
        (serving (H.server server.old) waiting.old true had (network_at L.Links C.Clock links.old clock.old))
        (network_at L.Links C.Clock links.new clock.new)) stop)) }
    ensures addresses { KeepsAddresses (L.standing links.old) (L.standing links.new) }
{
    match sent.to {
        Node::Drive(drive) => {
            make_on(
                alloc,
                server,
                links,
                clock,
                placer,
                drive,
                sent.bytes.as_slice(),
                waiting,
            )
        }
        Node::Server | Node::Client(_) => Ok(()),
    }
}

// Sends these commands to their drives in order. What they bring waits after that.
fn make_round<H: MetadataServer, L: Links, C: Clock, P: Place>(
    alloc: Global,
    server: &mut H,
    links: &mut L,
    clock: &mut C,
    placer: &P,
    round: &Sends,
    waiting: &mut Sends,
) -> Result<(), ServerStop>
    requires goes_on { H.is_over server.old ≡ false }
    requires placer { P.is_placer placer.now }
    ensures makes { OnOk result (Does H.MetadataServer server.old server.new (λ had has. InTurn Makes round.now
        (serving (H.server server.old) waiting.old true had (network_at L.Links C.Clock links.old clock.old))
        (serving (H.server server.new) waiting.new true has (network_at L.Links C.Clock links.new clock.new)))) }
    ensures stops { IfErr result (λ stop. Breaks H.MetadataServer (stop ≡ DiskFault) server.old server.new (λ had. StopsBy
        (λ has. LosesIn round.now
        (serving (H.server server.old) waiting.old true had (network_at L.Links C.Clock links.old clock.old))
        (serving (H.server server.new) waiting.new true has (network_at L.Links C.Clock links.new clock.new)))
        ⊥
        (CutsMakes round.now
        (serving (H.server server.old) waiting.old true had (network_at L.Links C.Clock links.old clock.old))
        (network_at L.Links C.Clock links.new clock.new)) stop)) }
    ensures addresses { KeepsAddresses (L.standing links.old) (L.standing links.new) }
{
    for i in 0..round.len() {
        // Here and below, arms in place of `?` or of the bare call are for the prover (docs/dev/PROVER_FORMS.md).
        match make_one(alloc, server, links, clock, placer, round.get(i), waiting) {
            Ok(()) => {}
            Err(stop) => return Err(stop),
        }
    }
    Ok(())
}

/// Sends these commands to their drives in order, and then what they bring, until none waits.
///
/// # Errors
///
/// [`CommandStop::LinkFault`] exactly if an exchange gave no record, or one to a CREATE that neither says that the object was
/// made nor asks for another format, and a note told which; [`CommandStop::Memory`]; [`ServerStop::DiskFault`] only if the
/// count of faults rose.
pub fn make_all<H: MetadataServer, L: Links, C: Clock, P: Place>(
    alloc: Global,
    server: &mut H,
    links: &mut L,
    clock: &mut C,
    placer: &P,
    sends: Sends,
) -> Result<(), ServerStop>
    requires goes_on { H.is_over server.old ≡ false }
    requires placer { P.is_placer placer.now }
    ensures makes { OnOk result (Does H.MetadataServer server.old server.new (λ had has. UntilNone Makes
        (serving (H.server server.old) sends true had (network_at L.Links C.Clock links.old clock.old))
        (serving (H.server server.new) [] true has (network_at L.Links C.Clock links.new clock.new)))) }
    ensures stops { IfErr result (λ stop. Breaks H.MetadataServer (stop ≡ DiskFault) server.old server.new (λ had. StopsBy
        (λ has. LosesAll
        (serving (H.server server.old) sends true had (network_at L.Links C.Clock links.old clock.old))
        (H.server server.new) has (network_at L.Links C.Clock links.new clock.new))
        ⊥
        (CutsMaking
        (serving (H.server server.old) sends true had (network_at L.Links C.Clock links.old clock.old))
        (network_at L.Links C.Clock links.new clock.new)) stop)) }
    ensures addresses { KeepsAddresses (L.standing links.old) (L.standing links.new) }
{
    let mut waiting = sends;
    // Each round that brings commands raises the server's nonce, so a drive that answers for ever is left at last.
    'rounds: while !waiting.is_empty() {
        let round = mem::replace(&mut waiting, Sends::new(alloc));
        match make_round(alloc, server, links, clock, placer, &round, &mut waiting) {
            Ok(()) => {}
            Err(stop) => return Err(stop),
        }
    }
    Ok(())
}
