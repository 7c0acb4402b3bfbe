// A message is delivered.
ghost use Rattle.std.specs.Prelude.{◌≡◌, ◌<◌, length, IfOk, OnOk};
ghost use Rattle.scenario_text.specs.declared.line.Party.TheVariants as party;
ghost use Rattle.world_history.specs.Moves.{Delivers, delivers};
ghost use Rattle.layout_world.specs.Acting.{ActsWith, ends_in, HandsAt, HandsTo, Marked};

use crate::parties::Parties;
use osd_lists::Memory;
use scenario_text::{ClientName, Delivery, DriveName, Line, Party};
use std::alloc::Global;
use stripe_repair::Place;
use world_network::{Act, Handed, behind, network_shows, node_of};
use world_parties::{clients_are_the_worlds, drives_are_the_worlds};

// Message `number` comes to a drive.
fn hand_drive(
    parties: &mut Parties,
    alloc: Global,
    drive: DriveName,
    number: usize,
) -> Result<Handed, Memory>
    requires sent { number < length parties.old.network.messages }
    ensures handed { IfOk result (λ h. HandsTo number (party.Drive drive) parties.old parties.new h) }
    ensures network { parties.new.network ≡ parties.old.network }
{
    drives_are_the_worlds();
    let sent = parties.network.message(number);
    let handed = parties
        .drives
        .hear(alloc, drive, sent.from, sent.bytes.as_slice())?;
    Ok(handed)
}

// The same to a client.
fn hand_client(
    parties: &mut Parties,
    alloc: Global,
    client: ClientName,
    number: usize,
) -> Result<Handed, Memory>
    requires sent { number < length parties.old.network.messages }
    ensures handed { IfOk result (λ h. HandsTo number (party.Client client) parties.old parties.new h) }
    ensures network { parties.new.network ≡ parties.old.network }
{
    clients_are_the_worlds();
    let sent = parties.network.message(number);
    let from = node_of(sent.from);
    let handed = parties
        .clients
        .hear(alloc, client, from, sent.bytes.as_slice())?;
    Ok(handed)
}

// The same to the server, which is deaf while it is down.
fn hand_server<P: Place>(
    parties: &mut Parties,
    alloc: Global,
    number: usize,
    placer: &P,
) -> Result<Handed, Memory>
    requires sent { number < length parties.old.network.messages }
    requires placer { P.is_placer placer.now }
    ensures handed { IfOk result (λ h. HandsTo number party.Server parties.old parties.new h) }
    ensures network { parties.new.network ≡ parties.old.network }
{
    if parties.down {
        return Ok(Handed::quiet(alloc, Delivery::Deaf));
    }
    let now = parties.clock;
    let sent = parties.network.message(number);
    let from = node_of(sent.from);
    let handed = parties
        .server
        .hear(alloc, now, from, sent.bytes.as_slice(), placer)?;
    Ok(handed)
}

// Message `number` comes to its receiver.
fn hand<P: Place>(
    parties: &mut Parties,
    alloc: Global,
    number: usize,
    placer: &P,
) -> Result<Handed, Memory>
    requires sent { number < length parties.old.network.messages }
    requires placer { P.is_placer placer.now }
    ensures handed { IfOk result (λ h. HandsAt number parties.old parties.new h) }
    ensures network { parties.new.network ≡ parties.old.network }
{
    match parties.network.message(number).to {
        Party::Drive { drive } => hand_drive(parties, alloc, drive, number),
        Party::Client { client } => hand_client(parties, alloc, client, number),
        Party::Server => hand_server(parties, alloc, number, placer),
    }
}

/// Message `number` is delivered; nothing happens where there is none.
pub fn deliver<P: Place>(
    parties: &mut Parties,
    alloc: Global,
    number: usize,
    placer: &P,
) -> Result<Act, Memory>
    requires placer { P.is_placer placer.now }
    ensures acts { IfOk result (λ act. ActsWith (λ w chosen. delivers w chosen number) (ends_in (Delivers number))
        parties.old parties.new act) }
    ensures marked { OnOk result (Marked number parties.old.network parties.new.network) }
{
    network_shows();
    if number >= parties.network.len() {
        return Ok(Act::nothing(alloc));
    }
    parties.network.deliver(number);
    let handed = hand(parties, alloc, number, placer)?;
    let line = Line::Delivered {
        message: number as u64,
        delivery: handed.receipt,
    };
    let act = behind(alloc, line, handed.act)?;
    Ok(act)
}
