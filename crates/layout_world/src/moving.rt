// The moves behind the first one of an event.
ghost use Rattle.std.specs.Prelude.{OnOk, IfErr};
ghost use Rattle.world_history.specs.Moves.{Delivers as DeliversAt, TimesOut, Pends};
ghost use Rattle.layout_world.specs.Acting.{Grows};
ghost use Rattle.layout_world.specs.Going.{Moves, SettlesOne};
ghost use Rattle.layout_world.specs.Refusing.{IsEnd};
ghost use Rattle.layout_world.specs.Watching.{LeavesTold};

use crate::acts::perform;
use crate::by_client::{pend, time_out};
use crate::delivering::deliver;
use crate::parties::Parties;
use osd_lists::Memory;
use scenario_text::ClientName;
use std::alloc::Global;
use stripe_repair::Place;
use world_history::WorldErr;
use world_network::Lines;
use world_watch::Watch;

/// Delivers a message, and carries out what its receiver does.
///
/// # Errors
///
/// `KeptFull` where a message would pass the limit of kept bytes, and `Memory`.
pub fn deliver_move<P: Place>(
    parties: &mut Parties,
    watch: &mut Watch,
    alloc: Global,
    number: usize,
    placer: &P,
    lines: &mut Lines,
) -> Result<(), WorldErr>
    requires placer { P.is_placer placer.now }
    ensures moves { Moves (DeliversAt number) parties.old parties.new watch.old watch.new lines.old lines.new result }
    ensures settles { OnOk result (SettlesOne number parties.old.network.messages parties.new.network.messages) }
    ensures told { LeavesTold watch.old watch.new }
    ensures halts { IfErr result IsEnd }
{
    match deliver(parties, alloc, number, placer) {
        Ok(act) => perform(parties, watch, alloc, act, lines.len(), lines),
        Err(Memory) => Err(WorldErr::Memory),
    }
}

/// A component times out at a client, which carries out what it does then.
///
/// # Errors
///
/// `KeptFull` where a message would pass the limit of kept bytes, and `Memory`.
pub fn time_out_move(
    parties: &mut Parties,
    watch: &mut Watch,
    alloc: Global,
    client: ClientName,
    component: u32,
    lines: &mut Lines,
) -> Result<(), WorldErr>
    ensures moves { Moves (TimesOut client component) parties.old parties.new watch.old watch.new lines.old lines.new result }
    ensures grows { OnOk result (Grows parties.old.network.messages parties.new.network.messages) }
    ensures told { LeavesTold watch.old watch.new }
    ensures halts { IfErr result IsEnd }
{
    match time_out(parties, alloc, client, component) {
        Ok(act) => perform(parties, watch, alloc, act, lines.len(), lines),
        Err(Memory) => Err(WorldErr::Memory),
    }
}

/// A client tells that its call is left pending.
pub fn pend_move(
    parties: &mut Parties,
    watch: &mut Watch,
    alloc: Global,
    client: ClientName,
    lines: &mut Lines,
) -> Result<(), WorldErr>
    ensures moves { Moves (Pends client) parties.old parties.new watch.old watch.new lines.old lines.new result }
    ensures grows { OnOk result (Grows parties.old.network.messages parties.new.network.messages) }
    ensures told { LeavesTold watch.old watch.new }
    ensures halts { IfErr result IsEnd }
{
    match pend(parties, alloc, client) {
        Ok(act) => perform(parties, watch, alloc, act, lines.len(), lines),
        Err(Memory) => Err(WorldErr::Memory),
    }
}
