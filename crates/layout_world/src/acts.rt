// What is told and sent, as a move.
ghost use Rattle.std.specs.Prelude.{◌≡◌, ◌≤◌, List, length, drop, OnOk, OnErr, IfErr, Err};
ghost use Rattle.world_history.specs.declared.err.WorldErr.TheVariants.{Memory};
ghost use Rattle.world_history.specs.ServerNames.{Mended};
ghost use Rattle.world_history.specs.State.{World};
ghost use Rattle.world_history.specs.Moves.{Act as WorldAct};
ghost use Rattle.world_network.specs.Acts.{IsAct};
ghost use Rattle.layout_world.specs.State.{ShowsWith, Shows};
ghost use Rattle.layout_world.specs.Acting.{Grows};
ghost use Rattle.layout_world.specs.Going.{Performed, SeesAct, SeesBehind};
ghost use Rattle.layout_world.specs.Refusing.{IsEnd};
ghost use Rattle.layout_world.specs.Watching.{LeavesTold};

use crate::parties::Parties;
use std::alloc::Global;
use world_history::WorldErr;
use world_network::{Act, Lines, acts_are_moves, perform as perform_act};
use world_watch::Watch;

// The watch sees the lines of a move, which begin at `before`.
fn watch_lines(
    parties: &mut Parties,
    watch: &mut Watch,
    alloc: Global,
    before: usize,
    lines: &Lines,
) -> Result<(), WorldErr>
    ensures cause { OnErr result (result ≡ Err Memory) }
    ensures shows { (w : World) (ended : List Mended) → ShowsWith ended parties.old w → Shows parties.new w }
    ensures network { parties.new.network ≡ parties.old.network }
    ensures told { LeavesTold watch.old watch.new }
    ensures sees { OnOk result (before ≤ length lines.now
        → SeesBehind parties.old (drop before lines.now) watch.old watch.new) }
{
    let mended = parties.server.take_mended(alloc);
    if let Some((_, own)) = lines.as_slice().split_at_checked(before) {
        watch.see_move(&parties.network, own, &parties.server, mended.as_slice())?;
    }
    Ok(())
}

/// Appends what is told, and sends what is sent. The lines that the watch sees begin at `before`.
///
/// # Errors
///
/// `KeptFull` where a message would pass the limit of kept bytes, with the lines before it appended, and `Memory`.
pub fn perform(
    parties: &mut Parties,
    watch: &mut Watch,
    alloc: Global,
    act: Act,
    before: usize,
    lines: &mut Lines,
) -> Result<(), WorldErr>
    ensures performed { (a : WorldAct) (ended : List Mended) → IsAct a.told a.posts act
        → ShowsWith ended parties.old a.world → Performed a parties.new lines.old lines.new result }
    ensures sees { OnOk result ((a : WorldAct) (ended : List Mended) → IsAct a.told a.posts act
        → ShowsWith ended parties.old a.world → before ≤ length lines.new
        → SeesAct a ended (drop before lines.new) watch.old watch.new) }
    ensures grows { OnOk result (Grows parties.old.network.messages parties.new.network.messages) }
    ensures told { LeavesTold watch.old watch.new }
    ensures halts { IfErr result IsEnd }
{
    acts_are_moves();
    match perform_act(&mut parties.network, alloc, act, lines) {
        Ok(()) => watch_lines(parties, watch, alloc, before, lines),
        Err(error) => Err(error),
    }
}
