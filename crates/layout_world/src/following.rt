// What is due behind the first move of an event.
ghost use Rattle.std.specs.Prelude.{◌≡◌, ◌≤◌, ◌⊎◌, length, IfErr, OnOk};
ghost use Rattle.world_history.specs.Plans.{Prompt as Promptly};
ghost use Rattle.layout_world.specs.Acting.{Grows};
ghost use Rattle.layout_world.specs.Going.{QuietsAll, FinishesAll, MovesIf, behind};
ghost use Rattle.layout_world.specs.Refusing.{IsEnd};
ghost use Rattle.layout_world.specs.Rules.{rule_in, IsWithin, action_of};
ghost use Rattle.layout_world.specs.Watching.{LeavesTold};

use crate::moving::{deliver_move, pend_move, time_out_move};
use crate::parties::Parties;
use crate::rules::{Quiet, Rule, quiet_of};
use osd_lists::Memory;
use scenario_text::ClientName;
use std::alloc::Global;
use stripe_repair::Place;
use world_history::WorldErr;
use world_network::{Lines, network_shows};
use world_watch::Watch;

// Delivers the pending messages from number `start` on, also those that are sent meanwhile. Each message has bytes of its
// own, so that memory ends before the loop does.
fn settle<P: Place>(
    parties: &mut Parties,
    watch: &mut Watch,
    alloc: Global,
    start: usize,
    placer: &P,
    lines: &mut Lines,
) -> Result<(), WorldErr>
    requires placer { P.is_placer placer.now }
    ensures quiets { QuietsAll start parties.old parties.new watch.old watch.new lines.old lines.new result }
    ensures told { LeavesTold watch.old watch.new }
    ensures halts { IfErr result IsEnd }
{
    network_shows();
    let mut next = start;
    let mut rounds = u64::MAX;
    while rounds > 0 {
        let sent = parties.network.len();
        let Some(number) = parties.network.next_pending(next) else {
            return Ok(());
        };
        match deliver_move(parties, watch, alloc, number, placer, lines) {
            Ok(()) => next = number + 1,
            Err(error) => return Err(error),
        }
        rounds -= 1;
    }
    Err(WorldErr::Memory)
}

// The later of two places.
fn later(first: usize, settled: usize) -> usize
    ensures from { first ≤ result }
    ensures one { (result ≡ first) ⊎ (result ≡ settled) }
{
    first.max(settled)
}

// Carries out what is due of a call where no message is pending.
fn quieten(
    parties: &mut Parties,
    watch: &mut Watch,
    alloc: Global,
    due: &Quiet,
    lines: &mut Lines,
) -> Result<(), WorldErr>
    ensures moves { MovesIf (action_of due.now) parties.old parties.new watch.old watch.new lines.old lines.new result }
    ensures grows { OnOk result (Grows parties.old.network.messages parties.new.network.messages) }
    ensures told { LeavesTold watch.old watch.new }
    ensures halts { IfErr result IsEnd }
{
    match due {
        Quiet::Over => Ok(()),
        Quiet::Pends { client } => pend_move(parties, watch, alloc, *client, lines),
        Quiet::TimesOut { client, component } => {
            time_out_move(parties, watch, alloc, *client, *component, lines)
        }
    }
}

// Delivers messages from number `first` on, for the call of a client where one is named: where no message is left, the
// lowest awaited component times out. A component times out once for each message that is sent, so that memory ends
// before the loop does.
fn prompt<P: Place>(
    parties: &mut Parties,
    watch: &mut Watch,
    alloc: Global,
    first: usize,
    client: Option<ClientName>,
    placer: &P,
    lines: &mut Lines,
) -> Result<(), WorldErr>
    requires placer { P.is_placer placer.now }
    ensures finishes { first ≤ length parties.old.network.messages
        → FinishesAll (behind (Promptly first client)) parties.old parties.new watch.old watch.new lines.old lines.new result }
    ensures told { LeavesTold watch.old watch.new }
    ensures halts { IfErr result IsEnd }
{
    network_shows();
    let mut next = later(first, parties.settled);
    let mut rounds = u64::MAX;
    while rounds > 0 {
        match settle(parties, watch, alloc, next, placer, lines) {
            Ok(()) => {}
            Err(error) => return Err(error),
        }
        next = parties.network.len();
        parties.remember_settled(first);
        let due = quiet_of(parties, &client);
        match quieten(parties, watch, alloc, &due, lines) {
            Ok(()) => {}
            Err(error) => return Err(error),
        }
        match due {
            Quiet::Over => return Ok(()),
            Quiet::Pends { .. } => return Ok(()),
            Quiet::TimesOut { .. } => {}
        }
        rounds -= 1;
    }
    Err(WorldErr::Memory)
}

/// Carries out what is due behind the first move of an event, to its end.
///
/// # Errors
///
/// `KeptFull` where a message would pass the limit of kept bytes, and `Memory`.
pub fn follow<P: Place>(
    parties: &mut Parties,
    watch: &mut Watch,
    alloc: Global,
    rule: Rule,
    placer: &P,
    lines: &mut Lines,
) -> Result<(), WorldErr>
    requires placer { P.is_placer placer.now }
    ensures finishes { IsWithin rule (length parties.old.network.messages)
        → FinishesAll (behind (rule_in rule)) parties.old parties.new watch.old watch.new lines.old lines.new result }
    ensures told { LeavesTold watch.old watch.new }
    ensures halts { IfErr result IsEnd }
{
    match rule {
        Rule::Alone => Ok(()),
        Rule::Prompt { first, client } => prompt(
            parties, watch, alloc, first, client, placer, lines,
        ),
    }
}
