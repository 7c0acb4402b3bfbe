ghost use Rattle.std.specs.Prelude.{◌≡◌, ◌≤◌, None, false, length, drop, [], Err, IfOk, IfErr, OnOk, OnErr};
ghost use Rattle.scenario_text.specs.declared.line.Line.TheVariants as line;
ghost use Rattle.world_history.specs.Plans.{rule_of};
ghost use Rattle.world_history.specs.Refusals.{refusal};
ghost use Rattle.world_history.specs.State.{World as TheWorld, empty_world};
ghost use Rattle.world_history.specs.Summing.{no_summary};
ghost use Rattle.world_watch.specs.Watching.{HasSeen};
ghost use Rattle.calm_law.specs.Watching.{WatchesAll};
ghost use Rattle.layout_world.specs.State.{Shows};
ghost use Rattle.layout_world.specs.Going.{Comes, Finishes, FinishesSeen, behind};
ghost use Rattle.layout_world.specs.Refusing.{IsEnd};
ghost use Rattle.layout_world.specs.Steps.{StepsAs, Ends};
ghost use Rattle.layout_world.specs.Watching.{LeavesTold, WatchesOn};

use crate::acts::perform;
use crate::beginning::begin;
use crate::following::follow;
use crate::parties::Parties;
use crate::refusing::refusal;
use crate::rules::rule_of;
use calm_law::{moves_follow, watch_begins};
use osd_lists::Memory;
use scenario_text::{Event, Line};
use std::alloc::Global;
use std::marker::Model;
use stripe_repair::Place;
use world_history::{Summary, WorldErr, full_is_cut, one_event_more};
use world_network::Lines;
use world_watch::{Watch, watch_is_read};

/// The world of a scenario: all parties, what was sent between them, and whether its history is calm and unguessed.
#[derive(Drop)]
pub struct World {
    alloc: Global,
    parties: Parties,
    watch: Watch,
    over: bool,
}

impl Model for World {
    ghost use Rattle.layout_world.specs.State.{WorldState};

    ghost Value = { WorldState };

    ghost view = { λ w. record { parties = w.parties; watch = w.watch; over = w.over } };
}

// The line of an event that isn't refused, and what it begins with.
fn open<P: Place>(
    parties: &mut Parties,
    watch: &mut Watch,
    alloc: Global,
    event: Event,
    placer: &P,
    lines: &mut Lines,
) -> Result<(), WorldErr>
    requires placer { P.is_placer placer.now }
    ensures comes { (w : TheWorld) → Shows parties.old w → refusal w event ≡ None
        → Comes w event lines.old watch.old (behind (rule_of w event)) parties.new watch.new lines.new result }
    ensures sent { OnOk result ((w : TheWorld) → Shows parties.old w
        → length parties.old.network.messages ≤ length parties.new.network.messages) }
    ensures told { LeavesTold watch.old watch.new }
    ensures halts { IfErr result IsEnd }
{
    let before = lines.len();
    match begin(parties, alloc, &event, placer) {
        Ok(act) => match lines.push(Line::Event { event }) {
            Ok(()) => perform(parties, watch, alloc, act, before, lines),
            Err(_) => Err(WorldErr::Memory),
        },
        Err(Memory) => Err(WorldErr::Memory),
    }
}

// The line of an event that isn't refused, and its moves to the end.
fn carry_moves<P: Place>(
    parties: &mut Parties,
    watch: &mut Watch,
    alloc: Global,
    event: Event,
    placer: &P,
    lines: &mut Lines,
) -> Result<(), WorldErr>
    requires placer { P.is_placer placer.now }
    ensures finishes { (w : TheWorld) → Shows parties.old w → refusal w event ≡ None
        → Finishes w event lines.old watch.old parties.new watch.new lines.new result }
    ensures told { LeavesTold watch.old watch.new }
    ensures halts { IfErr result IsEnd }
{
    match rule_of(parties, alloc, &event) {
        Ok(rule) => match open(parties, watch, alloc, event, placer, lines) {
            Ok(()) => follow(parties, watch, alloc, rule, placer, lines),
            Err(error) => Err(error),
        },
        Err(Memory) => Err(WorldErr::Memory),
    }
}

// The watch sees all lines of an event, which begin at `before`.
fn see_event(
    parties: &Parties,
    watch: &mut Watch,
    before: usize,
    lines: &Lines,
) -> Result<(), WorldErr>
    ensures cause { OnErr result (result ≡ Err WorldErr.Memory) }
    ensures seen { OnOk result (before ≤ length lines.now
        → HasSeen parties.now.network.messages (drop before lines.now) watch.old watch.new) }
    ensures moments { watch.new.moments ≡ watch.old.moments }
{
    if let Some((_, own)) = lines.as_slice().split_at_checked(before) {
        watch.see_event(&parties.network, own)?;
    }
    Ok(())
}

// Carries out an event that isn't refused.
fn carry_out<P: Place>(
    parties: &mut Parties,
    watch: &mut Watch,
    alloc: Global,
    event: Event,
    placer: &P,
    lines: &mut Lines,
) -> Result<(), WorldErr>
    requires placer { P.is_placer placer.now }
    ensures finishes { (w : TheWorld) → Shows parties.old w → refusal w event ≡ None
        → FinishesSeen w event lines.old watch.old parties.new watch.new lines.new result }
    ensures seen { OnOk result (length lines.old ≤ length lines.new
        → HasSeen parties.new.network.messages (drop (length lines.old) lines.new) watch.old watch.new) }
    ensures halts { IfErr result IsEnd }
{
    let before = lines.len();
    match carry_moves(parties, watch, alloc, event, placer, lines) {
        Ok(()) => see_event(parties, watch, before, lines),
        Err(error) => Err(error),
    }
}

impl World {
    /// The world of a scenario that hasn't begun.
    pub fn new(alloc: Global) -> Result<Self, Memory>
        ensures shows { IfOk result (λ world. Shows world.parties empty_world) }
        ensures watches { IfOk result (λ world. WatchesAll [] world.watch) }
        ensures summary { IfOk result (λ world. world.watch.summary ≡ no_summary) }
        ensures over { IfOk result (λ world. world.over ≡ false) }
    {
        watch_begins();
        Ok(World {
            alloc,
            parties: Parties::new(alloc)?,
            watch: Watch::new(alloc),
            over: false,
        })
    }

    /// Whether the world has ended, so that no event may follow.
    pub fn is_over(&self) -> bool
        ensures { result ≡ self.now.over }
    {
        self.over
    }

    /// Carries out an event, and appends its lines, of which its own is the first. The world must not be over.
    ///
    /// # Errors
    ///
    /// The first of these that applies: `NoName` where a named drive, client or file doesn't exist, but for what the event
    /// is to make and for the files of calls; `Taken` where the drive or client to be made exists, or the drive to be put
    /// into a zone is in one; `Dead` where the named client was stopped or the named drive failed, but for a declared one;
    /// `Alive` where a drive that is declared hasn't failed; `NotKept` where a drive that crashes or is opened again isn't
    /// stored; `Down` where a drive is down that crashes, takes injected bytes or a least format, or where the server is
    /// down and is to be told something, crashes, or has its clock set; `Running` where what is opened again isn't down;
    /// `NoMessage` where the message wasn't sent. They change nothing. `KeptFull`, where a message would pass the limit of
    /// kept bytes, and `Memory` end the world; the lines appended stand.
    pub fn step<P: Place>(
        &mut self,
        event: Event,
        placer: &P,
        lines: &mut Lines,
    ) -> Result<(), WorldErr>
        requires placer { P.is_placer placer.now }
        ensures steps { StepsAs event lines.old lines.new self.old self.new result }
        ensures watches { OnOk result (WatchesOn event lines.old lines.new self.old self.new) }
        ensures over { Ends self.old self.new result }
    {
        watch_is_read();
        moves_follow();
        one_event_more();
        full_is_cut();
        if let Some(cause) = refusal(&self.parties, &event) {
            return Err(cause);
        }
        match carry_out(
            &mut self.parties,
            &mut self.watch,
            self.alloc,
            event,
            placer,
            lines,
        ) {
            Ok(()) => {
                self.parties.fit();
                Ok(())
            }
            Err(error) => {
                self.over = true;
                Err(error)
            }
        }
    }

    /// The last line of the transcript: whether the history is calm and unguessed.
    pub fn last_line(&self) -> Line
        ensures { result ≡ line.Last self.now.watch.moments.calm self.now.watch.guesses.unguessed }
    {
        self.watch.last_line()
    }

    /// What the history comes to, in numbers.
    pub fn summary(&self) -> Summary
        ensures { result ≡ self.now.watch.summary }
    {
        self.watch.summary()
    }
}
