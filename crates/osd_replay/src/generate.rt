// A scenario made from a seed, and what it comes to.
ghost use Rattle.std.specs.Prelude.{◌≡◌, ◌≤◌, ℕ, List, [], Option, IfOk, IfErr, OnOk, string_bytes};
ghost use Rattle.sha1.specs.Sha1.{Holds};
ghost use Rattle.osd_replay.specs.Ends.{ends};
ghost use Rattle.osd_replay.specs.Generate.{count_line, counts_text, digest_line, IsToldOf};
ghost use Rattle.history_claims.specs.Texts.{EventsFit};
ghost use Rattle.osd_replay.specs.Generate.{Made, MakesMore, StopsMaking, StopsAmong, ComesTo, Promises};
ghost use Rattle.generate_law.specs.Scenario.{scenario_of};
ghost use Rattle.osd_replay.specs.declared.command.TheConstants.{MAX_CALLS};

use crate::carry_out::{Carried, carry_out_event};
use crate::generator::scenario;
use crate::status::{Quantity, Status};
use crate::stop::{Stop, stopped};
use generate_law::{none_is_refused, scenario_goes_well, summary_is_plain};
use history_claims::histories_are_sound;
use layout_world::{Summary, World};
use osd_bytes::{Sink, put_all};
use osd_lists::{Bytes, Memory};
use scenario_text::{Event, write_lines};
use sha1::Sha1;
use std::alloc::Global;
use std::mem;
use stripe_repair::Place;

// The line of a count.
fn count_line(alloc: Global, name: &str, count: u64) -> Result<Bytes, Memory>
    ensures { IfOk result (λ text. text ≡ count_line name.now count) }
{
    let text = format!(in alloc; "{name} {count}\n")?;
    Ok(Bytes::from_vec(text.into_bytes()))
}

// The lines of all counts.
fn counts(alloc: Global, s: &Summary) -> Result<Bytes, Memory>
    ensures { IfOk result (λ text. text ≡ counts_text s.now) }
{
    let ended = count_line(alloc, "ok", s.ok)?;
    let writes = count_line(alloc, "writes", s.writes)?;
    let reads = count_line(alloc, "reads", s.reads)?;
    let read_bytes = count_line(alloc, "read-bytes", s.read_bytes)?;
    let read_sum = count_line(alloc, "read-sum", s.read_sum)?;
    let mut text = count_line(alloc, "calls", s.calls)?;
    text.extend_from_slice(ended.as_slice())?;
    text.extend_from_slice(writes.as_slice())?;
    text.extend_from_slice(reads.as_slice())?;
    text.extend_from_slice(read_bytes.as_slice())?;
    text.extend_from_slice(read_sum.as_slice())?;
    Ok(text)
}

// The line of a digest.
fn digest_text(alloc: Global, digest: Sha1) -> Result<String, Memory>
    ensures { IfOk result (λ text. (m : List ℕ) → Holds digest m → string_bytes text ≡ digest_line m) }
{
    let digits = hex::encode(alloc, &digest.finalize())?;
    Ok(format!(in alloc; "transcript {digits}\n")?)
}

// A world, and the digest of its transcript so far.
#[derive(Drop)]
struct Digested {
    world: World,
    digest: Sha1,
}

impl Digested {
    // Carries out an event, and gives its text, which is made in `room`.
    fn step<P: Place>(
        &mut self,
        alloc: Global,
        event: Event,
        placer: &P,
        room: Bytes,
    ) -> Result<Bytes, Stop>
        requires { P.is_placer placer.now }
        ensures ok { OnOk result (MakesMore event self.old self.new) }
        ensures err { IfErr result (StopsMaking event self.old) }
    {
        // Here and below, arms in place of `?` or of the bare call are for the prover (docs/dev/PROVER_FORMS.md).
        let carried = match carry_out_event(alloc, &mut self.world, event, placer, room) {
            Ok(carried) => carried,
            Err(stop) => return Err(stop),
        };
        let Carried { text, is_full } = carried;
        if is_full {
            return Err(Stop::Full(Quantity::Kept));
        }
        self.digest.update(text.as_slice());
        Ok(text)
    }

    // Carries out all events.
    fn carry_out_all<P: Place>(
        &mut self,
        alloc: Global,
        events: Vec<Event>,
        placer: &P,
    ) -> Result<(), Stop>
        requires { P.is_placer placer.now }
        ensures ok { OnOk result (Made [] self.old → EventsFit events.items → Made events.items self.new) }
        ensures err { IfErr result (λ stop. Made [] self.old → EventsFit events.items → StopsAmong events.items stop) }
    {
        let mut room = Bytes::new(alloc);
        for event in events {
            room = match self.step(alloc, event, placer, room) {
                Ok(text) => text,
                Err(stop) => return Err(stop),
            };
        }
        Ok(())
    }

    // What the scenario came to: the counts, the digest and the last line.
    fn outcome(&mut self, alloc: Global) -> Result<Bytes, Memory>
        ensures { IfOk result (IsToldOf self.old) }
    {
        let last = write_lines(alloc, &[self.world.last_line()])?;
        self.digest.update(last.as_slice());
        let line = digest_text(alloc, mem::replace(&mut self.digest, Sha1::new()))?;
        let mut text = counts(alloc, &self.world.summary())?;
        text.extend_from_slice(line.as_bytes())?;
        text.extend_from_slice(last.as_slice())?;
        Ok(text)
    }

    // Carries out all of a scenario, and gives what it came to.
    fn come_to<P: Place>(
        &mut self,
        alloc: Global,
        seed: u64,
        calls: u64,
        placer: &P,
    ) -> Result<Bytes, Stop>
        requires places { P.is_placer placer.now }
        requires few { calls ≤ MAX_CALLS }
        requires begins { Made [] self.now }
        ensures ok { IfOk result (ComesTo seed calls) }
        ensures err { IfErr result (StopsAmong (scenario_of seed calls)) }
    {
        histories_are_sound();
        scenario_goes_well();
        summary_is_plain();
        let events = scenario(alloc, seed, calls)?;
        match self.carry_out_all(alloc, events, placer) {
            Ok(()) => {}
            Err(stop) => return Err(stop),
        }
        let text = self.outcome(alloc)?;
        Ok(text)
    }
}

// What a scenario comes to in a new world, whose drop has but one place here.
fn carried_out<P: Place>(alloc: Global, seed: u64, calls: u64, placer: &P) -> Result<Bytes, Stop>
    requires places { P.is_placer placer.now }
    requires few { calls ≤ MAX_CALLS }
    ensures ok { IfOk result (ComesTo seed calls) }
    ensures err { IfErr result (StopsAmong (scenario_of seed calls)) }
{
    let mut made = Digested {
        world: World::new(alloc)?,
        digest: Sha1::new(),
    };
    let carried = made.come_to(alloc, seed, calls, placer);
    carried
}

/// Carries out the scenario of `calls` calls, at most 1,000, that is made from a seed, and puts what it came to: six
/// counts, the digest (SHA-1) of its transcript, and the transcript's last line.
pub fn generate<K: Sink, P: Place>(
    alloc: Global,
    seed: u64,
    calls: u64,
    sink: &mut K,
    placer: &P,
) -> Status
    requires places { P.is_placer placer.now }
    requires few { calls ≤ MAX_CALLS }
    ensures { (left : Option (List ℕ)) (reads : ℕ) → Promises seed calls
        (ends left reads (K.taken sink.old) (K.faults sink.old))
        (ends left reads (K.taken sink.new) (K.faults sink.new)) result }
{
    none_is_refused();
    scenario_goes_well();
    match carried_out(alloc, seed, calls, placer) {
        Ok(text) => match put_all(sink, text.as_slice()) {
            Ok(()) => Status::Done,
            Err(_) => Status::WriteFault,
        },
        Err(stop) => stopped(sink, stop, 0),
    }
}
