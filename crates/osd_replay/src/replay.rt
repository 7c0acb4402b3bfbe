// A scenario replayed line by line.
ghost use Rattle.std.specs.Prelude.{◌≡◌, []};
ghost use Rattle.osd_bytes.specs.Reading.{TakesAtMost};
ghost use Rattle.osd_bytes.specs.declared.lines.TheConstants.{MAX_READ};
ghost use Rattle.scenario_text.specs.declared.line.Line.TheVariants.{Last};
ghost use Rattle.world_history.specs.State.{empty_world};
ghost use Rattle.calm_law.specs.Watching.{WatchesAll};
ghost use Rattle.layout_world.specs.State.{Shows};
ghost use Rattle.osd_replay.specs.Complete.{Completes};
ghost use Rattle.osd_replay.specs.Ends.{ends};
ghost use Rattle.osd_replay.specs.Finish.{Finishes};
ghost use Rattle.osd_replay.specs.Replay.{Promises};

use crate::carry_out::{Carried, carry_out};
use crate::status::{Quantity, Status};
use crate::stop::{Stop, stop_of, stopped};
use history_claims::histories_are_sound;
use layout_world::World;
use osd_bytes::{LineReader, Sink, Source, put_all};
use osd_lists::{Bytes, Memory};
use scenario_text::write_lines;
use std::alloc::Global;
use stripe_repair::Place;

// Puts the last line.
fn finish<K: Sink>(alloc: Global, world: &World, sink: &mut K) -> Status
    ensures ends { Finishes (Last world.now.watch.moments.calm world.now.watch.guesses.unguessed)
        (K.taken sink.old) (K.taken sink.new) (K.faults sink.old) (K.faults sink.new) result }
    ensures loan { K.loan sink.new ≡ K.loan sink.old }
{
    let text = match write_lines(alloc, &[world.last_line()]) {
        Ok(text) => text,
        Err(_) => return stopped(sink, Stop::Memory, 0),
    };
    match put_all(sink, text.as_slice()) {
        Ok(()) => Status::Done,
        Err(_) => Status::WriteFault,
    }
}

// Carries out the lines that the source gives in a new world, and puts their transcript.
fn carry_out_lines<S: Source, K: Sink, P: Place>(
    alloc: Global,
    world: &mut World,
    source: &mut S,
    sink: &mut K,
    placer: &P,
) -> Status
    requires places { P.is_placer placer.now }
    requires is_new { Shows world.now.parties empty_world }
    requires watches { WatchesAll [] world.now.watch }
    ensures promise { Promises
        (ends (S.left source.old) (S.faults source.old) (K.taken sink.old) (K.faults sink.old))
        (ends (S.left source.new) (S.faults source.new) (K.taken sink.new) (K.faults sink.new)) result }
    ensures input { TakesAtMost MAX_READ (S.left source.old) (S.left source.new) }
{
    histories_are_sound();
    let mut reader = LineReader::new(alloc);
    let mut room = Bytes::new(alloc);
    let mut number = 0;
    'lines: loop {
        let line = match reader.next_line(source) {
            Ok(Some(line)) => line,
            Ok(None) => return finish(alloc, world, sink),
            Err(e) => return stopped(sink, stop_of(e), number + 1),
        };
        let carried = match carry_out(alloc, world, line.as_slice(), placer, room) {
            Ok(carried) => carried,
            Err(stop) => return stopped(sink, stop, number + 1),
        };
        let Carried { text, is_full } = carried;
        match put_all(sink, text.as_slice()) {
            Ok(()) => number += 1,
            Err(_) => return Status::WriteFault,
        }
        if is_full {
            return stopped(sink, Stop::Full(Quantity::Kept), number);
        }
        room = text;
    }
}

/// Replays the scenario that the source gives, and puts its transcript.
pub fn replay<S: Source, K: Sink, P: Place>(
    alloc: Global,
    source: &mut S,
    sink: &mut K,
    placer: &P,
) -> Status
    requires { P.is_placer placer.now }
    ensures promise { Promises
        (ends (S.left source.old) (S.faults source.old) (K.taken sink.old) (K.faults sink.old))
        (ends (S.left source.new) (S.faults source.new) (K.taken sink.new) (K.faults sink.new)) result }
    ensures complete { Completes
        (ends (S.left source.old) (S.faults source.old) (K.taken sink.old) (K.faults sink.old))
        (ends (S.left source.new) (S.faults source.new) (K.taken sink.new) (K.faults sink.new)) result }
    ensures input { TakesAtMost MAX_READ (S.left source.old) (S.left source.new) }
{
    histories_are_sound();
    let mut world = match World::new(alloc) {
        Ok(world) => world,
        Err(_) => return stopped(sink, Stop::Memory, 0),
    };
    let status = carry_out_lines(alloc, &mut world, source, sink, placer);
    status
}
