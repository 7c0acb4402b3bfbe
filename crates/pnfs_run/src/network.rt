// The three commands over a network.
ghost use Rattle.std.specs.Prelude.{◌≡◌, ℕ, List, Option, map, string_bytes};
ghost use Rattle.osd_bytes.specs.Connections.{Standing, Traffic};
ghost use Rattle.osd_bytes.specs.Counts.{Faults};
ghost use Rattle.osd_bytes.specs.Reading.{TakesAtMost};
ghost use Rattle.osd_bytes.specs.declared.lines.TheConstants.{MAX_READ};
ghost use Rattle.cluster_text.specs.Lines.{PutsLine};
ghost use Rattle.command_words.specs.declared.words.WordsErr.TheVariants as words_err;
ghost use Rattle.command_words.specs.Options.{client_options, drive_options, server_options};
ghost use Rattle.command_words.specs.Asked.{Refuses, client_gives, drive_gives, server_gives};
ghost use Rattle.osd_replay.specs.Errors.{words_error};
ghost use Rattle.pnfs_run.specs.Ends.{OnPorts, ends, ends_at, ports_at};
ghost use Rattle.pnfs_run.specs.Network.{ClientEnds, DriveEnds, Runs, ServerEnds, TellsWords};
ghost use Rattle.pnfs_run.specs.Run.{JudgesWords};

use crate::status::Status;
use client_command::client_command;
use cluster_text::{CommandStop, put_stop};
use command_words::{WordsErr, client_words, drive_words, server_words};
use drive_loop::drive_command;
use osd_bytes::{Clock, Links, Sink, Source, put_all};
use osd_lists::Memory;
use port_loop::{Notes, Ports};
use server_command::server_command;
use std::alloc::Global;
use stripe_repair::Place;

// The line that says that the words aren't those of a command.
fn words_line() -> &'static [u8]
    ensures { result.now ≡ words_error }
{
    b"error words\n"
}

// Puts the line of bad words. The line is cut only if the sink's count of faults rose.
fn put_words_error<K: Sink>(sink: &mut K)
    ensures { PutsLine (K.taken sink.old) (K.taken sink.new) (K.faults sink.old) (K.faults sink.new) words_error }
{
    let _told = put_all(sink, words_line());
}

/// Tells that the words aren't those of a command, or that there was no memory to read them.
pub(crate) fn words_refused<K: Sink>(sink: &mut K, e: WordsErr) -> Status
    ensures { TellsWords e (K.taken sink.old) (K.taken sink.new) (K.faults sink.old) (K.faults sink.new) result }
{
    match e {
        WordsErr::Bad => {
            put_words_error(sink);
            Status::BadWords
        }
        WordsErr::Memory => {
            put_stop(sink, CommandStop::Memory);
            Status::Memory
        }
    }
}

/// Serves as a drive. The notes come back.
pub(crate) fn run_drive<S: Source, K: Sink, P: Ports, N: Notes, C: Clock>(
    alloc: Global,
    words: &[String],
    source: &mut S,
    sink: &mut K,
    ports: &mut P,
    notes: N,
    clock: &mut C,
) -> (Status, N)
    ensures promise { (told : Option Traffic) (faults : Faults) (standing : Standing) →
        Runs drive_options drive_gives DriveEnds (map string_bytes words.now)
        (ends (S.left source.old) (S.faults source.old) (K.taken sink.old) (K.faults sink.old) told faults standing
        (C.times clock.old) (ports_at P.Ports N.Notes ports.old notes))
        (ends (S.left source.new) (S.faults source.new) (K.taken sink.new) (K.faults sink.new) told faults standing
        (C.times clock.new) (ports_at P.Ports N.Notes ports.new result.1)) result.0 }
    ensures words { JudgesWords (Refuses drive_options drive_gives (map string_bytes words.now) words_err.Bad) result.0 }
    ensures input { TakesAtMost MAX_READ (S.left source.old) (S.left source.new) }
{
    let asked = match drive_words(alloc, words) {
        Ok(asked) => asked,
        Err(e) => return (words_refused(sink, e), notes),
    };
    let (number, connections) = (asked.number, asked.connections);
    match drive_command(
        alloc,
        number,
        connections,
        source,
        sink,
        ports,
        notes,
        clock,
    ) {
        Ok(notes) => (Status::Done, notes),
        Err((stop, notes)) => (Status::from(stop), notes),
    }
}

/// Serves as the metadata server.
pub(crate) fn run_server<S: Source, K: Sink, L: Links, C: Clock, P: Place>(
    alloc: Global,
    words: &[String],
    source: &mut S,
    sink: &mut K,
    links: &mut L,
    clock: &mut C,
    placer: &P,
) -> Status
    requires { P.is_placer placer.now }
    ensures promise { (ports : OnPorts) → Runs server_options server_gives ServerEnds (map string_bytes words.now)
        (ends_at S.Source K.Sink L.Links C.Clock source.old sink.old links.old clock.old ports)
        (ends_at S.Source K.Sink L.Links C.Clock source.new sink.new links.new clock.new ports) result }
    ensures words { JudgesWords (Refuses server_options server_gives (map string_bytes words.now) words_err.Bad) result }
    ensures input { TakesAtMost MAX_READ (S.left source.old) (S.left source.new) }
{
    let asked = match server_words(alloc, words) {
        Ok(asked) => asked,
        Err(e) => return words_refused(sink, e),
    };
    match server_command(alloc, asked.connections, source, sink, links, clock, placer) {
        Ok(()) => Status::Done,
        Err(stop) => Status::from(stop),
    }
}

/// Carries out a call or an order of a client.
pub(crate) fn run_client<S: Source, K: Sink, L: Links>(
    alloc: Global,
    words: &[String],
    source: &mut S,
    sink: &mut K,
    links: &mut L,
) -> Status
    ensures promise { (times : Option (List ℕ)) (ports : OnPorts) →
        Runs client_options client_gives ClientEnds (map string_bytes words.now)
        (ends (S.left source.old) (S.faults source.old) (K.taken sink.old) (K.faults sink.old)
        (L.told links.old) (L.faults links.old) (L.standing links.old) times ports)
        (ends (S.left source.new) (S.faults source.new) (K.taken sink.new) (K.faults sink.new)
        (L.told links.new) (L.faults links.new) (L.standing links.new) times ports) result }
    ensures words { JudgesWords (Refuses client_options client_gives (map string_bytes words.now) words_err.Bad) result }
    ensures input { TakesAtMost MAX_READ (S.left source.old) (S.left source.new) }
{
    let asked = match client_words(alloc, words) {
        Ok(asked) => asked,
        Err(e) => return words_refused(sink, e),
    };
    match client_command(alloc, asked, source, sink, links) {
        Ok(end) => Status::from(end),
        Err(stop) => Status::from(stop),
    }
}
