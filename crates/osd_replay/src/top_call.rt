// The top call.
ghost use Rattle.std.specs.Prelude.{◌≡◌, ◌↔◌, IsNone, map, string_bytes};
ghost use Rattle.osd_bytes.specs.Reading.{TakesAtMost};
ghost use Rattle.osd_bytes.specs.declared.lines.TheConstants.{MAX_READ};
ghost use Rattle.osd_replay.specs.Ends.{ends};
ghost use Rattle.osd_replay.specs.Commands.{command_of};
ghost use Rattle.osd_replay.specs.Run.{Promises};

use crate::command::{Command, command_named};
use crate::generate::generate;
use crate::inspect::inspect;
use crate::put_line::put_pieces;
use crate::replay::replay;
use crate::status::Status;
use osd_bytes::{Sink, Source};
use std::alloc::Global;
use stripe_repair::Place;

/// Runs the command that the words name over a source and a sink, and tells how it ended.
///
/// `replay` reads a scenario, carries out its events and writes their transcript. `generate N K` makes a
/// scenario of K calls from the seed N, carries it out and writes what it came to. `show KIND` and
/// `check KIND` read a structure of RFC 5664 from each line, in hexadecimal digits: the first writes its
/// fields, the second tells whether it is well formed. Where a command stops before the end of the
/// input, an error line says why.
pub fn run<S: Source, K: Sink, P: Place>(
    alloc: Global,
    words: &[String],
    source: &mut S,
    sink: &mut K,
    placer: &P,
) -> Status
    requires { P.is_placer placer.now }
    ensures promise { Promises (command_of (map string_bytes words.now))
        (ends (S.left source.old) (S.faults source.old) (K.taken sink.old) (K.faults sink.old))
        (ends (S.left source.new) (S.faults source.new) (K.taken sink.new) (K.faults sink.new)) result }
    ensures words { (result ≡ Status.BadWords) ↔ IsNone (command_of (map string_bytes words.now)) }
    ensures input { TakesAtMost MAX_READ (S.left source.old) (S.left source.new) }
{
    match command_named(words) {
        Some(Command::Replay) => replay(alloc, source, sink, placer),
        Some(Command::Generate { seed, calls }) => generate(alloc, seed, calls, sink, placer),
        Some(Command::Inspect(inspection, kind)) => {
            inspect(alloc, inspection, kind, source, sink)
        }
        None => {
            let _told = put_pieces(sink, &[b"error words\n"]);
            Status::BadWords
        }
    }
}
