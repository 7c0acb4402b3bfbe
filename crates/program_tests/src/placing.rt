// Another rule by which components are placed: the online drives with the highest numbers.
ghost use Rattle.std.specs.Prelude.{◌≡◌, IfOk, map};
ghost use Rattle.std.specs.Result.{ForOk};
ghost use Rattle.stripe_repair.specs.Placing.{CanPlace, Places};
ghost use Rattle.program_tests.specs.Ranked.{ranked};

use crate::ends::copied;
use crate::runs::strings;
use osd_bytes::{MemSink, MemSource, Sink, Source};
use osd_lists::{Memory, Numbers};
use pnfs_run::replay::{Status, fewest_first, run};
use std::alloc::Global;
use stripe_repair::{DriveLoad, Place};

// The loads as if drives with higher numbers had fewer objects.
fn ranked_loads(alloc: Global, loads: &[DriveLoad]) -> Result<Vec<DriveLoad>, Memory>
    ensures { IfOk result (λ found. found.items ≡ map ranked loads.now) }
{
    Ok(
        loads
            .iter()
            .map(|load| DriveLoad {
                objects: u32::MAX - load.drive,
                ..*load
            })
            .collect(alloc)?,
    )
}

// So many online drives, those with the highest numbers.
fn highest_first(alloc: Global, count: u32, loads: &[DriveLoad]) -> Result<Numbers, Memory>
    requires { CanPlace count loads.now }
    ensures { ForOk result (Places count loads.now) }
{
    let ranked = ranked_loads(alloc, loads)?;
    fewest_first(alloc, count, ranked.as_slice())
}

// That rule.
#[derive(Clone, Copy)]
struct HighestFirst {
    alloc: Global,
}

impl Place for HighestFirst {
    fn place(&self, count: u32, loads: &[DriveLoad]) -> Result<Numbers, Memory> {
        highest_first(self.alloc, count, loads)
    }
}

// Four stripes are written and read, a drive is lost, and its component is made anew on another one.
const REBUILT: &str = "drive d0 0b0b0b0b0b0b0b0b0b0b0b0b0b0b0b0b0b0b0b0b 20000000
drive d1 0b0b0b0b0b0b0b0b0b0b0b0b0b0b0b0b0b0b0b0b 20000000
drive d2 0b0b0b0b0b0b0b0b0b0b0b0b0b0b0b0b0b0b0b0b 20000000
drive d3 0b0b0b0b0b0b0b0b0b0b0b0b0b0b0b0b0b0b0b0b 20000000
drive d4 0b0b0b0b0b0b0b0b0b0b0b0b0b0b0b0b0b0b0b0b 20000000
client c0
client c1
file f0 5 4 0 0 0 3 1
do c0 write f0 0 11111111111111111111111111111111
do c0 write f0 16 22222222222222222222222222222222
do c0 write f0 32 33333333333333333333333333333333
do c0 write f0 48 44444444444444444444444444444444
do c1 read f0 0 16
do c1 read f0 16 16
do c1 read f0 32 16
do c1 read f0 48 16
fail d2
drive d5 0b0b0b0b0b0b0b0b0b0b0b0b0b0b0b0b0b0b0b0b 20000000
declare d2
rebuild f0
settle
do c1 read f0 0 16
audit f0
settle
";

// What its transcript shows. The first CREATE, of component 0, goes to the drive of the highest number, and so that of
// component 2 to drive 2.
const SHOWN: &str = "m 0 s d4
f f0 ready
o c0 write ok 16
o c0 write ok 16
o c0 write ok 16
o c0 write ok 16
o c1 read ok 11111111111111111111111111111111
o c1 read ok 22222222222222222222222222222222
o c1 read ok 33333333333333333333333333333333
o c1 read ok 44444444444444444444444444444444
f f0 fenced 2
f f0 repaired 0 0
f f0 rebuilt 2 d5
o c1 read ok 11111111111111111111111111111111
f f0 fenced 3
f f0 repaired 0 0
f f0 audit 4 0 0 80
calm yes unguessed yes
";

// A message's line without its bytes, and any other line whole.
fn told(line: &[u8]) -> &[u8] {
    if !line.starts_with(b"m ") {
        return line;
    }
    match line.iter().rposition(|byte| *byte == b' ') {
        Some(end) => line.split_at(end).0,
        None => line,
    }
}

// Whether a line may be left out of what is shown: an event's, a message's or a delivery's.
fn may_be_left(line: &[u8]) -> bool {
    line.is_empty() || line.starts_with(b"= ") || line.starts_with(b"m ") || line.starts_with(b"d ")
}

/// Whether a transcript shows these lines and no others, in order. Lines of events, messages and deliveries
/// count only where they are among those that are wanted; of a message's line its bytes aren't wanted.
pub fn shows(transcript: &[u8], shown: &[u8]) -> bool {
    let mut wanted = shown.split(|byte| *byte == b'\n');
    let mut next = wanted.next();
    for line in transcript.split(|byte| *byte == b'\n') {
        if next == Some(told(line)) {
            next = wanted.next();
        } else if !may_be_left(line) {
            return false;
        }
    }
    next.is_none()
}

// How a replay of these words ends.
fn status_of<S: Source, K: Sink>(
    alloc: Global,
    words: &[String],
    source: &mut S,
    sink: &mut K,
    placer: &HighestFirst,
) -> Status {
    run(alloc, words, source, sink, placer)
}

// The same of words that aren't owned.
fn status_of_words(
    alloc: Global,
    words: &[&str],
    source: &mut MemSource,
    sink: &mut MemSink,
    placer: &HighestFirst,
) -> Status {
    let words = strings(alloc, words);
    status_of(alloc, words.as_slice(), source, sink, placer)
}

// Components stand on the online drives of the highest numbers.
fn status_by_number(alloc: Global, source: &mut MemSource, sink: &mut MemSink) -> Status {
    let placer = HighestFirst { alloc };
    status_of_words(alloc, &["replay"], source, sink, &placer)
}

fn is_rebuilt(alloc: Global) -> bool {
    let mut source = MemSource::new(copied(alloc, REBUILT.as_bytes()), Numbers::new(alloc));
    let mut sink = MemSink::new(alloc, Numbers::new(alloc));
    status_by_number(alloc, &mut source, &mut sink) == Status::Done
        && shows(sink.bytes(), SHOWN.as_bytes())
}

#[test]
fn a_component_is_made_anew_by_another_rule_of_placing(rt: HostRuntime) {
    assert!(rt; is_rebuilt(rt.alloc()));
}
