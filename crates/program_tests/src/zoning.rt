// Another rule by which components are spread over zones: of a file of one group the first two drives change places.
ghost use Rattle.std.specs.Prelude.{◌≡◌, IfOk};
ghost use Rattle.std.specs.Result.{ForOk};
ghost use Rattle.zone_place.specs.Choosing.{CanSpread, Spreads};
ghost use Rattle.program_tests.specs.Swapped.{swapped};

use crate::ends::{copied, lists};
use crate::placing::shows;
use crate::runs::{exit_code_by, strings};
use osd_bytes::{Clock, Links, MemClock, MemLinks, MemSink, MemSource, Sink, Source};
use osd_lists::{Memory, Numbers, Times};
use std::alloc::Global;
use zone_place::{ZoneAsk, ZoneLoad, ZonePlacer, deal};

// The numbers, of which the first two change places.
fn swapped(alloc: Global, numbers: &[u32]) -> Result<Numbers, Memory>
    ensures { IfOk result (λ chosen. chosen ≡ swapped numbers.now) }
{
    match numbers {
        [first, second, rest @ ..] => {
            let mut chosen = Numbers::copied(alloc, &[*second, *first])?;
            chosen.extend_from_slice(rest)?;
            Ok(chosen)
        }
        _ => Numbers::copied(alloc, numbers),
    }
}

// The drives that the program's rule chooses, of which the first two change places where there is one group.
fn second_first(alloc: Global, ask: &ZoneAsk, loads: &[ZoneLoad]) -> Result<Numbers, Memory>
    requires { CanSpread ask.now loads.now }
    ensures { ForOk result (Spreads ask.now loads.now) }
{
    let dealt = deal(alloc, ask, loads)?;
    if ask.groups != 1 {
        return Ok(dealt);
    }
    swapped(alloc, dealt.as_slice())
}

// A byte is written on two drives of which each is in a zone of its own, one is lost, and it is read.
const SPREAD: &str = "drive d0 0b0b0b0b0b0b0b0b0b0b0b0b0b0b0b0b0b0b0b0b 20000000
drive d1 0b0b0b0b0b0b0b0b0b0b0b0b0b0b0b0b0b0b0b0b 20000000
zone d0 0
zone d1 1
client c0
zfile f0 2 4 0 0 1 1 1
do c0 write f0 0 41
fail d1
do c0 read f0 0 1
";

// What its transcript shows. The first CREATE, of component 0, goes to drive 1, which is the one that a read times out at.
const SHOWN: &str = "m 0 s d1
f f0 ready
o c0 write ok 1
t c0 0
o c0 read ok 41
calm yes unguessed yes
";

// The exit status of a replay.
fn exit_code<S: Source, K: Sink, L: Links, C: Clock>(
    alloc: Global,
    words: &[String],
    source: &mut S,
    sink: &mut K,
    links: &mut L,
    clock: &mut C,
) -> u8 {
    let zones = ZonePlacer::new(
        |ask: &ZoneAsk, loads: &[ZoneLoad]| -> Result<Numbers, Memory>
            requires { CanSpread ask.now loads.now }
            ensures { ForOk result (Spreads ask.now loads.now) }
        { second_first(alloc, ask, loads) },
    );
    exit_code_by(alloc, words, source, sink, links, clock, &zones)
}

// The same over no connections and with a clock that stands still.
fn exit_code_over(
    alloc: Global,
    words: &[String],
    source: &mut MemSource,
    sink: &mut MemSink,
) -> u8 {
    let mut clock = MemClock::new(Times::new(alloc));
    let mut links = MemLinks::new(
        alloc,
        lists(alloc, &[]),
        lists(alloc, &[]),
        Numbers::new(alloc),
    );
    exit_code(alloc, words, source, sink, &mut links, &mut clock)
}

fn exit_code_into(alloc: Global, sink: &mut MemSink) -> u8 {
    let words = strings(alloc, &["replay"]);
    let mut source = MemSource::new(copied(alloc, SPREAD.as_bytes()), Numbers::new(alloc));
    exit_code_over(alloc, words.as_slice(), &mut source, sink)
}

fn is_spread(alloc: Global) -> bool {
    let mut sink = MemSink::new(alloc, Numbers::new(alloc));
    exit_code_into(alloc, &mut sink) == 0 && shows(sink.bytes(), SHOWN.as_bytes())
}

#[test]
fn a_file_is_spread_by_another_rule(rt: HostRuntime) {
    assert!(rt; is_spread(rt.alloc()));
}
