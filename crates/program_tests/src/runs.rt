// Runs of the program over streams and connections in memory.
ghost use Rattle.std.specs.Result.{ForOk};
ghost use Rattle.stripe_repair.specs.Placing.{CanPlace, IsPlacer, Places};
ghost use Rattle.zone_place.specs.Choosing.{CanSpread, IsZonePlacer, Spreads};

use crate::ends::{Next, copied, lists, numbers, planned, put_on};
use osd_bytes::{Clock, Links, MemClock, MemLinks, MemSink, MemSource, Sink, Source};
use osd_disk::MemDisk;
use osd_lists::{Bytes, Memory, Numbers, Sequence, Times};
use pnfs_run::replay::fewest_first;
use pnfs_run::{Lent, Status, run};
use port_loop::{MemNotes, MemPorts, Ports, Room};
use std::alloc::Global;
use std::process::Abort;
use stripe_repair::{DriveLoad, Placer};
use zone_place::{ZoneAsk, ZoneLoad, ZonePlacer, deal};

/// What a run is given, and what has to come of it.
pub struct Case {
    pub name: &'static str,
    pub words: &'static [&'static str],
    /// What the source gives.
    pub input: &'static str,
    /// Which calls of the source fail, from 0.
    pub reads: &'static [u32],
    /// Which calls of the sink fail.
    pub writes: &'static [u32],
    /// Which calls of the links fail.
    pub fails: &'static [u32],
    /// What comes on each connection that is accepted.
    pub accepted: &'static [&'static [u8]],
    /// What comes on each connection that asks.
    pub asked: &'static [&'static [u8]],
    /// What goes out on the connections that are accepted.
    pub put: &'static [&'static [u8]],
    /// What goes out on the connections that ask.
    pub sent: &'static [&'static [u8]],
    /// What happens on the connections of a drive.
    pub happens: &'static [Next],
    /// How the puts on them end.
    pub rooms: &'static [Room],
    /// What goes out on them.
    pub replies: &'static [&'static [u8]],
    /// What is told beside.
    pub notes: &'static [&'static str],
    /// What the clock tells behind the run. It tells 5 first, then 6, and so on to 9.
    pub next_time: u64,
    pub exit_code: u8,
    pub output: &'static str,
}

/// The cluster of a drive and a file, without the drive's key.
pub const KEYLESS: &str = "server = \"h:1\"
[[drive]]
number = 0
address = \"h:2\"
capacity = 20000000
[[file]]
number = 0
components = 1
unit = 4
width = 0
depth = 0
mirrors = 0
algorithm = 1
";

/// The cluster of a drive without files.
pub const FILELESS: &str = "server = \"h:1\"
[[drive]]
number = 0
address = \"h:2\"
key = \"0b0b0b0b0b0b0b0b0b0b0b0b0b0b0b0b0b0b0b0b\"
capacity = 20000000
";

/// The cluster of a drive and a file.
pub const CLUSTER: &str = "server = \"h:1\"
[[drive]]
number = 0
address = \"h:2\"
key = \"0b0b0b0b0b0b0b0b0b0b0b0b0b0b0b0b0b0b0b0b\"
capacity = 20000000
[[file]]
number = 0
components = 1
unit = 4
width = 0
depth = 0
mirrors = 0
algorithm = 1
";

/// The cluster of a drive and of two files, in the second format of capabilities.
pub const TWO_FILES: &str = "server = \"h:1\"
format = 2
[[drive]]
number = 0
address = \"h:2\"
key = \"0b0b0b0b0b0b0b0b0b0b0b0b0b0b0b0b0b0b0b0b\"
capacity = 20000000
[[file]]
number = 9
components = 1
unit = 4
width = 0
depth = 0
mirrors = 0
algorithm = 1
[[file]]
number = 3
components = 1
unit = 4
width = 0
depth = 0
mirrors = 0
algorithm = 1
";

/// Nothing to do, for a case that names only what differs.
pub const NOTHING: Case = Case {
    name: "",
    words: &[],
    input: KEYLESS,
    reads: &[],
    writes: &[],
    fails: &[],
    accepted: &[],
    asked: &[],
    put: &[],
    sent: &[],
    happens: &[],
    rooms: &[],
    replies: &[],
    notes: &[],
    next_time: 5,
    exit_code: 0,
    output: "",
};

/// The words that memory is left for.
pub fn strings(alloc: Global, words: &[&str]) -> Vec<String> {
    let mut strings = Vec::new(alloc);
    for word in words {
        add_string(alloc, &mut strings, word);
    }
    strings
}

// Adds a word, if memory is left for it.
fn add_string(alloc: Global, strings: &mut Vec<String>, word: &str) {
    match String::from_str(alloc, word) {
        Ok(string) => {
            let _ = strings.push(string);
        }
        Err(_) => {}
    }
}

// How a run ends, and what is told beside a drive.
#[derive(Drop)]
struct Ended {
    exit_code: u8,
    notes: MemNotes,
}

// How a run of these words ends.
fn end_of_run<S: Source, K: Sink, L: Links, P: Ports, C: Clock, F, Z>(
    alloc: Global,
    words: &[String],
    source: &mut S,
    sink: &mut K,
    links: &mut L,
    ports: &mut P,
    clock: &mut C,
    placer: &Placer<F>,
    zones: &ZonePlacer<Z>,
) -> Ended
where
    F: Fn(u32, &[DriveLoad]) -> Result<Numbers, Memory>,
    Z: Fn(&ZoneAsk, &[ZoneLoad]) -> Result<Numbers, Memory>,
    requires placer { IsPlacer F.Fn placer.now }
    requires zones { IsZonePlacer Z.Fn zones.now }
{
    let lent = Lent {
        disk: MemDisk::new(alloc, Numbers::new(alloc)),
        notes: MemNotes::new(alloc),
    };
    let (status, lent) = run(
        alloc, words, source, sink, links, ports, clock, lent, placer, zones,
    );
    Ended {
        exit_code: status.exit_code(),
        notes: lent.notes,
    }
}

// The same where components are spread over zones by this rule. Those of other files are placed as the program places them.
fn ended_by<S: Source, K: Sink, L: Links, P: Ports, C: Clock, Z>(
    alloc: Global,
    words: &[String],
    source: &mut S,
    sink: &mut K,
    links: &mut L,
    ports: &mut P,
    clock: &mut C,
    zones: &ZonePlacer<Z>,
) -> Ended
where
    Z: Fn(&ZoneAsk, &[ZoneLoad]) -> Result<Numbers, Memory>,
    requires { IsZonePlacer Z.Fn zones.now }
{
    let placer = Placer::new(
        |count: u32, loads: &[DriveLoad]| -> Result<Numbers, Memory>
            requires { CanPlace count loads.now }
            ensures { ForOk result (Places count loads.now) }
        { fewest_first(alloc, count, loads) },
    );
    end_of_run(
        alloc, words, source, sink, links, ports, clock, &placer, zones,
    )
}

/// The exit status of the program for these words, where components are spread over zones by this rule and nothing happens
/// on ports.
pub fn exit_code_by<S: Source, K: Sink, L: Links, C: Clock, Z>(
    alloc: Global,
    words: &[String],
    source: &mut S,
    sink: &mut K,
    links: &mut L,
    clock: &mut C,
    zones: &ZonePlacer<Z>,
) -> u8
where
    Z: Fn(&ZoneAsk, &[ZoneLoad]) -> Result<Numbers, Memory>,
    requires { IsZonePlacer Z.Fn zones.now }
{
    let mut ports = ports_of(alloc, &[], &[]);
    ended_by(alloc, words, source, sink, links, &mut ports, clock, zones).exit_code
}

// How a run ends where they are spread as the program spreads them.
fn ended_as_usual<S: Source, K: Sink, L: Links, P: Ports, C: Clock>(
    alloc: Global,
    words: &[String],
    source: &mut S,
    sink: &mut K,
    links: &mut L,
    ports: &mut P,
    clock: &mut C,
) -> Ended {
    let zones = ZonePlacer::new(
        |ask: &ZoneAsk, loads: &[ZoneLoad]| -> Result<Numbers, Memory>
            requires { CanSpread ask.now loads.now }
            ensures { ForOk result (Spreads ask.now loads.now) }
        { deal(alloc, ask, loads) },
    );
    ended_by(alloc, words, source, sink, links, ports, clock, &zones)
}

/// The exit status then, where nothing happens on ports.
pub fn exit_code<S: Source, K: Sink, L: Links, C: Clock>(
    alloc: Global,
    words: &[String],
    source: &mut S,
    sink: &mut K,
    links: &mut L,
    clock: &mut C,
) -> u8 {
    let mut ports = ports_of(alloc, &[], &[]);
    ended_as_usual(alloc, words, source, sink, links, &mut ports, clock).exit_code
}

// How a case ends.
fn ended_of<K: Sink, L: Links, P: Ports, C: Clock>(
    alloc: Global,
    case: &Case,
    sink: &mut K,
    links: &mut L,
    ports: &mut P,
    clock: &mut C,
) -> Ended {
    let words = strings(alloc, case.words);
    let input = copied(alloc, case.input.as_bytes());
    let mut source = MemSource::new(input, numbers(alloc, case.reads));
    ended_as_usual(
        alloc,
        words.as_slice(),
        &mut source,
        sink,
        links,
        ports,
        clock,
    )
}

// Whether exactly this went out on the connections that were accepted.
fn put_is(links: &MemLinks, put: &[&[u8]]) -> bool {
    if links.accepts() != put.len() {
        return false;
    }
    for i in 0..put.len() {
        if links.put_on(i) != put[i] {
            return false;
        }
    }
    true
}

// Whether exactly this went out on the connections that asked.
fn sent_is(links: &MemLinks, sent: &[&[u8]]) -> bool {
    if links.asked_count() != sent.len() {
        return false;
    }
    for i in 0..sent.len() {
        if links.sent_on(i) != sent[i] {
            return false;
        }
    }
    true
}

// Whether exactly this went out on the connections of ports.
fn replies_are(alloc: Global, ports: &MemPorts, replies: &[&[u8]]) -> bool {
    for (port, reply) in replies.iter().enumerate() {
        if put_on(alloc, ports, port as u64).as_slice() != *reply {
            return false;
        }
    }
    put_on(alloc, ports, replies.len() as u64).is_empty()
}

// Whether exactly these notes were told, on links or beside a drive.
fn are_noted(on_links: &[Bytes], beside: &[Bytes], told: &[&str]) -> bool {
    if on_links.len() + beside.len() != told.len() {
        return false;
    }
    let notes = on_links.iter().chain(beside.iter());
    for (note, line) in notes.zip(told) {
        if note.as_slice() != line.as_bytes() {
            return false;
        }
    }
    true
}

// Whether a case comes to what it says over a sink, links, ports and a clock.
fn goes_over(
    alloc: Global,
    case: &Case,
    sink: &mut MemSink,
    links: &mut MemLinks,
    ports: &mut MemPorts,
    clock: &mut MemClock,
) -> bool {
    let ended = ended_of(alloc, case, sink, links, ports, clock);
    ended.exit_code == case.exit_code
        && sink.bytes() == case.output.as_bytes()
        && put_is(links, case.put)
        && sent_is(links, case.sent)
        && replies_are(alloc, ports, case.replies)
        && are_noted(links.notes(), ended.notes.lines(), case.notes)
        && clock.now() == case.next_time
}

/// A clock that tells 5, 6 and so on to 9.
pub fn the_clock(alloc: Global) -> MemClock {
    match Times::copied(alloc, &[5, 6, 7, 8, 9]) {
        Ok(times) => MemClock::new(times),
        Err(_) => MemClock::new(Times::new(alloc)),
    }
}

// Whether a case comes to what it says.
fn goes(alloc: Global, case: &Case) -> bool {
    let mut links = MemLinks::new(
        alloc,
        lists(alloc, case.accepted),
        lists(alloc, case.asked),
        numbers(alloc, case.fails),
    );
    let mut sink = MemSink::new(alloc, numbers(alloc, case.writes));
    let mut clock = the_clock(alloc);
    let mut ports = ports_of(alloc, case.happens, case.rooms);
    goes_over(alloc, case, &mut sink, &mut links, &mut ports, &mut clock)
}

// Ports on which this happens, and whose puts end so.
fn ports_of(alloc: Global, happens: &[Next], rooms: &[Room]) -> MemPorts {
    let mut all = Sequence::new(alloc);
    for next in happens {
        let _ = all.push(planned(alloc, *next));
    }
    let rooms = match Sequence::copied(alloc, rooms) {
        Ok(rooms) => rooms,
        Err(_) => Sequence::new(alloc),
    };
    MemPorts::new(alloc, all, rooms)
}

/// Links over which nothing comes.
pub fn no_links(alloc: Global) -> MemLinks {
    MemLinks::new(
        alloc,
        lists(alloc, &[]),
        lists(alloc, &[]),
        numbers(alloc, &[]),
    )
}

/// Ends the test at the first case that goes otherwise, which it names.
pub fn play(rt: &impl Abort, alloc: Global, cases: &[Case]) {
    for case in cases {
        assert!(rt; goes(alloc, case), "{}", case.name);
    }
}
