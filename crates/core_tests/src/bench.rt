// A server with one file, and the moves of a case.
ghost use Rattle.std.specs.Prelude.{[], ◌≡◌, IfOk};
ghost use Rattle.layout_server.specs.Adding.{CanAdd};

use crate::moves::{Move, Questions, put_move, sender};
use crate::placing::FirstOnline;
use crate::words::{put_note, put_sent};
use data_map::RawMap;
use layout_server::{DriveInfo, DriveTable, ServerCore, Step};
use osd_lists::{Bytes, Memory, Node};
use std::alloc::Global;
use std::process::Abort;

/// The file of a case, whose number is 0, on a server with drives 0 to 5, and units of four bytes.
#[derive(Clone, Copy)]
pub struct File {
    pub comps: u32,
    /// From RAID_0 (1) to RAID_PQ (4).
    pub algorithm: u32,
    mirrors: u32,
    pub tag: u32,
    /// Each CREATE is answered before the first move.
    pub is_made: bool,
}

/// Three components with a rotating parity.
pub const RAID5: File = File {
    comps: 3,
    algorithm: 3,
    mirrors: 0,
    tag: 1,
    is_made: true,
};

/// The same, with the greatest tag.
pub const SPENT: File = File {
    tag: u32::MAX,
    ..RAID5
};

/// The same, of which no object is made yet.
pub const UNMADE: File = File {
    is_made: false,
    ..RAID5
};

/// Two positions with two replicas each.
pub const MIRRORS: File = File {
    comps: 4,
    algorithm: 1,
    mirrors: 1,
    ..RAID5
};

/// Two data units and two parities.
pub const RAID_PQ: File = File {
    comps: 4,
    algorithm: 4,
    ..RAID5
};

/// Moves, each beside what the server then notes and sends.
pub type Steps = &'static [(Move, &'static str)];

/// What is shown, the file, what the case begins with, and its own moves.
pub type Case = (&'static str, File, &'static [Steps], Steps);

// A server, the time of its clock, and what drives are to answer.
#[derive(Drop)]
struct Bench {
    core: ServerCore,
    now: u64,
    questions: Questions,
    // What comes.
    message: Bytes,
    // What comes of it, in words.
    told: Bytes,
}

// The key of each drive.
const KEY: [u8; 20] = [7; 20];

/// Drives 0 to 5.
pub fn drives(alloc: Global) -> Result<DriveTable, Memory>
    ensures { IfOk result (CanAdd []) }
{
    let mut table = DriveTable::new(alloc);
    table.push(DriveInfo {
        number: 0,
        key: KEY,
        capacity: 1_000,
    })?;
    table.push(DriveInfo {
        number: 1,
        key: KEY,
        capacity: 1_000,
    })?;
    table.push(DriveInfo {
        number: 2,
        key: KEY,
        capacity: 1_000,
    })?;
    table.push(DriveInfo {
        number: 3,
        key: KEY,
        capacity: 1_000,
    })?;
    table.push(DriveInfo {
        number: 4,
        key: KEY,
        capacity: 1_000,
    })?;
    table.push(DriveInfo {
        number: 5,
        key: KEY,
        capacity: 1_000,
    })?;
    Ok(table)
}

/// What a step notes and sends, in words.
pub fn tell(told: &mut Bytes, questions: &mut Questions, step: &Step) -> Result<(), Memory> {
    for note in step.notes.as_slice() {
        put_note(told, note)?;
    }
    for sent in step.sends.as_slice() {
        put_sent(told, questions, sent)?;
    }
    Ok(())
}

// The words of a step.
fn tell_step(bench: &mut Bench, step: Result<Step, Memory>) -> Result<(), Memory> {
    match step {
        Ok(step) => tell(&mut bench.told, &mut bench.questions, &step),
        Err(e) => Err(e),
    }
}

// The words of what comes of the message.
fn react(bench: &mut Bench, from: Node, placer: &FirstOnline) -> Result<(), Memory> {
    let step = bench
        .core
        .on_message(bench.now, from, bench.message.as_slice(), placer);
    tell_step(bench, step)
}

// The words of an opening.
fn restart(bench: &mut Bench) -> Result<(), Memory> {
    bench.core.crash()?;
    let step = bench.core.reopen();
    tell_step(bench, step)
}

// The words of a move.
fn play_move(bench: &mut Bench, next: &Move, placer: &FirstOnline) -> Result<(), Memory> {
    bench.told.truncate(0);
    bench.message.truncate(0);
    match next {
        Move::Waits(now) => {
            bench.now = *now;
            Ok(())
        }
        Move::Restarts => restart(bench),
        _ => {
            put_move(&mut bench.message, next, &bench.questions)?;
            react(bench, sender(next), placer)
        }
    }
}

// Whether the words of a move are these.
fn says(bench: &mut Bench, next: &Move, wanted: &str, placer: &FirstOnline) -> bool {
    play_move(bench, next, placer).is_ok() && bench.told.as_slice() == wanted.as_bytes()
}

// The CREATE of each component is performed.
fn makes(bench: &mut Bench, comps: u32, placer: &FirstOnline) -> bool {
    for drive in 0..comps {
        if play_move(bench, &Move::Performs(drive, b""), placer).is_err() {
            return false;
        }
    }
    true
}

/// The map of the file of a case.
pub fn raw_map(file: File) -> RawMap
    ensures { result.algorithm ≡ file.algorithm }
{
    RawMap {
        comps: file.comps,
        unit: 4,
        width: 0,
        depth: 0,
        mirrors: file.mirrors,
        algorithm: file.algorithm,
    }
}

// Whether the server takes the file of a case.
fn takes(bench: &mut Bench, file: File, placer: &FirstOnline) -> bool {
    if !bench.core.counters_low() || file.algorithm == 0 || file.algorithm > 4 {
        return false;
    }
    match bench.core.create_file(0, raw_map(file), file.tag, placer) {
        Ok(step) => tell(&mut bench.told, &mut bench.questions, &step).is_ok(),
        Err(_) => false,
    }
}

// Whether the server takes the file of a case, and its objects are made where they are to be.
fn begins(bench: &mut Bench, file: File, placer: &FirstOnline) -> bool {
    takes(bench, file, placer) && (!file.is_made || makes(bench, file.comps, placer))
}

// The words that were wanted at the first move at which others came.
fn first_other(bench: &mut Bench, steps: Steps, placer: &FirstOnline) -> Option<&'static str> {
    for (next, wanted) in steps {
        if !says(bench, next, wanted, placer) {
            return Some(wanted);
        }
    }
    None
}

// The same of a whole case.
fn other_of(bench: &mut Bench, case: &Case, placer: &FirstOnline) -> Option<&'static str> {
    let (_, file, starts, steps) = *case;
    if !begins(bench, file, placer) {
        return Some("a file");
    }
    for start in starts {
        let other = first_other(bench, start, placer);
        if other.is_some() {
            return other;
        }
    }
    first_other(bench, steps, placer)
}

// The same on a server of its own.
fn other_on(
    alloc: Global,
    core: ServerCore,
    case: &Case,
    placer: &FirstOnline,
) -> Option<&'static str> {
    let mut bench = Bench {
        core,
        now: 0,
        questions: Questions::new(alloc),
        message: Bytes::new(alloc),
        told: Bytes::new(alloc),
    };
    other_of(&mut bench, case, placer)
}

// A server without files.
fn new_server(alloc: Global) -> Result<ServerCore, Memory> {
    ServerCore::new(alloc, drives(alloc)?)
}

// The same with the rule by which the tests place components.
fn other_of_case(alloc: Global, case: &Case) -> Option<&'static str> {
    let placer = FirstOnline { alloc };
    match new_server(alloc) {
        Ok(core) => other_on(alloc, core, case, &placer),
        Err(_) => Some("a server"),
    }
}

/// Ends the test at the first case that goes otherwise, with its name and the words that were wanted.
pub fn play(rt: &impl Abort, alloc: Global, cases: &[Case]) {
    for case in cases {
        let other = other_of_case(alloc, case);
        assert!(rt; other.is_none(), "{}: {}", case.0, other.unwrap_or(""));
    }
}
