// The server with its journal on a disk in memory, which crashes in the middle of a step.
use crate::bench::{File, RAID5, Steps, UNMADE, drives, raw_map, tell};
use crate::moves::{Ask, Move, Questions, READ, RW, UNREACHABLE, put_move, sender};
use crate::placing::FirstOnline;
use crate::starts::{FENCES, FETCHES, WRITTEN};
use layout_ops::OrderKind;
use layout_server::Step;
use osd_disk::{Disk, MemDisk};
use osd_lists::{Bytes, Memory, Numbers};
use server_journal::{JournalErr, JournaledServer};
use server_rules::OLD_FORMAT;
use std::alloc::Global;

// What comes to a new server: a file is made, then this comes; and the last step, which is the making where there is no
// move.
#[derive(Clone, Copy)]
struct Life {
    file: File,
    starts: &'static [Steps],
    last: Option<Move>,
}

// A server, and what drives are to answer.
#[derive(Drop)]
struct Desk<D> {
    server: JournaledServer<D>,
    questions: Questions,
    // What comes.
    message: Bytes,
    // What comes of it, in words.
    told: Bytes,
}

// What a step notes and sends, in words behind those before it.
fn tell_step<D>(desk: &mut Desk<D>, step: &Step) -> Result<(), Memory> {
    tell(&mut desk.told, &mut desk.questions, step)
}

// Nothing comes any more to a server that is over.
fn play<D: Disk>(desk: &mut Desk<D>, next: &Move, placer: &FirstOnline) -> Result<(), Memory> {
    desk.message.truncate(0);
    if desk.server.is_over() {
        return Ok(());
    }
    put_move(&mut desk.message, next, &desk.questions)?;
    match desk
        .server
        .on_message(0, sender(next), desk.message.as_slice(), placer)
    {
        Ok(step) => tell_step(desk, &step),
        Err(_) => Ok(()),
    }
}

// The file is made, unless the server is over.
fn take<D: Disk>(desk: &mut Desk<D>, file: File, placer: &FirstOnline) -> Result<(), Memory> {
    if desk.server.is_over()
        || !desk.server.counters_low()
        || file.algorithm == 0
        || file.algorithm > 4
    {
        return Ok(());
    }
    match desk.server.create_file(0, raw_map(file), file.tag, placer) {
        Ok(step) => tell_step(desk, &step),
        Err(_) => Ok(()),
    }
}

// What comes before the last step.
fn begin<D: Disk>(desk: &mut Desk<D>, life: &Life, placer: &FirstOnline) -> Result<(), Memory> {
    take(desk, life.file, placer)?;
    if life.file.is_made {
        for drive in 0..life.file.comps {
            play(desk, &Move::Performs(drive, b""), placer)?;
        }
    }
    for start in life.starts {
        for (next, _) in *start {
            play(desk, next, placer)?;
        }
    }
    Ok(())
}

// A life up to its last step, or with it.
fn live<D: Disk>(
    desk: &mut Desk<D>,
    life: &Life,
    is_whole: bool,
    placer: &FirstOnline,
) -> Result<(), Memory> {
    match life.last {
        None if is_whole => take(desk, life.file, placer),
        None => Ok(()),
        Some(last) => {
            begin(desk, life, placer)?;
            if is_whole {
                play(desk, &last, placer)?;
            }
            Ok(())
        }
    }
}

// The disk after a life, as far as that went.
fn lived_on<D: Disk>(server: JournaledServer<D>, alloc: Global, life: &Life, is_whole: bool) -> D {
    let placer = FirstOnline { alloc };
    let mut desk = Desk {
        server,
        questions: Questions::new(alloc),
        message: Bytes::new(alloc),
        told: Bytes::new(alloc),
    };
    let _ = live(&mut desk, life, is_whole, &placer);
    desk.server.into_disk()
}

fn made_on<D: Disk>(alloc: Global, disk: D) -> Result<JournaledServer<D>, (JournalErr, D)> {
    match drives(alloc) {
        Ok(drives) => JournaledServer::create(alloc, disk, drives),
        Err(_) => Err((JournalErr::Memory, disk)),
    }
}

// The same on a disk in memory, of which the call with this number fails.
fn lived(alloc: Global, fails: u32, life: &Life, is_whole: bool) -> MemDisk {
    match made_on(alloc, failing(alloc, fails)) {
        Ok(server) => lived_on(server, alloc, life, is_whole),
        Err((_, disk)) => disk,
    }
}

fn number(alloc: Global, number: u32) -> Numbers {
    let mut numbers = Numbers::new(alloc);
    let _ = numbers.push(number);
    numbers
}

fn failing(alloc: Global, call: u32) -> MemDisk {
    MemDisk::new(alloc, number(alloc, call))
}

// No call has this number.
const NEVER: u32 = 1_000_000;

// How a disk is opened.
#[derive(Clone, Copy)]
enum Opened {
    /// The opening notes and sends this, in words.
    Says(&'static str),
    /// It is refused at this place.
    Refused(u64),
    /// A call of the disk failed.
    Failed,
}

/// Whether a step notes and sends this.
pub fn says(alloc: Global, step: &Step, words: &str) -> bool {
    let mut told = Bytes::new(alloc);
    let mut questions = Questions::new(alloc);
    tell(&mut told, &mut questions, step).is_ok() && told.as_slice() == words.as_bytes()
}

// Whether a disk is opened so.
fn opens<D: Disk + Drop>(alloc: Global, disk: D, how: Opened) -> bool {
    match (JournaledServer::open(alloc, disk), how) {
        (Ok((_, step)), Opened::Says(words)) => says(alloc, &step, words),
        (Err((JournalErr::NotAJournal { at }, _)), Opened::Refused(wanted)) => at == wanted,
        (Err((JournalErr::DiskFault, _)), Opened::Failed) => true,
        _ => false,
    }
}

// Whether it is opened so after a crash that left all that was written, or this byte in it.
fn opens_after_crash(alloc: Global, disk: MemDisk, fill: Option<u8>, how: Opened) -> bool {
    match fill {
        None => opens(alloc, disk.crash(), how),
        Some(fill) => match disk.crash_filled(fill) {
            Ok(disk) => opens(alloc, disk, how),
            Err(_) => false,
        },
    }
}

// A step that is cut off, and what an opening then notes and sends without it and with it.
struct Cut {
    life: Life,
    without: &'static str,
    with: &'static str,
}

const FENCED: &str = "settag d0; settag d1; settag d2";

const CUTS: &[Cut] = &[
    // A grant: an opening fences it.
    Cut {
        life: Life {
            file: RAID5,
            starts: &[],
            last: Some(Move::Asks(0, 1, Ask::Get(0, RW, 0, 8))),
        },
        without: "",
        with: FENCED,
    },
    // The beginning of a fence.
    Cut {
        life: Life {
            file: RAID5,
            starts: &[],
            last: Some(Move::Orders(OrderKind::Revoke, 0)),
        },
        without: "",
        with: FENCED,
    },
    // The end of a repair.
    Cut {
        life: Life {
            file: RAID5,
            starts: &[WRITTEN, FENCED_ALONE],
            last: Some(Move::Performs(2, b"")),
        },
        without: FENCED,
        with: "",
    },
    // A report that is taken: the grant ends, and the component is missing.
    Cut {
        life: Life {
            file: RAID5,
            starts: &[GRANTED],
            last: Some(Move::Asks(0, 2, Ask::Return(&[(1, 65537, UNREACHABLE)]))),
        },
        without: FENCED,
        with: "",
    },
    // A file that is made.
    Cut {
        life: Life {
            file: UNMADE,
            starts: &[],
            last: None,
        },
        without: "",
        with: "create d0; create d1; create d2",
    },
    // A drive takes format 2 alone.
    Cut {
        life: Life {
            file: UNMADE,
            starts: &[],
            last: Some(Move::Refuses(1, OLD_FORMAT, 0)),
        },
        without: "create d0; create d1; create d2",
        with: "create d0 f2; create d1 f2; create d2 f2",
    },
];

const GRANTED: Steps = &[(Move::Asks(0, 1, Ask::Get(0, RW, 0, 8)), "")];

// A fence without a grant, of which one drive hasn't answered.
const FENCED_ALONE: Steps = &[
    (Move::Orders(OrderKind::Revoke, 0), ""),
    (Move::Performs(0, b""), ""),
    (Move::Performs(1, b""), ""),
];

// How many calls of the disk a step takes that changes what is kept.
const STEP: u32 = 4;

// What a crash leaves in what was written since the last sync, and the first call of the step at which it leaves the step:
// call 3 is the sync of the gate that was opened.
const FILLS: &[(Option<u8>, u32)] = &[(None, 3), (Some(0), 4), (Some(255), 3)];

// How many calls of the disk there were before the last step.
fn calls_before(alloc: Global, life: &Life) -> u32 {
    let calls = lived(alloc, NEVER, life, false).calls();
    u32::try_from(calls).unwrap_or(NEVER)
}

// Whether a step whose call of this number fails is there after a crash exactly from its moment on.
fn is_whole_or_not(alloc: Global, cut: &Cut, before: u32, call: u32) -> bool {
    for (fill, first) in FILLS.iter() {
        let words = if call < *first { cut.without } else { cut.with };
        let disk = lived(alloc, before.saturating_add(call), &cut.life, true);
        if !opens_after_crash(alloc, disk, *fill, Opened::Says(words)) {
            return false;
        }
    }
    true
}

#[test]
fn a_crash_leaves_a_step_whole_or_not_at_all(rt: HostRuntime) {
    let alloc = rt.alloc();
    for cut in CUTS.iter() {
        let before = calls_before(alloc, &cut.life);
        for call in 0..STEP + 1 {
            assert!(rt; is_whole_or_not(alloc, cut, before, call));
        }
    }
}

// A life, and how many calls of the disk it takes: 3 for the log, 4 for the drives, and 4 for each step that changes what is
// kept. Answers to CREATEs and SETTAGs change it with the last of them.
const COUNTS: &[(Life, usize)] = &[
    (
        Life {
            file: UNMADE,
            starts: &[],
            last: None,
        },
        11,
    ),
    (
        Life {
            file: RAID5,
            starts: &[],
            last: Some(Move::Performs(2, b"")),
        },
        15,
    ),
    (
        Life {
            file: RAID5,
            starts: &[GRANTED],
            last: Some(Move::Asks(0, 1, Ask::Get(0, RW, 0, 8))),
        },
        19,
    ),
    (
        Life {
            file: RAID5,
            starts: &[FENCES, FETCHES],
            last: Some(Move::Performs(0, b"abcd")),
        },
        27,
    ),
    (
        Life {
            file: RAID5,
            starts: &[],
            last: Some(Move::Asks(1, 9, Ask::Get(0, READ, 0, 8))),
        },
        15,
    ),
];

#[test]
fn the_disk_is_called_for_what_is_kept_alone(rt: HostRuntime) {
    let alloc = rt.alloc();
    for (life, calls) in COUNTS.iter() {
        assert!(rt; lived(alloc, NEVER, life, true).calls() == *calls);
    }
}

// A server with a writer's grant.
const WRITER: Life = Life {
    file: RAID5,
    starts: &[],
    last: Some(Move::Asks(0, 1, Ask::Get(0, RW, 0, 8))),
};

// A disk with the bytes of that server's journal, one of them changed, of which the call with this number fails.
fn changed(alloc: Global, at: usize, value: u8, fails: u32) -> MemDisk {
    let disk = lived(alloc, NEVER, &WRITER, true);
    let mut bytes = match Bytes::copied(alloc, disk.bytes()) {
        Ok(bytes) => bytes,
        Err(_) => Bytes::new(alloc),
    };
    if at < bytes.len() {
        *bytes.get_mut(at) = value;
    }
    MemDisk::holding(alloc, bytes, number(alloc, fails))
}

// The disk behind an opening, as far as that went.
fn opened_once<D: Disk>(alloc: Global, disk: D) -> D {
    match JournaledServer::open(alloc, disk) {
        Ok((server, _)) => server.into_disk(),
        Err((_, disk)) => disk,
    }
}

// How many calls an opening of that journal takes: a sync, the size, the header, the first gate, three for each of its four
// records, and four for its own.
const OPENING: u32 = 20;

// Whether an opening of which this call fails, and a crash then cuts off, is done again.
fn opens_again(alloc: Global, call: u32) -> bool {
    for (fill, _) in FILLS.iter() {
        let disk = opened_once(alloc, changed(alloc, 3, b'J', call));
        if !opens_after_crash(alloc, disk, *fill, Opened::Says(FENCED)) {
            return false;
        }
    }
    true
}

#[test]
fn an_opening_that_is_cut_off_is_done_again(rt: HostRuntime) {
    let alloc = rt.alloc();
    for call in 0..OPENING + 1 {
        assert!(rt; opens_again(alloc, call));
    }
}

// A place of that journal, the byte that stands there now, and how it is opened: the header, the first gate, and the number
// and the kind of the first entries, whose checksum then isn't theirs.
const CHANGED: &[(usize, u8, Opened)] = &[
    (3, b'J', Opened::Says(FENCED)),
    (0, 0, Opened::Refused(0)),
    (3, b'S', Opened::Refused(0)),
    (7, 2, Opened::Refused(0)),
    (8, 1, Opened::Refused(0)),
    (23, 1, Opened::Refused(0)),
    (24, 0, Opened::Says("")),
    (24, 1, Opened::Says(FENCED)),
    (25, 1, Opened::Refused(24)),
    (33, 1, Opened::Refused(24)),
    (40, 4, Opened::Refused(24)),
    (40, 99, Opened::Refused(24)),
];

#[test]
fn what_is_no_journal_is_refused_at_its_place(rt: HostRuntime) {
    let alloc = rt.alloc();
    for (at, value, how) in CHANGED.iter() {
        assert!(rt; opens(alloc, changed(alloc, *at, *value, NEVER), *how));
    }
    for call in 0..OPENING {
        assert!(rt; opens(alloc, changed(alloc, 3, b'J', call), Opened::Failed));
    }
}
