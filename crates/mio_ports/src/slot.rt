ghost use Rattle.std.specs.Prelude.{◌≤◌, ℕ, List, length, IfOk};
ghost use Rattle.std.specs.Io.{WritesAtMost};
ghost use Rattle.mio_ports.specs.Counted.{BringsSome};

use crate::limits::PortLimits;
use mio::net::TcpStream;
use osd_bytes::Fault;
use osd_links::Limits;
use std::io::{ErrorKind, Read, Write};
use std::time::Duration;

// How many calls of the system one turn makes at most on a connection.
const MOST_CALLS: u32 = 16;

/// What a connection has at its turn.
#[derive(Clone, Copy)]
pub(crate) enum Turn {
    /// So many bytes, at the front of the buffer.
    Brings(usize),
    /// Room again.
    Drains,
    /// Its end.
    Ends,
    /// Nothing.
    Rests,
}

// What a connection is about, and since when.
#[derive(Clone, Copy)]
enum Phase {
    // Nothing is due.
    Rests,
    // A record is coming, or its reply isn't put yet.
    Comes(Duration),
    // A reply or a command is going.
    Goes(Duration),
    // An answer is owed, of which nothing came.
    Owes(Duration),
}

// How many bytes were written, and whether the system had no room for more.
#[derive(Clone, Copy, Drop)]
struct Written {
    count: usize,
    is_blocked: bool,
}

/// A connection, and what is known of it.
#[derive(Drop)]
pub(crate) struct Slot {
    stream: TcpStream,
    // It was opened from here: its peer is asked, and answers.
    is_asked: bool,
    // It stands in the queue of those that may have something.
    pub(crate) is_queued: bool,
    // A put didn't take all, and it wasn't told that there is room since.
    is_full: bool,
    // The system has room for more.
    has_room: bool,
    // There may be bytes, or the end, that the system won't tell of again.
    pub(crate) may_have_more: bool,
    // The peer will send no more.
    is_ending: bool,
    // When a byte last came or went.
    heard: Duration,
    phase: Phase,
}

// Tries to read, once but for signals.
fn read_some<S: Read>(stream: &mut S, buf: &mut [u8]) -> Turn
    ensures { BringsSome result buf.new }
{
    for _ in 0..MOST_CALLS {
        match stream.read(buf) {
            Ok(0) => return Turn::Ends,
            Ok(count) => return Turn::Brings(count),
            Err(e) if e.kind() == ErrorKind::WouldBlock => return Turn::Rests,
            Err(e) if e.kind() == ErrorKind::Interrupted => {}
            Err(_) => return Turn::Ends,
        }
    }
    Turn::Ends
}

// Writes from the front, until all is written, there is no room, or others should have their turn.
fn write_some<S: Write>(stream: &mut S, bytes: &[u8]) -> Result<Written, Fault>
    ensures { IfOk result (λ w. w.count ≤ length bytes.now) }
{
    let mut count = 0;
    for _ in 0..MOST_CALLS {
        if count >= bytes.len() {
            break;
        }
        let (_, rest) = bytes.split_at(count);
        match stream.write(rest) {
            Ok(0) => return Err(Fault),
            Ok(more) => count += more,
            Err(e) if e.kind() == ErrorKind::WouldBlock => {
                return Ok(Written {
                    count,
                    is_blocked: true,
                });
            }
            Err(e) if e.kind() == ErrorKind::Interrupted => {}
            Err(_) => return Err(Fault),
        }
    }
    Ok(Written {
        count,
        is_blocked: false,
    })
}

impl Slot {
    /// A connection that others began now. The time of its first record begins.
    pub(crate) fn new(stream: TcpStream, now: Duration) -> Self {
        Slot {
            stream,
            is_asked: false,
            is_queued: false,
            is_full: false,
            has_room: false,
            may_have_more: false,
            is_ending: false,
            heard: now,
            phase: Phase::Comes(now),
        }
    }

    /// A connection that was opened from here now, to ask its peer.
    pub(crate) fn asking(stream: TcpStream, now: Duration) -> Self {
        let mut slot = Slot::new(stream, now);
        slot.is_asked = true;
        slot.phase = Phase::Rests;
        slot
    }

    /// When a byte last came or went.
    pub(crate) fn heard(&self) -> Duration {
        self.heard
    }

    /// The system told that something changed.
    pub(crate) fn wake(&mut self, has_room: bool, is_ending: bool) {
        self.has_room |= has_room;
        self.is_ending |= is_ending;
    }

    /// Whether it wants a turn as soon as the others had theirs.
    pub(crate) fn wants_turn(&self) -> bool {
        if self.is_full {
            self.has_room
        } else {
            self.may_have_more
        }
    }

    // Since when a record is coming, or a reply or a command is going.
    fn busy_since(&self) -> Option<Duration> {
        match self.phase {
            Phase::Rests | Phase::Owes(_) => None,
            Phase::Comes(since) | Phase::Goes(since) => Some(since),
        }
    }

    // How long its peer is waited for.
    fn limits(&self, limits: &PortLimits) -> Limits {
        if self.is_asked {
            limits.asked
        } else {
            limits.record
        }
    }

    // Whether bytes came or went when the time of the record or the reply was up, and it isn't whole since.
    fn is_overdue(&self, limits: &PortLimits) -> bool {
        match self.busy_since() {
            Some(since) => self.heard.saturating_sub(since) >= self.limits(limits).whole,
            None => false,
        }
    }

    /// Whether the peer kept silent too long, or takes too long over a record or a reply. What it did isn't known while it waits
    /// for its turn.
    pub(crate) fn is_late(&self, now: Duration, limits: &PortLimits) -> bool {
        if self.is_queued {
            return false;
        }
        let silent = now.saturating_sub(self.heard);
        let Limits { silence, whole } = self.limits(limits);
        match self.phase {
            Phase::Rests => silent >= limits.idle,
            Phase::Comes(since) | Phase::Goes(since) => {
                silent >= silence || now.saturating_sub(since) >= whole
            }
            Phase::Owes(since) => now.saturating_sub(since) >= silence,
        }
    }

    /// What it has at its turn. One that is full isn't read.
    pub(crate) fn turn(&mut self, buf: &mut [u8], now: Duration, limits: &PortLimits) -> Turn
        ensures { BringsSome result buf.new }
    {
        self.is_queued = false;
        if self.is_overdue(limits) {
            return Turn::Ends;
        }
        if self.is_full {
            return self.drain();
        }
        let turn = read_some(&mut self.stream, buf);
        self.note(turn, buf.len(), now);
        turn
    }

    // It isn't full any more, if there is room again. What came meanwhile is read at its next turn.
    fn drain(&mut self) -> Turn
        ensures { (buf : List ℕ) → BringsSome result buf }
    {
        if !self.has_room {
            return Turn::Rests;
        }
        self.is_full = false;
        self.has_room = false;
        self.may_have_more = true;
        Turn::Drains
    }

    // What a read of a buffer of this size gave. If it is shorter and isn't the peer's last, the system has no more, and tells
    // when more comes.
    fn note(&mut self, turn: Turn, size: usize, now: Duration) {
        self.may_have_more = false;
        if let Turn::Brings(count) = turn {
            self.may_have_more = self.is_ending || count == size;
            self.heard = now;
            self.phase = match self.phase {
                Phase::Goes(since) => Phase::Goes(since),
                Phase::Comes(since) => Phase::Comes(since),
                _ if self.is_asked => Phase::Rests,
                _ => Phase::Comes(now),
            };
        }
    }

    /// Writes from the front, as much as there is room for.
    pub(crate) fn put(&mut self, bytes: &[u8], now: Duration) -> Result<usize, Fault>
        ensures { WritesAtMost result bytes.now }
    {
        match write_some(&mut self.stream, bytes) {
            Ok(written) => {
                self.note_put(written, bytes.len(), now);
                Ok(written.count)
            }
            Err(fault) => Err(fault),
        }
    }

    // What a put of so many bytes gave. If all are written, nothing is due but the answer of a peer that is asked.
    fn note_put(&mut self, written: Written, wanted: usize, now: Duration) {
        if written.count > 0 {
            self.heard = now;
        }
        if written.count < wanted {
            self.is_full = true;
            self.has_room = !written.is_blocked;
            self.phase = match self.phase {
                Phase::Goes(since) => Phase::Goes(since),
                _ => Phase::Goes(now),
            };
        } else if wanted > 0 {
            self.phase = match self.phase {
                Phase::Owes(since) => Phase::Owes(since),
                _ if self.is_asked => Phase::Owes(now),
                _ => Phase::Rests,
            };
        }
    }
}
