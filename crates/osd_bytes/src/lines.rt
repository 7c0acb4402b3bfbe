ghost use Rattle.std.specs.Prelude.{◌≡◌, ◌+◌, ◌≤◌, ◌<◌, ◌↔◌, true, false, [], take, drop, length, IfOk, IfErr, OnOk, IsErrOf};
ghost use Rattle.std.specs.Io.KnownBytes.{Consumes, IsAtEnd};
ghost use Rattle.osd_bytes.specs.Reading.{known_of, read_of, ReadsOn, SeesEnd};
ghost use Rattle.osd_bytes.specs.Causes.{Rose};
ghost use Rattle.osd_bytes.specs.Lines.{NextIs, Leaves, GivesLine, TakesLine, TakesPiece, CountsNewlines, Yields, FailsUnread, KeepsUnread, HasReadCause};
ghost use Rattle.osd_bytes.specs.declared.lines.LineErr.TheVariants.{ReadFault};

use crate::source::Source;
use memchr::memchr;
use osd_lists::{Bytes, Memory};
use std::alloc::Global;
use std::marker::Model;
use thiserror::Error;

/// The most bytes of a line.
pub const MAX_LINE: u32 = 600_000;

/// The most bytes of an input.
pub const MAX_INPUT: u64 = 67_108_864;

/// The most bytes that are taken of a source, in all: those of the longest input, and the byte by which one is too long.
pub const MAX_READ: u64 = MAX_INPUT + 1;

/// Why no line came.
#[derive(Clone, Copy, Debug, PartialEq, Eq, Error)]
pub enum LineErr {
    /// A line passes [`MAX_LINE`] bytes.
    #[error("a line is too long")]
    TooLong,
    /// The input passes [`MAX_INPUT`] bytes. At the same byte this goes before `TooLong`.
    #[error("the input is too long")]
    InputFull,
    /// The source failed: its count of faults rose.
    #[error("a read failed")]
    ReadFault,
    /// There was no memory.
    #[error("out of memory")]
    Memory,
}

impl From<Memory> for LineErr {
    ghost use Rattle.osd_bytes.specs.declared.lines.LineErr.TheVariants.{Memory};

    ghost from_gives = { λ _ e. e ≡ Memory };

    fn from(_: Memory) -> Self {
        LineErr::Memory
    }
}

// How many bytes are read ahead at most.
const WINDOW: usize = 65_536;

/// Bytes that were read ahead, and whether the source has come to its end. The buffer has no room before the first read.
#[derive(Drop)]
struct Window {
    buffer: Bytes,
    at: usize,
    end: usize,
    ended: bool,
}

impl Model for Window {
    ghost use Rattle.std.specs.Prelude.{◌≤◌, drop, take, length};
    ghost use Rattle.osd_bytes.specs.Reading.{Ahead};

    ghost Value = { Ahead };

    ghost view = { λ w. record { bytes = drop w.at (take w.end w.buffer); ended = w.ended } };

    ghost invariant = { λ w. (w.at ≤ w.end) × (w.end ≤ length w.buffer) };
}

impl Window {
    fn new(alloc: Global) -> Self
        ensures { result ≡ record { bytes = []; ended = false } }
    {
        Window {
            buffer: Bytes::new(alloc),
            at: 0,
            end: 0,
            ended: false,
        }
    }

    fn len(&self) -> usize
        ensures { result ≡ length self.now.bytes }
    {
        self.end - self.at
    }

    // The first bytes that were read ahead, `most` of them, or all where there are no more.
    fn front(&self, most: usize) -> &[u8]
        ensures { result.now ≡ take most self.now.bytes }
    {
        let (read, _) = self.buffer.as_slice().split_at(self.end);
        let (_, ahead) = read.split_at(self.at);
        let (front, _) = ahead.split_at(most.min(ahead.len()));
        front
    }

    fn advance(&mut self, count: usize)
        requires { count ≤ length self.old.bytes }
        ensures bytes { self.new.bytes ≡ drop count self.old.bytes }
        ensures same { self.new.ended ≡ self.old.ended }
    {
        self.at += count;
    }

    // Reads on where all bytes were taken, as many as `most`. A source that has ended is asked no more.
    fn fill<S: Source>(&mut self, most: usize, s: &mut S) -> Result<(), LineErr>
        requires some { 0 < most }
        requires within { length self.old.bytes ≤ most }
        ensures reads { ReadsOn (length self.old.bytes) (length self.new.bytes) (S.left s.old) (S.left s.new) }
        ensures within { length self.new.bytes ≤ most }
        ensures bytes { OnOk result (Consumes (known_of self.old (S.left s.old)) (known_of self.new (S.left s.new)) []) }
        ensures end { OnOk result (length self.new.bytes ≡ 0 → self.new.ended ≡ true) }
        ensures at_end { OnOk result (SeesEnd self.old.ended (S.left s.old) self.new.ended (S.left s.new)) }
        ensures open { self.new.ended ≡ false → self.old.ended ≡ false }
        ensures err { IfErr result (FailsUnread self.old (S.left s.old) (S.left s.new)) }
        ensures later { S.faults s.old ≤ S.faults s.new }
        ensures fault { IsErrOf result ReadFault → Rose (S.faults s.old) (S.faults s.new) }
        ensures same { OnOk result (S.faults s.new ≡ S.faults s.old) }
        ensures loan { S.loan s.new ≡ S.loan s.old }
    {
        if self.len() > 0 || self.ended {
            return Ok(());
        }
        self.at = 0;
        self.end = 0;
        self.end = read_into(&mut self.buffer, most, s)?;
        self.ended = self.end == 0;
        Ok(())
    }
}

// Reads as many bytes as `most` from a source to the front of a buffer, which gets its room first.
fn read_into<S: Source>(buffer: &mut Bytes, most: usize, s: &mut S) -> Result<usize, LineErr>
    requires { 0 < most }
    ensures bound { IfOk result (λ count. (count ≤ length buffer.new) × (count ≤ most)) }
    ensures bytes { IfOk result (λ count. Consumes (S.left s.old) (S.left s.new) (take count buffer.new)) }
    ensures end { IfOk result (λ count. count ≡ 0 → IsAtEnd (S.left s.new)) }
    ensures err { IfErr result (KeepsUnread (S.left s.old) (S.left s.new)) }
    ensures later { S.faults s.old ≤ S.faults s.new }
    ensures fault { IsErrOf result ReadFault → Rose (S.faults s.old) (S.faults s.new) }
    ensures same { OnOk result (S.faults s.new ≡ S.faults s.old) }
    ensures loan { S.loan s.new ≡ S.loan s.old }
{
    buffer.grow(WINDOW)?;
    let room = most.min(buffer.len());
    let (space, _) = buffer.as_mut_slice().split_at_mut(room);
    match s.take(space) {
        Ok(count) => Ok(count),
        Err(_) => Err(LineErr::ReadFault),
    }
}

// Adds the bytes before the next newline to a line, as far as they are read ahead and the limits let them come. The
// newline is taken too. Tells whether it came.
fn take_piece(window: &mut Window, taken: &mut u64, line: &mut Bytes) -> Result<bool, Memory>
    requires room { taken.old < MAX_INPUT }
    requires short { length line.old ≤ MAX_LINE }
    requires some { 0 < length window.old.bytes }
    ensures piece { IfOk result (TakesPiece line.old line.new window.old.bytes window.new.bytes taken.old taken.new) }
    ensures bound { taken.new ≤ MAX_INPUT }
    ensures read { taken.new + length window.new.bytes ≡ taken.old + length window.old.bytes }
    ensures same { window.new.ended ≡ window.old.ended }
{
    let line_room = u64::from(MAX_LINE) + 1 - line.len() as u64;
    let front = window.front(line_room.min(MAX_INPUT - *taken) as usize);
    match memchr(b'\n', front) {
        Some(at) => {
            let (piece, _) = front.split_at(at);
            line.extend_from_slice(piece)?;
            window.advance(at + 1);
            *taken += at as u64 + 1;
            Ok(true)
        }
        None => {
            let count = front.len();
            line.extend_from_slice(front)?;
            window.advance(count);
            *taken += count as u64;
            Ok(false)
        }
    }
}

// A line, and how many bytes came.
fn line_from<S: Source>(
    alloc: Global,
    window: &mut Window,
    taken: &mut u64,
    s: &mut S,
) -> Result<Option<Bytes>, LineErr>
    requires taken { taken.old ≤ MAX_INPUT }
    requires within { taken.old + length window.old.bytes ≤ MAX_READ }
    ensures answer { NextIs taken.old (known_of window.old (S.left s.old)) result }
    ensures rest { OnOk result (Leaves (known_of window.old (S.left s.old)) (known_of window.new (S.left s.new))) }
    ensures taken { taken.new ≤ MAX_INPUT }
    ensures within { taken.new + length window.new.bytes ≤ MAX_READ }
    ensures reads { ReadsOn (taken.old + length window.old.bytes) (taken.new + length window.new.bytes)
        (S.left s.old) (S.left s.new) }
    ensures takes { TakesLine taken.old taken.new (known_of window.old (S.left s.old))
        (known_of window.new (S.left s.new)) result }
    ensures newlines { CountsNewlines window.old.ended window.new.ended (known_of window.old (S.left s.old))
        (known_of window.new (S.left s.new)) (S.left s.new) result }
    ensures counts { GivesLine result → taken.old < taken.new }
    ensures end { result ≡ Ok None → window.new.ended ≡ true }
    ensures at_end { OnOk result (SeesEnd window.old.ended (S.left s.old) window.new.ended (S.left s.new)) }
    ensures cause { HasReadCause (S.faults s.old) (S.faults s.new) result }
    ensures loan { S.loan s.new ≡ S.loan s.old }
{
    let mut line = Bytes::new(alloc);
    'pieces: while line.len() <= MAX_LINE as usize {
        match window.fill((MAX_READ - *taken) as usize, s) {
            Ok(()) => {}
            Err(e) => return Err(e),
        }
        if window.len() == 0 {
            return Ok(if line.is_empty() { None } else { Some(line) });
        }
        if *taken == MAX_INPUT {
            return Err(LineErr::InputFull);
        }
        if take_piece(window, taken, &mut line)? {
            return Ok(Some(line));
        }
    }
    Err(LineErr::TooLong)
}

/// The lines of a source.
#[derive(Drop)]
pub struct LineReader {
    alloc: Global,
    window: Window,
    taken: u64,
    over: bool,
}

impl Model for LineReader {
    ghost use Rattle.std.specs.Prelude.{◌≤◌, ◌+◌, length};
    ghost use Rattle.osd_bytes.specs.declared.lines.TheConstants.{MAX_INPUT, MAX_READ};
    ghost use Rattle.osd_bytes.specs.Reading.{Reading};

    ghost Value = { Reading };

    ghost view = { λ r. record { ahead = r.window; taken = r.taken; over = r.over } };

    ghost invariant = { λ r. (r.taken ≤ MAX_INPUT) × (r.taken + length r.window.bytes ≤ MAX_READ) };
}

impl LineReader {
    ghost use Rattle.std.specs.Prelude.{List, ℕ};

    pub fn new(alloc: Global) -> Self
        ensures { result ≡ record { ahead = record { bytes = []; ended = false }; taken = 0; over = false } }
    {
        LineReader {
            alloc,
            window: Window::new(alloc),
            taken: 0,
            over: false,
        }
    }

    /// Whether no further line may be asked.
    pub fn is_over(&self) -> bool
        ensures { result ≡ self.now.over }
    {
        self.over
    }

    /// The next line without its newline, or `None` at the end.
    pub fn next_line<S: Source>(&mut self, s: &mut S) -> Result<Option<Bytes>, LineErr>
        requires { self.old.over ≡ false }
        ensures answer { NextIs self.old.taken (known_of self.old.ahead (S.left s.old)) result }
        ensures rest { OnOk result (Leaves (known_of self.old.ahead (S.left s.old))
            (known_of self.new.ahead (S.left s.new))) }
        ensures lines { Yields (known_of self.old.ahead (S.left s.old))
            (known_of self.new.ahead (S.left s.new)) result }
        ensures over { (self.new.over ≡ false) ↔ GivesLine result }
        ensures takes { TakesLine self.old.taken self.new.taken (known_of self.old.ahead (S.left s.old))
            (known_of self.new.ahead (S.left s.new)) result }
        ensures newlines { CountsNewlines self.old.ahead.ended self.new.ahead.ended (known_of self.old.ahead (S.left s.old))
            (known_of self.new.ahead (S.left s.new)) (S.left s.new) result }
        ensures counts { GivesLine result → self.old.taken < self.new.taken }
        ensures end { result ≡ Ok None → self.new.ahead.ended ≡ true }
        ensures at_end { OnOk result (SeesEnd self.old.ahead.ended (S.left s.old) self.new.ahead.ended (S.left s.new)) }
        ensures within { self.new.taken ≤ MAX_INPUT }
        ensures reads { ReadsOn (read_of self.old) (read_of self.new) (S.left s.old) (S.left s.new) }
        ensures bound { read_of self.new ≤ MAX_READ }
        ensures cause { HasReadCause (S.faults s.old) (S.faults s.new) result }
        ensures loan { S.loan s.new ≡ S.loan s.old }
    {
        let found = line_from(self.alloc, &mut self.window, &mut self.taken, s);
        self.over = !matches!(found, Ok(Some(_)));
        found
    }
}
