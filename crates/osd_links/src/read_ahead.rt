// What is read of a file ahead of what is asked for.
ghost use Rattle.std.specs.Prelude.{◌≤◌, length, IfOk};

use crate::file_causes::FileCause;
use osd_lists::{Bytes, Memory};
use std::alloc::Global;
use std::fs::File;
use std::io::ErrorKind;
use std::os::fd::AsRawFd;
use std::os::unix::fs::FileExt;

// How many bytes are read at once if fewer are asked for.
const WINDOW: usize = 65_536;

// How many bytes from a read on the system is told of.
const AHEAD: u64 = 1 << 20;

// The system is told only if at least so many bytes are new to it.
const NEWS: u64 = AHEAD / 2;

// How often a read is tried that signals interrupt.
const TRIES: u32 = 1_000;

/// Reads of a file from its start to its end. A small one brings a whole window, which serves those behind it, and the
/// system is told what is read next.
///
/// It has to forget what it read if the file changes.
#[derive(Drop)]
pub(crate) struct ReadAhead {
    // The bytes from a place on, as they were read last.
    window: Bytes,
    at: u64,
    // The system was told of the bytes before this place.
    told: u64,
}

impl ReadAhead {
    /// Nothing was read.
    pub(crate) fn new(alloc: Global) -> Self {
        ReadAhead {
            window: Bytes::new(alloc),
            at: 0,
            told: 0,
        }
    }

    /// Forgets what was read.
    pub(crate) fn forget(&mut self) {
        self.window.truncate(0);
        self.told = 0;
    }

    /// Reads some bytes of a file: none only at its end, or for a buffer that is empty.
    pub(crate) fn read(&mut self, file: &File, at: u64, buf: &mut [u8]) -> Result<usize, FileCause>
        ensures { IfOk result (λ n. n ≤ length buf.old) }
    {
        let count = self.copy(at, buf);
        if count > 0 {
            return Ok(count);
        }
        self.tell(file, at);
        if buf.len() >= WINDOW || !self.has_room() {
            return read_some(file, at, buf);
        }
        match self.fill(file, at) {
            Ok(()) => Ok(self.copy(at, buf)),
            Err(cause) => Err(cause),
        }
    }

    // Copies what the window has from a place on, as far as the buffer has room.
    fn copy(&self, at: u64, buf: &mut [u8]) -> usize
        ensures { result ≤ length buf.old }
    {
        if at < self.at {
            return 0;
        }
        copy_from(self.window.as_slice(), at - self.at, buf)
    }

    // Has room for a whole window, if there is memory. What it holds counts for nothing from then on.
    fn has_room(&mut self) -> bool {
        match self.window.grow(WINDOW) {
            Ok(()) => true,
            Err(Memory) => false,
        }
    }

    // Reads what the window has room for.
    fn fill(&mut self, file: &File, at: u64) -> Result<(), FileCause> {
        let read = read_some(file, at, self.window.as_mut_slice());
        self.at = at;
        match read {
            Ok(count) => {
                self.window.truncate(count);
                Ok(())
            }
            Err(cause) => {
                self.window.truncate(0);
                Err(cause)
            }
        }
    }

    // Tells the system what is read from a place on, so that it reads that meanwhile.
    fn tell(&mut self, file: &File, at: u64) {
        let end = at.saturating_add(AHEAD);
        let from = at.max(self.told);
        if end > i64::MAX as u64 || end < from || end - from < NEWS {
            return;
        }
        // Advice alone: if it isn't taken, reads are slower.
        let _ = libc::posix_fadvise(
            file.as_raw_fd(),
            from as i64,
            (end - from) as i64,
            libc::POSIX_FADV_WILLNEED,
        );
        self.told = end;
    }
}

// Copies as many bytes from a place on as there are and as the buffer has room for.
fn copy_from(bytes: &[u8], at: u64, buf: &mut [u8]) -> usize
    ensures { result ≤ length buf.old }
{
    if at >= bytes.len() as u64 {
        return 0;
    }
    let (_, rest) = bytes.split_at(at as usize);
    let n = rest.len().min(buf.len());
    buf[..n].copy_from_slice(&rest[..n]);
    n
}

// Reads some bytes of a file.
fn read_some(file: &File, at: u64, buf: &mut [u8]) -> Result<usize, FileCause>
    ensures { IfOk result (λ n. n ≤ length buf.old) }
{
    for _ in 0..TRIES {
        match file.read_at(buf, at) {
            Ok(n) => return Ok(n),
            Err(e) if e.kind() == ErrorKind::Interrupted => {}
            Err(e) => return Err(FileCause::of(e)),
        }
    }
    Err(FileCause::System(ErrorKind::Interrupted.into()))
}
