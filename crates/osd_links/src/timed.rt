// A stream that is read and written within limits of time.
ghost use Rattle.std.specs.Prelude.{◌<◌, length, IfOk};
ghost use Rattle.std.specs.Io.{ReadsAtMost, WritesAtMost};

use crate::faults::Cause;
use crate::patience::Limits;
use crate::stopwatch::Stopwatch;
use std::io::{self, ErrorKind, Read, Write};
use std::net::OpenStream;
use std::time::Duration;

// How many times a call that a signal interrupts is made.
const MOST_TRIES: u32 = 64;

// A stream with its limits, and the time that its record or exchange has taken so far. How long its reads and its
// writes wait is set again only where it changes, as it seldom does: each setting is a call of the system.
#[derive(Drop)]
pub(crate) struct Timed<S> {
    stream: S,
    limits: Limits,
    watch: Stopwatch,
    read_wait: Option<Duration>,
    write_wait: Option<Duration>,
}

// Reads some bytes. A signal, as one that lets a stopped process go on, ends no connection.
fn read_some<S: Read>(stream: &mut S, buf: &mut [u8]) -> Result<usize, Cause>
    ensures { ReadsAtMost result buf.new }
{
    for _ in 0..MOST_TRIES {
        match stream.read(buf) {
            Ok(count) => return Ok(count),
            Err(e) if e.kind() == ErrorKind::Interrupted => {}
            Err(e) => return Err(Cause::of(e)),
        }
    }
    Err(Cause::Silent)
}

// Writes some bytes, at least one where there is one.
fn write_some<S: Write>(stream: &mut S, bytes: &[u8]) -> Result<usize, Cause>
    ensures bound { WritesAtMost result bytes.now }
    ensures some { IfOk result (λ n. 0 < length bytes.now → 0 < n) }
{
    for _ in 0..MOST_TRIES {
        match stream.write(bytes) {
            Ok(count) if count > 0 || bytes.is_empty() => return Ok(count),
            Ok(_) => return Err(Cause::Ended),
            Err(e) if e.kind() == ErrorKind::Interrupted => {}
            Err(e) => return Err(Cause::of(e)),
        }
    }
    Err(Cause::Silent)
}

impl<S: OpenStream + Read + Write + Drop> Timed<S> {
    // The stream. The time of its first record begins with the first call.
    pub(crate) fn new(stream: S, limits: Limits, watch: Stopwatch) -> Self {
        Timed {
            stream,
            limits,
            watch,
            read_wait: None,
            write_wait: None,
        }
    }

    // The time of the next record begins with the next call.
    pub(crate) fn begin(&mut self) {
        self.watch = Stopwatch::new();
    }

    // How long the next call may wait.
    fn wait(&mut self, now: Option<Duration>) -> Result<Duration, Cause> {
        let left = self.watch.left_of(self.limits.whole, now);
        if left.is_zero() {
            return Err(Cause::Slow);
        }
        Ok(left.min(self.limits.silence))
    }

    // The stream's reads wait so long from now on.
    fn let_reads_wait(&mut self, wait: Duration) -> io::Result<()> {
        if self.read_wait != Some(wait) {
            self.stream.set_read_timeout(Some(wait))?;
            self.read_wait = Some(wait);
        }
        Ok(())
    }

    // The stream's writes wait so long from now on.
    fn let_writes_wait(&mut self, wait: Duration) -> io::Result<()> {
        if self.write_wait != Some(wait) {
            self.stream.set_write_timeout(Some(wait))?;
            self.write_wait = Some(wait);
        }
        Ok(())
    }

    // Reads some bytes at this time of the clock.
    pub(crate) fn read(&mut self, buf: &mut [u8], now: Option<Duration>) -> Result<usize, Cause>
        ensures { ReadsAtMost result buf.new }
    {
        let wait = match self.wait(now) {
            Ok(wait) => wait,
            Err(cause) => return Err(cause),
        };
        match self.let_reads_wait(wait) {
            Ok(()) => read_some(&mut self.stream, buf),
            Err(e) => Err(Cause::of(e)),
        }
    }

    // Writes some of the bytes at this time of the clock, at least one where there is one.
    pub(crate) fn write(&mut self, bytes: &[u8], now: Option<Duration>) -> Result<usize, Cause>
        ensures bound { WritesAtMost result bytes.now }
        ensures some { IfOk result (λ n. 0 < length bytes.now → 0 < n) }
    {
        let wait = match self.wait(now) {
            Ok(wait) => wait,
            Err(cause) => return Err(cause),
        };
        match self.let_writes_wait(wait) {
            Ok(()) => write_some(&mut self.stream, bytes),
            Err(e) => Err(Cause::of(e)),
        }
    }
}
