use osd_bytes::Clock;
use std::time::Clock as TimeSource;

/// The system's clock, in seconds since 1970.
#[derive(Drop)]
pub struct SystemClock<R> {
    runtime: R,
    last: u64,
}

impl<R: TimeSource + Drop> SystemClock<R> {
    /// The clock by a handle of the runtime.
    pub fn new(runtime: R) -> Self {
        SystemClock { runtime, last: 0 }
    }
}

impl<R: TimeSource + Drop> Clock for SystemClock<R> {
    ghost use Rattle.std.specs.Prelude.{None};

    ghost times = { λ _. None };

    // Where it can't be read it gives its last time again, at first 0.
    fn now(&mut self) -> u64 {
        if let Ok(time) = self.runtime.since_1970() {
            self.last = time.as_secs();
        }
        self.last
    }
}
