ghost use Rattle.std.specs.Prelude.{◌≡◌, None};

use osd_bytes::{Fault, Sink, Source};
use std::io::{Input, Print, Read};

/// Standard input.
#[derive(Drop)]
pub struct StdSource<R> {
    runtime: R,
    faults: u64,
}

impl<R: Input + Drop> StdSource<R> {
    /// Standard input by a handle of the runtime.
    pub fn new(runtime: R) -> Self
        ensures { result.faults ≡ 0 }
    {
        StdSource { runtime, faults: 0 }
    }
}

impl<R: Input + Drop> Source for StdSource<R> {
    ghost use Rattle.std.specs.Prelude.{None};

    ghost left = { λ _. None };

    ghost faults = { λ s. s.faults };

    fn take(&mut self, buf: &mut [u8]) -> Result<usize, Fault> {
        match self.runtime.reader().read(buf) {
            Ok(n) => Ok(n),
            Err(_) => {
                self.faults = self.faults.saturating_add(1);
                Err(Fault)
            }
        }
    }
}

/// Standard output.
#[derive(Drop)]
pub struct StdSink<R> {
    runtime: R,
    faults: u64,
}

impl<R: Print + Drop> StdSink<R> {
    /// Standard output by a handle of the runtime.
    pub fn new(runtime: R) -> Self
        ensures { result.faults ≡ 0 }
    {
        StdSink { runtime, faults: 0 }
    }
}

impl<R: Print + Drop> Sink for StdSink<R> {
    ghost use Rattle.std.specs.Prelude.{None};

    ghost taken = { λ _. None };

    ghost faults = { λ s. s.faults };

    fn put(&mut self, bytes: &[u8]) -> Result<usize, Fault> {
        if bytes.is_empty() {
            return Ok(0);
        }
        match self.runtime.write_some(bytes) {
            Ok(n) if n > 0 => Ok(n),
            _ => {
                self.faults = self.faults.saturating_add(1);
                Err(Fault)
            }
        }
    }
}
