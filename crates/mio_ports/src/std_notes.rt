// Notes for a person.
use osd_bytes::Memory;
use osd_links::Printable;
use port_loop::Notes;
use std::io::Eprint;

/// Notes that go to standard error, each as a line of its own, at once. One that can't be written is dropped.
#[derive(Drop)]
pub struct StdNotes<R> {
    runtime: R,
}

impl<R> StdNotes<R> {
    /// Notes by a handle of the runtime.
    pub fn new(runtime: R) -> Self {
        StdNotes { runtime }
    }
}

impl<R: Eprint> Notes for StdNotes<R> {
    ghost use Rattle.std.specs.Prelude.{None};

    ghost noted = { λ _. None };

    fn note(&mut self, line: &[u8]) -> Result<(), Memory> {
        let _told = self.runtime.eprintln(Printable::new(line));
        Ok(())
    }
}
