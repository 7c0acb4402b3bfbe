ghost use Rattle.std.specs.Prelude.{◌≡◌, ◌∷◌, [], ℕ, List, Option, Some, OnOk, OnErr};
ghost use Rattle.port_loop.specs.Ports.{after_notes};

use osd_bytes::{ByteLists, Bytes, Memory};
use std::alloc::Global;

/// Whoever watches a program, and is told lines of text beside its connections.
pub trait Notes {
    /// The lines that were told, the oldest first, if that is known.
    ghost noted: { Self → Option (List (List ℕ)) };

    /// Tells a note: one line of text, without its end. One that can't be told, as to a standard error that is closed, is
    /// dropped.
    ///
    /// # Errors
    ///
    /// [`Memory`], of notes that are kept; then this one isn't.
    fn note(&mut self, line: &[u8]) -> Result<(), Memory>
        ensures ok { OnOk result (noted self.new ≡ after_notes (line.now ∷ []) (noted self.old)) }
        ensures err { OnErr result (noted self.new ≡ noted self.old) };
}

/// Notes that are kept in memory.
#[derive(Drop)]
pub struct MemNotes {
    alloc: Global,
    lines: ByteLists,
}

impl MemNotes {
    /// Before any line was told.
    pub fn new(alloc: Global) -> Self
        ensures { result.lines ≡ [] }
    {
        MemNotes {
            alloc,
            lines: ByteLists::new(alloc),
        }
    }

    /// The lines that were told, the oldest first.
    pub fn lines(&self) -> &[Bytes]
        ensures { result.now ≡ self.now.lines }
    {
        self.lines.as_slice()
    }
}

impl Notes for MemNotes {
    ghost noted = { λ notes. Some notes.lines };

    fn note(&mut self, line: &[u8]) -> Result<(), Memory> {
        let line = Bytes::copied(self.alloc, line)?;
        self.lines.push(line)?;
        Ok(())
    }
}
