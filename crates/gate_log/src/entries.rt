ghost use Rattle.std.specs.Prelude.{◌≡◌, ◌++◌, ◌∷◌, [], List, ℕ, OnOk, OnErr};
ghost use Rattle.gate_log.specs.Entries.{pieces_of};

use crate::entry::{Entry, OPEN_GATE};
use osd_lists::{Bytes, Memory};
use std::alloc::Global;

/// Records that are to be added to a log together, as they are written: an open gate between any two of them, and behind the
/// last a closed one.
#[derive(Drop)]
pub struct Entries {
    pieces: Bytes,
}

impl Entries {
    ghost use Rattle.gate_log.specs.Together.{HaveBodies};

    /// No records.
    pub fn new(alloc: Global) -> Self
        ensures { HaveBodies [] result }
    {
        Entries {
            pieces: Bytes::new(alloc),
        }
    }

    /// Adds a record behind the others.
    ///
    /// # Errors
    ///
    /// [`Memory`]; then nothing changes.
    pub fn push(&mut self, entry: &Entry) -> Result<(), Memory>
        ensures ok { OnOk result ((bodies : List (List ℕ)) → HaveBodies bodies self.old
            → HaveBodies (bodies ++ entry.now ∷ []) self.new) }
        ensures err { OnErr result (self.new ≡ self.old) }
    {
        let end = self.pieces.len();
        self.pieces.extend_from_slice(entry.piece())?;
        if end == 0 {
            return Ok(());
        }
        *self.pieces.get_mut(end - 1) = OPEN_GATE;
        Ok(())
    }

    /// Drops all records.
    pub fn clear(&mut self)
        ensures { HaveBodies [] self.new }
    {
        self.pieces.truncate(0);
    }

    // The bytes that are written behind a closed gate.
    pub(crate) fn pieces(&self) -> &[u8]
        ensures { (bodies : List (List ℕ)) → HaveBodies bodies self.now → result.now ≡ pieces_of bodies }
    {
        self.pieces.as_slice()
    }
}
