ghost use Rattle.std.specs.Prelude.{◌≡◌, ◌<◌, ◌≤◌, length, IfOk};

use crate::checksum::{ALL_ONES, crc_32};
use osd_lists::{Bytes, Memory};
use std::alloc::Global;
use std::marker::Model;

/// The most bytes of a record's body.
pub const MAX_BODY: usize = 300_000;

/// What a gate is opened with. All its bits are set, so it stays open if one of them turns.
pub const OPEN_GATE: u8 = 255;

// The bytes of a piece besides the body: the length and its complement, the checksum, and a closed gate.
const AROUND_BODY: usize = 13;

/// A record that is to be added to a log: its length, its body with the checksum, and a closed gate, as
/// they are written. Contracts see it as the body.
#[derive(Drop)]
pub struct Entry {
    piece: Bytes,
}

impl Model for Entry {
    ghost use Rattle.std.specs.Prelude.{◌≡◌, ℕ, List};
    ghost use Rattle.gate_log.specs.Entries.{body_in, piece_of};
    ghost use Rattle.gate_log.specs.Forms.{IsBody};

    ghost Value = { List ℕ };

    ghost view = { λ e. body_in e.piece };

    ghost invariant = { λ e. (e.piece ≡ piece_of (body_in e.piece)) × IsBody (body_in e.piece) };
}

impl Entry {
    ghost use Rattle.gate_log.specs.declared.entry.TheConstants.{MAX_BODY};
    ghost use Rattle.gate_log.specs.Entries.{piece_of};
    ghost use Rattle.gate_log.specs.Forms.{IsBody};

    /// The entry of a body, which has 1 to [`MAX_BODY`] bytes.
    pub fn new(alloc: Global, body: &[u8]) -> Result<Self, Memory>
        requires some { 0 < length body.now }
        requires fits { length body.now ≤ MAX_BODY }
        ensures { IfOk result (λ entry. entry ≡ body.now) }
    {
        let len = body.len() as u32;
        let mut piece = Bytes::with_capacity(alloc, AROUND_BODY + body.len())?;
        piece.extend_from_slice(&(ALL_ONES - len).to_be_bytes())?;
        piece.extend_from_slice(&len.to_be_bytes())?;
        piece.extend_from_slice(body)?;
        piece.extend_from_slice(&crc_32(body).to_be_bytes())?;
        piece.push(0)?;
        Ok(Entry { piece })
    }

    /// The bytes that are written behind a closed gate.
    pub fn piece(&self) -> &[u8]
        ensures bytes { result.now ≡ piece_of self.now }
        ensures is_body { IsBody self.now }
    {
        self.piece.as_slice()
    }
}
