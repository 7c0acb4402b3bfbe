ghost use Rattle.std.specs.Prelude.{◌≡◌, ◌<◌, ◌+◌, ◌++◌, ℕ, List, [], None, Some, length, IfOk, IfSome, IfNone, IsSome};
ghost use Rattle.osd_bytes.specs.Counts.{NoFewer};
ghost use Rattle.osd_bytes.specs.Records.{fresh, split};
ghost use Rattle.osd_bytes.specs.Inboxes.{IsOver, Reads, ReadsByte, WasTaken, begun_or_broken};
ghost use Rattle.osd_bytes.specs.declared.inbox.TheConstants.{MAX_TAKEN};

use crate::links::Links;
use crate::records::{RecordErr, Records};
use osd_lists::{ByteLists, Bytes, Memory};
use std::alloc::Global;
use std::marker::Model;

/// How many bytes are taken of one connection at most.
pub const MAX_TAKEN: usize = 67_108_864;

// How many bytes are taken at once at most.
const PIECE: usize = 65_536;

// Reads the records of a piece, up to one that is too long, and tells whether there is such a record.
fn read_piece(stream: &mut Records, piece: &[u8], records: &mut ByteLists) -> Result<bool, Memory>
    requires { records.old ≡ [] }
    ensures { IfOk result (λ broken. split stream.old piece.now ≡
        record { records = records.new; begun = begun_or_broken broken stream.new }) }
{
    match stream.feed_into(piece, records) {
        Ok(()) => Ok(false),
        Err(RecordErr::TooLong) => Ok(true),
        Err(RecordErr::Memory) => Err(Memory),
    }
}

/// What came on the accepted connection: its records are given as they come.
#[derive(Drop)]
pub struct Inbox {
    alloc: Global,
    stream: Records,
    is_broken: bool,
    room: usize,
    // Where pieces are taken to. It is kept from one to the next, and made for the first.
    space: Bytes,
}

impl Model for Inbox {
    ghost use Rattle.osd_bytes.specs.Inboxes.{Coming, begun_or_broken};

    ghost Value = { Coming };

    ghost view = { λ i. record { begun = begun_or_broken i.is_broken i.stream; room = i.room } };
}

impl Inbox {
    /// The inbox of a connection that was just accepted.
    pub fn new(alloc: Global) -> Self
        ensures { result ≡ record { begun = Some fresh; room = MAX_TAKEN } }
    {
        Inbox {
            alloc,
            stream: Records::new(alloc),
            is_broken: false,
            room: MAX_TAKEN,
            space: Bytes::new(alloc),
        }
    }

    /// Takes what comes next on the accepted connection, and gives the records that became whole by
    /// that, perhaps none. There is nothing more where the connection is at its end, the call of the
    /// links failed, a record was too long, or [`MAX_TAKEN`] bytes were taken.
    ///
    /// # Errors
    ///
    /// [`Memory`]; what was taken then is lost.
    pub fn more<L: Links>(&mut self, links: &mut L) -> Result<Option<ByteLists>, Memory>
        ensures taken { (piece : List ℕ) × WasTaken (L.told links.old) (L.told links.new) piece ×
            (length piece + self.new.room ≡ self.old.room) ×
            IfOk result (λ more. IfSome more (λ records. Reads piece records self.old self.new)) }
        ensures over { IfOk result (λ more. IfNone more ((self.new ≡ self.old) ×
            IsOver self.old (L.told links.new) (L.faults links.old) (L.faults links.new))) }
        ensures less { IfOk result (λ more. IfSome more (λ records. self.new.room < self.old.room)) }
        ensures same { IfOk result (λ more. IfSome more (λ records. L.faults links.new ≡ L.faults links.old)) }
        ensures later { NoFewer (L.faults links.old) (L.faults links.new) }
        ensures standing { L.standing links.new ≡ L.standing links.old }
    {
        if self.is_broken || self.room == 0 {
            return Ok(None);
        }
        self.space.grow(PIECE)?;
        let (space, _) = self.space.as_mut_slice().split_at_mut(self.room.min(PIECE));
        match links.take(space) {
            Ok(0) => Ok(None),
            Ok(count) => {
                self.room -= count;
                let (came, _) = space.split_at(count);
                let mut records = ByteLists::new(self.alloc);
                self.is_broken = read_piece(&mut self.stream, came, &mut records)?;
                Ok(Some(records))
            }
            Err(_) => Ok(None),
        }
    }
}
