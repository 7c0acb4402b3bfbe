ghost use Rattle.std.specs.Prelude.{◌≡◌, ◌≤◌, ◌++◌, ◌∷◌, [], None, drop, length, IfOk, OnOk, IsTrue, ◌↔◌};
ghost use Rattle.osd_bytes.specs.Inboxes.{begun_or_broken};
ghost use Rattle.osd_bytes.specs.Records.{framed, split};
ghost use Rattle.osd_bytes.specs.declared.records.TheConstants.{MAX_RECORD};
ghost use Rattle.port_loop.specs.Sessions.{Reads, new_session};

use osd_bytes::{ByteLists, Bytes, Memory, RecordErr, Records, frame};
use std::alloc::Global;
use std::marker::Model;

/// What is kept of a connection that is open: what came of its next record, and what is still to be put on it.
#[derive(Drop)]
pub struct Session {
    alloc: Global,
    records: Records,
    // A record was too long.
    is_broken: bool,
    out: Bytes,
}

impl Model for Session {
    ghost use Rattle.osd_bytes.specs.Inboxes.{begun_or_broken};
    ghost use Rattle.port_loop.specs.Sessions.{Sess};

    ghost Value = { Sess };

    ghost view = { λ s. record { begun = begun_or_broken s.is_broken s.records; unsent = s.out } };
}

// Adds copies of lists to a list.
fn append(alloc: Global, all: &mut ByteLists, more: &ByteLists) -> Result<(), Memory>
    ensures { OnOk result (all.new ≡ all.old ++ more.now) }
{
    for i in 0..more.len() {
        let one = Bytes::copied(alloc, more.get(i).as_slice())?;
        all.push(one)?;
    }
    Ok(())
}

// The records of a piece up to one that is too long, and whether there is such a one. It reads byte by byte, so that it is
// there for a piece that was refused as a whole.
fn read_bytes(
    alloc: Global,
    stream: &mut Records,
    piece: &[u8],
) -> Result<(ByteLists, bool), Memory>
    ensures { IfOk result (λ r. split stream.old piece.now ≡
        record { records = r.0; begun = begun_or_broken r.1 stream.new }) }
{
    let mut records = ByteLists::new(alloc);
    for i in 0..piece.len() {
        match stream.feed(&[piece[i]]) {
            Ok(more) => append(alloc, &mut records, &more)?,
            Err(RecordErr::TooLong) => return Ok((records, true)),
            Err(RecordErr::Memory) => return Err(Memory),
        }
    }
    Ok((records, false))
}

impl Session {
    /// Of a connection on which nothing came.
    pub fn new(alloc: Global) -> Self
        ensures { result ≡ new_session }
    {
        Session {
            alloc,
            records: Records::new(alloc),
            is_broken: false,
            out: Bytes::new(alloc),
        }
    }

    /// The records that a piece completes, up to one that is too long. After such a one there are none.
    pub fn read(&mut self, piece: &[u8]) -> Result<ByteLists, Memory>
        ensures { IfOk result (λ records. Reads piece.now records self.old self.new) }
    {
        if self.is_broken {
            return Ok(ByteLists::new(self.alloc));
        }
        match self.records.feed(piece) {
            Ok(records) => Ok(records),
            Err(RecordErr::TooLong) => {
                let (records, is_broken) = read_bytes(self.alloc, &mut self.records, piece)?;
                self.is_broken = is_broken;
                Ok(records)
            }
            Err(RecordErr::Memory) => Err(Memory),
        }
    }

    /// Whether a record was too long.
    pub fn is_broken(&self) -> bool
        ensures { IsTrue result ↔ (self.now.begun ≡ None) }
    {
        self.is_broken
    }

    /// One more message is to be put, as one record.
    pub fn owe(&mut self, message: &[u8]) -> Result<(), Memory>
        requires { length message.now ≤ MAX_RECORD }
        ensures { OnOk result (self.new ≡ record self.old { unsent = self.old.unsent ++ framed message.now }) }
    {
        let bytes = frame(self.alloc, message)?;
        self.out.extend_from_slice(bytes.as_slice())?;
        Ok(())
    }

    /// What is still to be put.
    pub fn unsent(&self) -> &[u8]
        ensures { result.now ≡ self.now.unsent }
    {
        self.out.as_slice()
    }

    /// So many bytes were put.
    pub fn went(&mut self, count: usize) -> Result<(), Memory>
        requires { count ≤ length self.old.unsent }
        ensures { OnOk result (self.new ≡ record self.old { unsent = drop count self.old.unsent }) }
    {
        let (_, rest) = self.out.as_slice().split_at(count);
        self.out = Bytes::copied(self.alloc, rest)?;
        Ok(())
    }
}
