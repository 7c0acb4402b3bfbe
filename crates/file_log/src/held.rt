ghost use Rattle.std.specs.Prelude.{◌↔◌, IsTrue, IfOk, OnOk};
ghost use Rattle.file_log.specs.Judge.{new_file, Finds, Fits, after_entry};
ghost use Rattle.file_log.specs.Held.{held_by, AreSame};

use crate::entry::Entry;
use crate::sizes::{has_size, next_sizes};
use crate::values::{has_bytes, next_values};
use osd_lists::{Bytes, Memory};
use std::alloc::Global;
use std::collections::BTreeMap;
use std::marker::Model;

/// What a file may hold after the entries of its log so far.
#[derive(Drop)]
pub struct Held {
    // The values at each position that an entry touched. Elsewhere stands the zero of a new file.
    values: BTreeMap<u128, Bytes>,
    // The sizes that the file may have. An entry adds one at most.
    sizes: Vec<u128>,
}

impl Model for Held {
    ghost use Rattle.file_log.specs.Held.{Kept};

    ghost Value = { Kept };

    ghost view = { λ h. record { values = h.values.entries; sizes = h.sizes.items } };
}

// Whether the answer of a read finds what it needs among values and sizes.
fn finds(
    values: &BTreeMap<u128, Bytes>,
    sizes: &[u128],
    offset: u64,
    length: u64,
    answer: &[u8],
) -> bool
    ensures { IsTrue result ↔ Finds (held_by record { values = values.now.entries; sizes = sizes.now }) offset length
        answer.now }
{
    has_size(sizes, offset, length, answer.len()) && has_bytes(values, offset, answer)
}

impl Held {
    /// What a new file holds.
    pub fn new_file(alloc: Global) -> Result<Self, Memory>
        ensures { IfOk result (λ held. AreSame (held_by held) new_file) }
    {
        Ok(Held {
            values: BTreeMap::new(alloc),
            sizes: Vec::from_slice(alloc, &[0])?,
        })
    }

    /// Whether an entry fits what the file may hold.
    pub fn fits(&self, entry: &Entry) -> bool
        ensures { IsTrue result ↔ Fits (held_by self.now) entry.now }
    {
        match entry {
            Entry::Read {
                offset,
                length,
                answer: Some(bytes),
            } => finds(
                &self.values,
                self.sizes.as_slice(),
                *offset,
                *length,
                bytes.as_slice(),
            ),
            Entry::Read { answer: None, .. } | Entry::Write { .. } => true,
        }
    }

    /// Goes on to what the file may hold after an entry.
    pub fn take(&mut self, alloc: Global, entry: &Entry) -> Result<(), Memory>
        ensures { OnOk result (AreSame (held_by self.new) (after_entry (held_by self.old) entry.now)) }
    {
        next_sizes(alloc, &mut self.sizes, entry)?;
        next_values(alloc, &mut self.values, entry)
    }
}
