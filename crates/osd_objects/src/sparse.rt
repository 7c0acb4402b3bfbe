ghost use Rattle.std.specs.Prelude.{◌≡◌, ◌+◌, ◌<◌, ◌^◌, length, take, drop, IfOk, OnOk, OnErr};
ghost use Rattle.osd_objects.specs.Sparse.{no_bytes, written};

use crate::pages::{PAGE_BYTES, bytes_between, fill, put_over};
use osd_lists::{Bytes, Memory};
use std::alloc::Global;
use std::collections::BTreeMap;
use std::marker::Model;

/// Bytes with holes, which take no memory.
#[derive(Drop)]
pub struct SparseBytes {
    pages: BTreeMap<u64, Bytes>,
    length: u64,
}

impl Model for SparseBytes {
    ghost use Rattle.std.specs.Map.{keys_of};
    ghost use Rattle.osd_objects.specs.Pages.{span, IsKept};
    ghost use Rattle.osd_objects.specs.Sparse.{Sparse};

    ghost Value = { Sparse };

    ghost view = { λ s. record { bytes = span s.pages.entries 0 s.length; touched = keys_of s.pages.entries } };

    ghost invariant = { λ s. IsKept s.pages.entries s.length };
}

impl SparseBytes {
    /// No bytes.
    pub fn new(alloc: Global) -> Self
        ensures { result ≡ no_bytes }
    {
        SparseBytes {
            pages: BTreeMap::new(alloc),
            length: 0,
        }
    }

    /// How many bytes there are, holes included.
    pub fn len(&self) -> u64
        ensures { result ≡ length self.now.bytes }
    {
        self.length
    }

    /// How many pages were touched, each of them once.
    pub fn pages(&self) -> u64
        ensures { result ≡ length self.now.touched }
    {
        self.pages.len() as u64
    }

    /// The bytes of a range that lie below the length.
    pub fn read(&self, alloc: Global, offset: u64, length: u64) -> Result<Bytes, Memory>
        ensures { IfOk result (λ bytes. bytes ≡ take length (drop offset self.now.bytes)) }
    {
        let end = offset.saturating_add(length).min(self.length);
        bytes_between(alloc, &self.pages, offset, end)
    }

    /// Writes bytes over the old ones from an offset on, and past their end. Where there is no memory
    /// for all new pages, nothing changes.
    pub fn write(&mut self, alloc: Global, offset: u64, bytes: &[u8]) -> Result<(), Memory>
        requires { offset + length bytes.now < 2 ^ 63 }
        ensures ok { OnOk result (self.new ≡ written self.old offset bytes.now) }
        ensures err { OnErr result (self.new ≡ self.old) }
    {
        if bytes.is_empty() {
            return Ok(());
        }
        let end = offset + bytes.len() as u64;
        fill(
            &mut self.pages,
            alloc,
            offset / PAGE_BYTES,
            (end - 1) / PAGE_BYTES + 1,
        )?;
        put_over(&mut self.pages, offset, bytes);
        self.length = self.length.max(end);
        Ok(())
    }
}
