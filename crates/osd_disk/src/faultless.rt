ghost use Rattle.std.specs.Prelude.{◌≡◌, [], length};

use crate::calls::write_over;
use crate::disk::{Disk, DiskErr};
use crate::mem_disk::{copy_from, size_of};
use crate::past::Past;
use osd_lists::Bytes;
use std::alloc::Global;
use std::marker::Model;

/// A disk in memory whose calls don't fail but for want of memory: the count of its faults stays 0.
/// It keeps its bytes alone: what was done to it is known to clauses, and costs nothing.
#[derive(Drop)]
pub struct FaultlessDisk {
    bytes: Bytes,
    past: Past,
}

impl Model for FaultlessDisk {
    ghost use Rattle.std.specs.Prelude.{◌≡◌, []};
    ghost use Rattle.osd_disk.specs.Calls.{all_done};
    ghost use Rattle.osd_disk.specs.Medium.{Medium};

    ghost Value = { Medium };

    ghost view = { λ d. record { first = d.past.first; calls = d.past.calls; fails = []; faults = 0 } };

    ghost invariant = { λ d. d.bytes ≡ all_done d.past.calls d.past.first };
}

impl FaultlessDisk {
    ghost use Rattle.osd_disk.specs.Medium.{bytes_of, fresh};

    /// A disk with no bytes.
    pub fn new(alloc: Global) -> Self
        ensures { result ≡ fresh [] }
    {
        FaultlessDisk::holding(Bytes::new(alloc))
    }

    /// The disk after a crash that left all that was written.
    pub fn crash(self) -> Self
        ensures { result ≡ fresh (bytes_of self) }
    {
        FaultlessDisk::holding(self.bytes)
    }

    // A disk with these bytes, to which nothing was done yet.
    fn holding(bytes: Bytes) -> Self
        ensures { result ≡ fresh bytes }
    {
        let past = Past::of_these(bytes.as_slice());
        FaultlessDisk { bytes, past }
    }
}

impl Disk for FaultlessDisk {
    ghost use Rattle.std.specs.Prelude.{true};
    ghost use Rattle.osd_disk.specs.Calls.{after_is_from, all_seen_stays, from_last_is_after};
    ghost use Rattle.osd_disk.specs.Medium.{bytes_of, may_hold, might_hold};
    ghost use Rattle.std.specs.Prelude.{refl};

    ghost tells = { λ _. true };

    ghost seen = { bytes_of };

    ghost may_leave = { may_hold };

    ghost moment = { λ m. length m.calls };

    ghost left_since = { might_hold };

    ghost faults = { λ _. 0 };

    ghost counts_now = { λ m t c le now. after_is_from t m.calls m.first (λ d. d ≡ m.first) c now };

    ghost only_now = { λ m c left. from_last_is_after m.calls m.first (λ d. d ≡ m.first) c left };

    ghost seen_may_stay = { λ m told. all_seen_stays m.calls m.first (λ d. d ≡ m.first) refl };

    fn open(&mut self, _name: &str) -> Result<(), DiskErr> {
        Ok(())
    }

    fn size(&mut self) -> Result<u64, DiskErr> {
        Ok(size_of(self.bytes.as_slice()))
    }

    fn read(&mut self, at: u64, buf: &mut [u8]) -> Result<usize, DiskErr> {
        Ok(copy_from(self.bytes.as_slice(), at, buf))
    }

    fn write_at(&mut self, at: u64, bytes: &[u8]) -> Result<(), DiskErr> {
        write_over(&mut self.bytes, at, bytes)?;
        self.past = self.past.with_write(at, bytes);
        Ok(())
    }

    fn sync(&mut self) -> Result<(), DiskErr> {
        self.past = self.past.with_sync();
        Ok(())
    }
}
