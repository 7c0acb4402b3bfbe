ghost use Rattle.std.specs.Prelude.{◌≡◌, ◌⊎◌, ◌<◌, ◌≤◌, ◌+◌, ◌^◌, ◌↔◌, ◌∷◌, [], ◌++◌, List, ℕ, length, take, drop, min, Contains, IsTrue, Some, OnOk, OnErr, IfOk};
ghost use Rattle.osd_disk.specs.Medium.{first_or};
ghost use Rattle.osd_disk.specs.Crashes.{Elapses, Narrows};
ghost use Rattle.osd_disk.specs.Errors.{Gives, HasDiskCause};

use crate::calls::{Call, write_over};
use crate::disk::{Disk, DiskErr};
use crate::images::image_after;
use osd_lists::{Bytes, Memory, Numbers, Sequence};
use std::alloc::Global;
use std::marker::Model;

/// A disk in memory. It keeps a record of its calls, which are numbered from 0, and the calls with
/// given numbers fail and change nothing.
#[derive(Drop)]
pub struct MemDisk {
    alloc: Global,
    first: Option<Bytes>,
    bytes: Bytes,
    calls: Sequence<Call>,
    fails: Numbers,
    faults: u64,
}

impl Model for MemDisk {
    ghost use Rattle.std.specs.Prelude.{◌≡◌};
    ghost use Rattle.osd_disk.specs.Calls.{all_done};
    ghost use Rattle.osd_disk.specs.Medium.{Medium, first_or};

    ghost Value = { Medium };

    ghost view = { λ d. record { first = first_or d.bytes d.first; calls = d.calls; fails = d.fails; faults = d.faults } };

    ghost invariant = { λ d. d.bytes ≡ all_done d.calls (first_or d.bytes d.first) };
}

impl MemDisk {
    ghost use Rattle.osd_disk.specs.Medium.{Did, Failed, bytes_of, may_hold, might_hold};
    ghost use Rattle.osd_disk.specs.declared.calls.Call.TheVariants.{Idle, Sync, Write};

    /// A disk with no bytes.
    pub fn new(alloc: Global, fails: Numbers) -> Self
        ensures { result ≡ record { first = []; calls = []; fails = fails; faults = 0 } }
    {
        MemDisk::holding(alloc, Bytes::new(alloc), fails)
    }

    /// A disk with these bytes, which a crash leaves.
    pub fn holding(alloc: Global, bytes: Bytes, fails: Numbers) -> Self
        ensures { result ≡ record { first = bytes; calls = []; fails = fails; faults = 0 } }
    {
        MemDisk {
            alloc,
            first: None,
            bytes,
            calls: Sequence::new(alloc),
            fails,
            faults: 0,
        }
    }

    /// The bytes that are there now.
    pub fn bytes(&self) -> &[u8]
        ensures { result.now ≡ bytes_of self.now }
    {
        self.bytes.as_slice()
    }

    /// How many calls there were.
    pub fn calls(&self) -> usize
        ensures { result ≡ length self.now.calls }
    {
        self.calls.len()
    }

    /// The disk after a crash that left all that was written. No call of it fails.
    pub fn crash(self) -> Self
        ensures { result ≡ record { first = bytes_of self; calls = []; fails = []; faults = 0 } }
    {
        MemDisk::holding(self.alloc, self.bytes, Numbers::new(self.alloc))
    }

    /// The disk after a crash that left `fill` in each byte that was written since the last sync. No
    /// call of it fails.
    pub fn crash_filled(self, fill: u8) -> Result<Self, Memory>
        ensures { IfOk result (λ left. may_hold self (bytes_of left)) }
    {
        let first = self.first_bytes();
        let left = image_after(self.alloc, first, self.calls.as_slice(), fill)?;
        Ok(MemDisk::holding(self.alloc, left, Numbers::new(self.alloc)))
    }

    // The bytes before the first call.
    fn first_bytes(&self) -> &[u8]
        ensures { result.now ≡ self.now.first }
    {
        match &self.first {
            Some(first) => first.as_slice(),
            None => self.bytes.as_slice(),
        }
    }

    // Notes a call that writes nothing.
    fn note(&mut self, call: Call) -> Result<(), DiskErr>
        requires { (call ≡ Idle) ⊎ (call ≡ Sync) }
        ensures ok { OnOk result (Did call self.old self.new) }
        ensures err { OnErr result (Failed self.old self.new) }
        ensures cause { HasDiskCause self.old.faults self.new.faults result }
    {
        if is_listed(self.fails.as_slice(), self.calls.len()) {
            return self.fail();
        }
        self.calls.push(call)?;
        Ok(())
    }

    // Notes a call that changes nothing.
    fn note_idle(&mut self) -> Result<(), DiskErr>
        ensures seen { bytes_of self.new ≡ bytes_of self.old }
        ensures crash { Narrows (may_hold self.old) (may_hold self.new) }
        ensures time { Elapses (length self.old.calls) (length self.new.calls) (might_hold self.old) (might_hold self.new)
            (may_hold self.new) }
        ensures cause { HasDiskCause self.old.faults self.new.faults result }
    {
        self.note(Call::Idle)
    }

    // Notes a call that fails.
    fn fail(&mut self) -> Result<(), DiskErr>
        ensures ok { OnOk result ⊥ }
        ensures err { OnErr result (Failed self.old self.new) }
        ensures cause { HasDiskCause self.old.faults self.new.faults result }
    {
        self.calls.push(Call::Idle)?;
        self.faults = self.faults.saturating_add(1);
        Err(DiskErr::Fault)
    }

    // A call that writes bytes from a place on.
    fn write(&mut self, at: u64, bytes: &[u8]) -> Result<(), DiskErr>
        ensures ok { OnOk result (Did (Write at bytes.now) self.old self.new) }
        ensures err { OnErr result (Failed self.old self.new) }
        ensures bound { OnOk result (at + length bytes.now < 2 ^ 63) }
        ensures cause { HasDiskCause self.old.faults self.new.faults result }
    {
        if is_listed(self.fails.as_slice(), self.calls.len()) {
            return self.fail();
        }
        keep_first(self.alloc, &mut self.first, &self.bytes)?;
        let place = self.calls.len();
        let copy = Bytes::copied(self.alloc, bytes)?;
        self.calls.push(Call::Write { at, bytes: copy })?;
        match write_over(&mut self.bytes, at, bytes) {
            Ok(()) => Ok(()),
            Err(Memory) => {
                self.calls.truncate(place);
                Err(DiskErr::Memory)
            }
        }
    }
}

impl Disk for MemDisk {
    ghost use Rattle.std.specs.Prelude.{true};
    ghost use Rattle.osd_disk.specs.Calls.{after_is_from, all_seen_stays, from_last_is_after};
    ghost use Rattle.osd_disk.specs.Medium.{bytes_of, may_hold, might_hold};
    ghost use Rattle.std.specs.Prelude.{refl};

    ghost tells = { λ _. true };

    ghost seen = { bytes_of };

    ghost may_leave = { may_hold };

    ghost moment = { λ m. length m.calls };

    ghost left_since = { might_hold };

    ghost faults = { λ m. m.faults };

    ghost counts_now = { λ m t c le now. after_is_from t m.calls m.first (λ d. d ≡ m.first) c now };

    ghost only_now = { λ m c left. from_last_is_after m.calls m.first (λ d. d ≡ m.first) c left };

    ghost seen_may_stay = { λ m told. all_seen_stays m.calls m.first (λ d. d ≡ m.first) refl };

    fn open(&mut self, _name: &str) -> Result<(), DiskErr> {
        self.note_idle()
    }

    fn size(&mut self) -> Result<u64, DiskErr> {
        self.note_idle()?;
        Ok(size_of(self.bytes.as_slice()))
    }

    fn read(&mut self, at: u64, buf: &mut [u8]) -> Result<usize, DiskErr> {
        self.note_idle()?;
        Ok(copy_from(self.bytes.as_slice(), at, buf))
    }

    fn write_at(&mut self, at: u64, bytes: &[u8]) -> Result<(), DiskErr> {
        self.write(at, bytes)
    }

    fn sync(&mut self) -> Result<(), DiskErr> {
        self.note(Call::Sync)
    }
}

// Keeps the first bytes, before others are written over them.
fn keep_first(alloc: Global, first: &mut Option<Bytes>, bytes: &Bytes) -> Result<(), Memory>
    ensures kept { OnOk result (first.new ≡ Some (first_or bytes.now first.old)) }
    ensures same { first_or bytes.now first.new ≡ first_or bytes.now first.old }
{
    match first {
        Some(_) => Ok(()),
        None => {
            *first = Some(Bytes::copied(alloc, bytes.as_slice())?);
            Ok(())
        }
    }
}

// Whether a number is in a list.
fn is_listed(fails: &[u32], call: usize) -> bool
    ensures { IsTrue result ↔ Contains fails.now call }
{
    fails.iter().any(|n| u64::from(*n) == call as u64)
}

// How many bytes there are.
pub(crate) fn size_of(bytes: &[u8]) -> u64
    ensures size { result ≡ length bytes.now }
    ensures bound { result < 2 ^ 63 }
{
    bytes.len() as u64
}

// Copies as many bytes from a place on as there are and as the buffer has room for.
pub(crate) fn copy_from(bytes: &[u8], at: u64, buf: &mut [u8]) -> usize
    ensures bytes { Gives bytes.now at buf.new result }
    ensures bound { result ≤ length buf.old }
{
    if at >= bytes.len() as u64 {
        return 0;
    }
    let (_, rest) = bytes.split_at(at as usize);
    let n = rest.len().min(buf.len());
    buf[..n].copy_from_slice(&rest[..n]);
    n
}
