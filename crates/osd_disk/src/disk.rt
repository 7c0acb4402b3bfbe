// A disk as a log sees it: what a read gives, and what a crash may leave.
ghost use Rattle.std.specs.Prelude.{◌≡◌, ◌≤◌, ◌<◌, ◌+◌, ◌^◌, Bool, IsTrue, List, ℕ, length, OnOk, IfOk};
ghost use Rattle.osd_disk.specs.Crashes.{Elapses, Follows, Holds, Narrows, Only, Torn};
ghost use Rattle.osd_disk.specs.Errors.{Gives, HasDiskCause};

use osd_lists::Memory as WantOfMemory;
use thiserror::Error;

/// Why a call of a disk failed.
#[derive(Clone, Copy, Debug, PartialEq, Eq, Error)]
pub enum DiskErr {
    /// The disk failed. This comes only where its count of faults rose in the call.
    #[error("the disk failed")]
    Fault,
    /// Want of memory, and nothing else.
    #[error("out of memory")]
    Memory,
}

impl From<WantOfMemory> for DiskErr {
    ghost use Rattle.osd_disk.specs.declared.disk.DiskErr.TheVariants.{Memory};

    ghost from_gives = { λ _ e. e ≡ Memory };

    fn from(_: WantOfMemory) -> Self {
        DiskErr::Memory
    }
}

/// A disk: bytes from place 0 on, of which a crash leaves those that were synced.
///
/// Between two syncs that succeed a crash may leave any bytes in each range that was written, also
/// by a call that was refused, and anything past the old end; other bytes stay. After a sync that
/// succeeds a crash leaves what a read gives.
pub trait Disk {
    /// Whether the disk tells its bytes. This never changes. The clauses on bytes speak of such a
    /// disk alone.
    ghost tells: { Self → Bool };

    /// The bytes that a read gives, where the disk tells them.
    ghost seen: { Self → List ℕ };

    /// What a crash at this moment may leave.
    ghost may_leave: { Self → List ℕ → Type 0 };

    /// The moment, as a number that never falls.
    ghost moment: { Self → ℕ };

    /// What a crash at some moment from that one on might have left, during a call or between two.
    ghost left_since: { Self → ℕ → List ℕ → Type 0 };

    /// How many calls failed. The count never falls, and stays at its greatest number.
    ghost faults: { Self → ℕ };

    /// Takes the file of this name as the disk's bytes, where the disk is a file. In memory it does
    /// nothing.
    fn open(&mut self, name: &str) -> Result<(), DiskErr>
        ensures tells { tells self.new ≡ tells self.old }
        ensures seen { seen self.new ≡ seen self.old }
        ensures crash { Narrows (may_leave self.old) (may_leave self.new) }
        ensures time { Elapses (moment self.old) (moment self.new) (left_since self.old) (left_since self.new)
            (may_leave self.new) }
        ensures cause { HasDiskCause (faults self.old) (faults self.new) result };

    /// How many bytes there are, below 2^63.
    fn size(&mut self) -> Result<u64, DiskErr>
        ensures bytes { IfOk result (λ n. IsTrue (tells self.old) → n ≡ length (seen self.old)) }
        ensures bound { IfOk result (λ n. n < 2 ^ 63) }
        ensures tells { tells self.new ≡ tells self.old }
        ensures seen { seen self.new ≡ seen self.old }
        ensures crash { Narrows (may_leave self.old) (may_leave self.new) }
        ensures time { Elapses (moment self.old) (moment self.new) (left_since self.old) (left_since self.new)
            (may_leave self.new) }
        ensures cause { HasDiskCause (faults self.old) (faults self.new) result };

    /// Reads bytes from a place on into a buffer, and answers how many it read. No bytes for a buffer
    /// that isn't empty are the disk's end.
    fn read(&mut self, at: u64, buf: &mut [u8]) -> Result<usize, DiskErr>
        ensures bytes { IfOk result (λ n. IsTrue (tells self.old) → Gives (seen self.old) at buf.new n) }
        ensures bound { IfOk result (λ n. n ≤ length buf.old) }
        ensures tells { tells self.new ≡ tells self.old }
        ensures seen { seen self.new ≡ seen self.old }
        ensures crash { Narrows (may_leave self.old) (may_leave self.new) }
        ensures time { Elapses (moment self.old) (moment self.new) (left_since self.old) (left_since self.new)
            (may_leave self.new) }
        ensures cause { HasDiskCause (faults self.old) (faults self.new) result };

    /// Writes over what is there, and past the end. Until the next sync a crash may leave any bytes in
    /// the range. A write that fails may have written some of its bytes. None whose end would lie
    /// above 2^63 - 1 is answered `Ok`.
    fn write_at(&mut self, at: u64, bytes: &[u8]) -> Result<(), DiskErr>
        ensures bytes { OnOk result
            (IsTrue (tells self.old) → at ≤ length (seen self.old) → Holds (seen self.old) at bytes.now (seen self.new)) }
        ensures part { IsTrue (tells self.old) → Torn at (length bytes.now) (seen self.old) (seen self.new) }
        ensures bound { OnOk result (at + length bytes.now < 2 ^ 63) }
        ensures tells { tells self.new ≡ tells self.old }
        ensures crash { Follows (Torn at (length bytes.now)) (may_leave self.old) (may_leave self.new) }
        ensures time { Elapses (moment self.old) (moment self.new) (left_since self.old) (left_since self.new)
            (may_leave self.new) }
        ensures cause { HasDiskCause (faults self.old) (faults self.new) result };

    /// Makes all that was written last: after it a crash leaves what a read gives.
    fn sync(&mut self) -> Result<(), DiskErr>
        ensures durable { OnOk result (IsTrue (tells self.old) → Only (seen self.old) (may_leave self.new)) }
        ensures tells { tells self.new ≡ tells self.old }
        ensures seen { seen self.new ≡ seen self.old }
        ensures crash { Narrows (may_leave self.old) (may_leave self.new) }
        ensures time { Elapses (moment self.old) (moment self.new) (left_since self.old) (left_since self.new)
            (may_leave self.new) }
        ensures cause { HasDiskCause (faults self.old) (faults self.new) result };

    /// This moment is one of those since an earlier one.
    ghost counts_now: { (disk : Self) (t : ℕ) (c : List ℕ) → t ≤ moment disk → may_leave disk c → left_since disk t c };

    /// Since this moment there is no other.
    ghost only_now: { (disk : Self) (c : List ℕ) → left_since disk (moment disk) c → may_leave disk c };

    /// What a read gives is one of the contents that a crash may leave.
    ghost seen_may_stay: { (disk : Self) → IsTrue (tells disk) → may_leave disk (seen disk) };
}
