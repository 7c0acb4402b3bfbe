ghost use Rattle.std.specs.Prelude.{◌≡◌, ◌<◌, ◌+◌, ◌^◌, length, OnOk, OnErr};
ghost use Rattle.osd_lists.specs.Overwrite.{overwritten};

use osd_lists::{Bytes, Memory};

/// A call of a disk in memory, as it was done.
#[derive(Drop)]
pub enum Call {
    /// These bytes were written from a place on.
    Write { at: u64, bytes: Bytes },
    /// All that was written before was made to last.
    Sync,
    /// The call changed nothing: a read, or a call that failed.
    Idle,
}

// No disk has bytes from this place on.
const MAX_SIZE: u64 = 1 << 63;

/// Writes bytes over those of a list from a place on. There is no memory for an end of 2^63 or more.
pub fn write_over(bytes: &mut Bytes, at: u64, new: &[u8]) -> Result<(), Memory>
    ensures ok { OnOk result (bytes.new ≡ overwritten bytes.old at new.now) }
    ensures bound { OnOk result (at + length new.now < 2 ^ 63) }
    ensures err { OnErr result (bytes.new ≡ bytes.old) }
{
    if at >= MAX_SIZE || new.len() as u64 >= MAX_SIZE - at {
        return Err(Memory);
    }
    bytes.overwrite(at as usize, new)
}
