ghost use Rattle.std.specs.Prelude.{◌≡◌, ◌<◌, ◌≤◌, ◌+◌, ◌^◌, IsTrue, drop, length, take, IfOk};
ghost use Rattle.osd_disk.specs.Crashes.{OnlyRead};
ghost use Rattle.osd_disk.specs.Errors.{HasDiskCause};

use crate::disk::{Disk, DiskErr};

/// Reads from a place on until a buffer is full or the disk ends, and answers how many bytes it read.
///
/// # Errors
///
/// Those of the disk.
pub fn read_whole<D: Disk>(disk: &mut D, at: u64, buf: &mut [u8]) -> Result<usize, DiskErr>
    requires { at + length buf.old < 2 ^ 64 }
    ensures bytes { IfOk result (λ n. IsTrue (D.tells disk.old) → take n buf.new ≡ take n (drop at (D.seen disk.old))) }
    ensures bound { IfOk result (λ n. n ≤ length buf.old) }
    ensures ends { IfOk result (λ n. IsTrue (D.tells disk.old) → n < length buf.old → length (D.seen disk.old) ≤ at + n) }
    ensures disk { OnlyRead D.tells D.seen D.may_leave D.moment D.left_since disk.old disk.new }
    ensures cause { HasDiskCause (D.faults disk.old) (D.faults disk.new) result }
{
    let mut done = 0;
    while done < buf.len() {
        let n = disk.read(at + done as u64, &mut buf[done..])?;
        if n == 0 {
            return Ok(done);
        }
        done += n;
    }
    Ok(done)
}
