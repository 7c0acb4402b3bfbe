// What a crash leaves of a disk in memory.
ghost use Rattle.std.specs.Prelude.{◌≡◌, IfOk, OnOk};
ghost use Rattle.osd_disk.specs.Calls.{done, left_after};
ghost use Rattle.osd_disk.specs.Crashes.{Torn};
ghost use Rattle.osd_disk.specs.Images.{Leaves};

use crate::calls::{Call, write_over};
use osd_lists::{Bytes, Memory};
use std::alloc::Global;

// Writes one byte again and again from a place on, so many times.
fn fill_over(alloc: Global, bytes: &mut Bytes, at: u64, len: usize, fill: u8) -> Result<(), Memory>
    ensures { OnOk result (Torn at len bytes.old bytes.new) }
{
    let filled = vec![in alloc; fill; len]?;
    write_over(bytes, at, &filled)?;
    Ok(())
}

// Does a call once more: on the bytes as they were seen, and on those that a crash leaves, where it
// puts `fill` into each byte that the call wrote.
fn do_again(
    alloc: Global,
    call: &Call,
    fill: u8,
    seen: &mut Bytes,
    left: &mut Bytes,
) -> Result<(), Memory>
    ensures seen { OnOk result (seen.new ≡ done call.now seen.old) }
    ensures left { OnOk result (Leaves call.now seen.old left.old left.new) }
{
    match call {
        Call::Write { at, bytes } => {
            write_over(seen, *at, bytes.as_slice())?;
            fill_over(alloc, left, *at, bytes.len(), fill)
        }
        Call::Sync => {
            *left = Bytes::copied(alloc, seen.as_slice())?;
            Ok(())
        }
        Call::Idle => Ok(()),
    }
}

/// What a crash leaves after these calls, which began with these bytes, where it puts `fill` into each
/// byte that was written since the last sync.
pub fn image_after(alloc: Global, first: &[u8], calls: &[Call], fill: u8) -> Result<Bytes, Memory>
    ensures { IfOk result (λ left. left_after calls.now first.now (λ d. d ≡ first.now) left) }
{
    let mut left = Bytes::copied(alloc, first)?;
    let mut seen = Bytes::copied(alloc, first)?;
    let mut at = 0;
    while at < calls.len() {
        do_again(alloc, &calls[at], fill, &mut seen, &mut left)?;
        at += 1;
    }
    Ok(left)
}
