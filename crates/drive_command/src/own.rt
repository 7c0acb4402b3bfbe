// The drive's own part of a cluster.
ghost use Rattle.std.specs.Prelude.{◌≡◌, nat_eq, IfOk};
ghost use Rattle.std.specs.List.{find};
ghost use Rattle.std.specs.Option.{option_map};
ghost use Rattle.osd_drive.specs.State.{new_drive};
ghost use Rattle.drive_command.specs.Own.{keys_of};

use cluster_text::ClusterDrive;
use osd_drive::{DriveCore, DriveKey, KeyTable};
use osd_lists::Memory;
use std::alloc::Global;

/// The version of the key that a cluster text gives a drive.
pub const KEY_VERSION: u16 = 1;

/// The drive of this number, `None` if there is none.
pub fn own_drive(drives: &[ClusterDrive], number: u32) -> Option<&ClusterDrive>
    ensures { option_map (λ d. d.now) result ≡ find (λ d. nat_eq d.number number) drives.now }
{
    drives.iter().find(|drive| drive.number == number)
}

// The table of this one key.
pub(crate) fn keys_with(alloc: Global, key: [u8; 20]) -> Result<KeyTable, Memory>
    ensures { IfOk result (λ keys. keys ≡ keys_of key) }
{
    let mut keys = KeyTable::new(alloc);
    keys.push(DriveKey {
        version: KEY_VERSION,
        key,
    })?;
    Ok(keys)
}

/// A drive without objects that has this one key, under [`KEY_VERSION`], and room for so many bytes.
pub fn new_core(
    alloc: Global,
    number: u32,
    key: [u8; 20],
    capacity: u64,
) -> Result<DriveCore, Memory>
    ensures { IfOk result (λ core. core ≡ new_drive number (keys_of key) capacity) }
{
    let keys = keys_with(alloc, key)?;
    Ok(DriveCore::new(alloc, number, keys, capacity))
}
