ghost use Rattle.std.specs.Prelude.{◌≡◌, ◌<◌, ◌≤◌, length, OnOk, OnErr};
ghost use Rattle.server_rules.specs.Making.{add_drive};
ghost use Rattle.zone_place.specs.declared.loads.TheConstants.{MAX_DRIVES};
ghost use Rattle.server_state.specs.Drives.{AreDrives};
ghost use Rattle.layout_server.specs.Adding.{IsNew, CanAdd, and_drives, drive_of, rank_in};

use osd_capability::DRIVE_KEY_BYTES;
use osd_lists::{Memory, Sequence};
use server_rules::Drive;
use server_state::Drives;
use std::alloc::Global;

/// A drive that the server is told of.
#[derive(Clone, Copy, PartialEq, Eq)]
pub struct DriveInfo {
    /// The number of the drive, below 64.
    pub number: u32,
    /// The key that capabilities on it are made with.
    pub key: [u8; DRIVE_KEY_BYTES],
    /// In bytes.
    pub capacity: u64,
}

/// Drives that the server is told of, of different numbers below 64.
pub type DriveTable = Sequence<DriveInfo>;

// A drive that wasn't declared.
fn drive_of(info: DriveInfo) -> Drive
    ensures { result ≡ drive_of info }
{
    let DriveInfo {
        number,
        key,
        capacity,
    } = info;
    Drive {
        number,
        key,
        capacity,
        online: true,
        zone: None,
    }
}

// The place of a new drive: before the first with a greater number.
#[tactic(auto, unfolding(crate::specs::Adding::rank_in))]
fn rank_of(drives: &[Drive], number: u32) -> usize
    ensures value { result ≡ rank_in drives.now number }
    ensures bound { result ≤ length drives.now }
{
    for i in 0..drives.len() {
        if drives[i].number >= number {
            return i;
        }
    }
    drives.len()
}

/// Adds a drive, in order of their numbers.
///
/// # Errors
///
/// Want of memory alone. Then the drives are as before.
pub fn add_drive(alloc: Global, drives: &mut Drives, info: DriveInfo) -> Result<(), Memory>
    requires drives { AreDrives drives.old }
    requires new { IsNew info.number drives.old }
    requires low { info.number < MAX_DRIVES }
    ensures added { OnOk result (drives.new ≡ add_drive drives.old (drive_of info)) }
    ensures drives { AreDrives drives.new }
    ensures err { OnErr result (drives.new ≡ drives.old) }
{
    let (before, behind) = drives
        .as_slice()
        .split_at(rank_of(drives.as_slice(), info.number));
    let mut all = Drives::copied(alloc, before)?;
    all.push(drive_of(info))?;
    all.extend_from_slice(behind)?;
    *drives = all;
    Ok(())
}

/// Adds drives, in order of their numbers.
pub fn add_drives(alloc: Global, drives: &mut Drives, infos: &[DriveInfo]) -> Result<(), Memory>
    requires drives { AreDrives drives.old }
    requires new { CanAdd drives.old infos.now }
    ensures added { OnOk result (drives.new ≡ and_drives drives.old infos.now) }
    ensures drives { AreDrives drives.new }
{
    for info in infos {
        add_drive(alloc, drives, *info)?;
    }
    Ok(())
}
