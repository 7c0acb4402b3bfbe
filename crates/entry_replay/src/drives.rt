// Drives, and the zones that they are put into.
ghost use Rattle.std.specs.Prelude.{◌≡◌, ◌≤◌, ◌++◌, length, IfOk, OnErr, OnOk};
ghost use Rattle.server_state.specs.States.{server_of, IsReady};
ghost use Rattle.server_entries.specs.Applying.{applied};
ghost use Rattle.server_entries.specs.Changes.{is_in_zone, is_known};
ghost use Rattle.server_entries.specs.Making.{drive_place, in_place_of, new_drive, put_drive};
ghost use Rattle.server_entries.specs.declared.entry.Entry.TheVariants as entry;
ghost use Rattle.entry_replay.specs.Replaying.{Becomes, put_before};

use layout_server::set_zone;
use osd_lists::Memory;
use server_entries::{Applied, DriveEntry};
use server_rules::Drive;
use server_state::{Drives, State};
use std::alloc::Global;
use zone_place::MAX_DRIVES;

/// There is a drive of that number.
pub(crate) fn is_known(number: u32, drives: &[Drive]) -> bool
    ensures { result ≡ is_known number drives.now }
{
    for drive in drives {
        if drive.number == number {
            return true;
        }
    }
    false
}

/// The drive of that number is in a zone.
pub(crate) fn is_in_zone(number: u32, drives: &[Drive]) -> bool
    ensures { result ≡ is_in_zone number drives.now }
{
    drives
        .iter()
        .any(|drive| drive.number == number && drive.zone.is_some())
}

// ---- a drive is new, or comes in the place of its former

// The place of the first drive whose number isn't less, behind all where there is none.
#[tactic(auto, unfolding(server_entries::specs::Making::drive_place))]
fn place_of(drives: &[Drive], number: u32) -> usize
    ensures value { result ≡ drive_place drives.now number }
    ensures bound { result ≤ length drives.now }
{
    for i in 0..drives.len() {
        if drives[i].number >= number {
            return i;
        }
    }
    drives.len()
}

// A drive that is in no zone.
fn new_drive(entry: &DriveEntry) -> Drive
    ensures { result ≡ new_drive entry.now }
{
    Drive {
        number: entry.number,
        key: entry.key,
        capacity: entry.capacity,
        online: entry.online,
        zone: None,
    }
}

// The drive in the place of another, whose zone it keeps.
fn in_place_of(old: &Drive, entry: &DriveEntry) -> Drive
    ensures { result ≡ in_place_of old.now entry.now }
{
    Drive {
        zone: old.zone,
        ..new_drive(entry)
    }
}

// Adds drives of numbers that aren't less, and the drive before them or in the place of its former.
fn add_from(all: &mut Drives, behind: &[Drive], entry: &DriveEntry) -> Result<(), Memory>
    ensures { OnOk result (all.new ≡ all.old ++ put_before behind.now entry.now) }
{
    match behind {
        [old, rest @ ..] if old.number == entry.number => {
            all.push(in_place_of(old, entry))?;
            all.extend_from_slice(rest)
        }
        _ => {
            all.push(new_drive(entry))?;
            all.extend_from_slice(behind)
        }
    }
}

// The drive in the place of its former, or in the order of their numbers.
fn put_drive(alloc: Global, drives: &mut Drives, entry: &DriveEntry) -> Result<(), Memory>
    ensures put { OnOk result (drives.new ≡ put_drive drives.old entry.now) }
    ensures stays { OnErr result (drives.new ≡ drives.old) }
{
    let place = place_of(drives.as_slice(), entry.number);
    let (before, behind) = drives.as_slice().split_at(place);
    let mut all = Drives::copied(alloc, before)?;
    add_from(&mut all, behind, entry)?;
    *drives = all;
    Ok(())
}

#[tactic(auto, unfolding(server_entries::specs::Applying::applied))]
pub(crate) fn apply_drive(
    alloc: Global,
    state: &mut State,
    drive: &DriveEntry,
) -> Result<Applied, Memory>
    requires ready { IsReady state.old }
    ensures applied { IfOk result (Becomes state.old state.new (applied (server_of state.old) (entry.Drive drive.now))) }
    ensures ready { IsReady state.new }
{
    if drive.number as usize >= MAX_DRIVES {
        return Ok(Applied::Unmade);
    }
    put_drive(alloc, &mut state.drives, drive)?;
    Ok(Applied::Done)
}

// ---- a drive is put into a zone

#[tactic(auto, unfolding(server_entries::specs::Applying::applied))]
pub(crate) fn apply_zone(state: &mut State, drive: u32, zone: u32) -> Applied
    requires ready { IsReady state.old }
    ensures applied { Becomes state.old state.new (applied (server_of state.old) (entry.Zone drive zone)) result }
    ensures ready { IsReady state.new }
{
    if !is_known(drive, state.drives.as_slice()) {
        return Applied::Unmade;
    }
    match set_zone(&mut state.drives, drive, zone) {
        Ok(()) => Applied::Done,
        Err(_) => Applied::Unmade,
    }
}
