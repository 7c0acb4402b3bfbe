// The entries that make what a server keeps of what it kept before.
ghost use Rattle.std.specs.Prelude.{◌≡◌, ◌≤◌, ◌==◌, ◌++◌, find, length, nat_lt, not, option_map, if◌then◌else◌, IfOk, OnOk};
ghost use Rattle.std.specs.Option.{option_copied};
ghost use Rattle.server_rules.specs.declared.limits.TheConstants.{GREATEST_GRANT, MAX_FILE_COMPONENTS};
ghost use Rattle.server_rules.specs.Slots.{slot_of};
ghost use Rattle.file_jobs.specs.Steps.{file_of};
ghost use Rattle.server_state.specs.States.{server_of};
ghost use Rattle.server_state.specs.Tables.{AreEntries, files_in};
ghost use Rattle.server_differences.specs.Differences.{differences, drive_entry, drives_entries, files_entries, has_same_answer, has_same_counters, is_same_drive, number_entries, slots_entries, was_in_zone, zone_entries};
ghost use Rattle.server_differences.specs.FileDifferences.{file_entries, only};

use crate::file_differences::{Before, add_changes, add_new_file};
use file_jobs::FileState;
use osd_lists::{Bytes, Memory};
use server_entries::{Counters, DriveEntry, Entries, Entry, SlotEntry};
use server_rules::{Drive, GREATEST_GRANT, Kept};
use server_state::{Files, KeptAnswer, State, slot_of};
use std::alloc::Global;

// ---- drives

// The drive of that number.
fn drive_of(drives: &[Drive], number: u32) -> Option<Drive>
    ensures { result ≡ find (λ d. d.number == number) drives.now }
{
    for drive in drives {
        if drive.number == number {
            return Some(*drive);
        }
    }
    None
}

// The drive is as it was, but for its zone.
fn is_same_drive(old: Option<Drive>, drive: &Drive) -> bool
    ensures { result ≡ is_same_drive old drive.now }
{
    match old {
        Some(old) => {
            old.key == drive.key && old.capacity == drive.capacity && old.online == drive.online
        }
        None => false,
    }
}

// The drive was in a zone.
fn was_in_zone(old: Option<Drive>) -> bool
    ensures { result ≡ was_in_zone old }
{
    match old {
        Some(old) => old.zone.is_some(),
        None => false,
    }
}

// The drive, if it isn't as it was.
fn add_state(entries: &mut Entries, is_same: bool, drive: &Drive) -> Result<(), Memory>
    ensures { OnOk result (entries.new ≡ entries.old ++ only (not is_same) (drive_entry drive.now)) }
{
    if !is_same {
        entries.push(Entry::Drive(DriveEntry {
            number: drive.number,
            key: drive.key,
            capacity: drive.capacity,
            online: drive.online,
        }))?;
    }
    Ok(())
}

// The drive's zone, if it wasn't in one.
fn add_zone(entries: &mut Entries, was_in_zone: bool, drive: &Drive) -> Result<(), Memory>
    ensures { OnOk result (entries.new ≡ entries.old ++ zone_entries was_in_zone drive.now.number drive.now.zone) }
{
    if was_in_zone {
        return Ok(());
    }
    match drive.zone {
        Some(zone) => {
            entries.push(Entry::Zone {
                drive: drive.number,
                zone,
            })?;
            Ok(())
        }
        None => Ok(()),
    }
}

// What changed of drives.
fn add_drives(entries: &mut Entries, old: &[Drive], drives: &[Drive]) -> Result<(), Memory>
    ensures { OnOk result (entries.new ≡ entries.old ++ drives_entries old.now drives.now) }
{
    for drive in drives {
        let was = drive_of(old, drive.number);
        add_state(entries, is_same_drive(was, drive), drive)?;
        add_zone(entries, was_in_zone(was), drive)?;
    }
    Ok(())
}

// ---- numbers

// The counters are as they were.
fn has_same_counters(mirror: &State, state: &State) -> bool
    ensures { result ≡ has_same_counters (server_of mirror.now) (server_of state.now) }
{
    mirror.next_grant == state.next_grant
        && mirror.next_object == state.next_object
        && mirror.next_nonce == state.next_nonce
        && mirror.next_recall == state.next_recall
}

// The number of the next grant in an entry: 0 where none is left.
fn told_grant(next: u64) -> u32
    ensures { result ≡ (if nat_lt GREATEST_GRANT next then 0 else next) }
{
    if next > u64::from(GREATEST_GRANT) {
        0
    } else {
        next as u32
    }
}

// The format and the counters, if they changed.
fn add_numbers(entries: &mut Entries, mirror: &State, state: &State) -> Result<(), Memory>
    ensures { OnOk result (entries.new ≡ entries.old ++ number_entries (server_of mirror.now) (server_of state.now)) }
{
    if mirror.format != state.format {
        let format = u32::from(state.format);
        entries.push(Entry::Format { format })?;
    }
    if !has_same_counters(mirror, state) {
        entries.push(Entry::Counters(Counters {
            next_grant: told_grant(state.next_grant),
            next_object: state.next_object,
            next_nonce: state.next_nonce,
            next_recall: state.next_recall,
        }))?;
    }
    Ok(())
}

// ---- files

// What changed of files, and the new ones.
fn add_files(alloc: Global, entries: &mut Entries, old: &Files, files: &Files) -> Result<(), Memory>
    requires old { AreEntries old.now.entries }
    requires files { AreEntries files.now.entries }
    ensures { OnOk result (entries.new ≡ entries.old ++ files_entries (files_in old.now.entries) (files_in files.now.entries)) }
{
    for (number, file) in files.iter() {
        add_file(alloc, entries, old.get(number), &file.kept)?;
    }
    Ok(())
}

// What changed of a file, or a new one.
fn add_file(
    alloc: Global,
    entries: &mut Entries,
    old: Option<&FileState>,
    kept: &Kept,
) -> Result<(), Memory>
    requires few { length kept.now.components ≤ MAX_FILE_COMPONENTS }
    ensures { OnOk result (entries.new ≡ entries.old ++ file_entries (option_map file_of (option_copied old.entry)) kept.now) }
{
    match old {
        Some(old) => add_changes(entries, &Before::of(&old.kept), kept)?,
        None => {
            add_new_file(alloc, entries, kept)?;
            add_changes(entries, &Before::new(kept), kept)?;
        }
    }
    Ok(())
}

// ---- slots

// The slot has the answer that it had.
fn has_same_answer(old: &[KeptAnswer], slot: &KeptAnswer) -> bool
    ensures { result ≡ has_same_answer (slot_of old.now slot.now.client) slot.now }
{
    match slot_of(old, slot.client()) {
        Some(old) => old.last() == slot.last(),
        None => false,
    }
}

// The slots that have another answer.
fn add_slots(
    alloc: Global,
    entries: &mut Entries,
    old: &[KeptAnswer],
    slots: &[KeptAnswer],
) -> Result<(), Memory>
    ensures { OnOk result (entries.new ≡ entries.old ++ slots_entries old.now slots.now) }
{
    for slot in slots {
        if !has_same_answer(old, slot) {
            entries.push(Entry::Slot(SlotEntry {
                client: slot.client(),
                sequence: slot.last(),
                answer: Bytes::copied(alloc, slot.as_bytes())?,
            }))?;
        }
    }
    Ok(())
}

// ---- all

/// The entries that make of the mirror, on which no job runs, what the server of a state keeps.
///
/// # Errors
///
/// [`Memory`], if the entries find none.
pub fn differences(alloc: Global, mirror: &State, state: &State) -> Result<Entries, Memory>
    requires mirror { AreEntries mirror.now.files.entries }
    requires state { AreEntries state.now.files.entries }
    ensures { IfOk result (λ entries. entries ≡ differences (server_of mirror.now) (server_of state.now)) }
{
    let mut entries = Entries::new(alloc);
    add_drives(
        &mut entries,
        mirror.drives.as_slice(),
        state.drives.as_slice(),
    )?;
    add_numbers(&mut entries, mirror, state)?;
    add_files(alloc, &mut entries, &mirror.files, &state.files)?;
    add_slots(
        alloc,
        &mut entries,
        mirror.slots.as_slice(),
        state.slots.as_slice(),
    )?;
    Ok(entries)
}
