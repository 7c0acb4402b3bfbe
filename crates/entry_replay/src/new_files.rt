// New files.
ghost use Rattle.std.specs.Prelude.{◌≡◌, ◌≤◌, ◌<◌, ◌+◌, ◌^◌, ◌&&◌, length, map, nat_le, nat_lt, true, false, IfOk, IfSome, IfNone, IsTrue, OnErr, OnOk};
ghost use Rattle.std.specs.Ordering.{nat_cmp};
ghost use Rattle.std.specs.BTreeMap.{insert_entry};
ghost use Rattle.osd_capability.specs.Layout.{is_format};
ghost use Rattle.file_jobs.specs.Steps.{file_of};
ghost use Rattle.server_rules.specs.declared.limits.TheConstants.{FIRST_OBJECT, MAX_FILE_COMPONENTS};
ghost use Rattle.server_state.specs.States.{server_of, IsReady};
ghost use Rattle.server_state.specs.Tables.{files_in};
ghost use Rattle.server_entries.specs.Applying.{applied};
ghost use Rattle.server_entries.specs.Changes.{is_free_object, is_known};
ghost use Rattle.server_entries.specs.Making.{are_placed, can_place, component_of, is_usable, new_file};
ghost use Rattle.server_entries.specs.declared.applied.TheConstants.{MAX_FILES};
ghost use Rattle.server_entries.specs.declared.entry.Entry.TheVariants as entry;
ghost use Rattle.entry_replay.specs.Replaying.{Becomes};

use crate::drives::is_known;
use crate::in_use::is_free_object;
use crate::numbers::{format_of, is_format};
use data_map::{DataMap, RAID_0, RAID_PQ, RawMap};
use file_jobs::FileState;
use layout_server::{checked_64, has_file};
use osd_lists::Memory;
use server_entries::{Applied, FileEntry, MAX_FILES, Placed};
use server_rules::{Component, Components, FIRST_OBJECT, Grants, Kept, Phase};
use server_state::{Files, State};
use std::alloc::Global;

// ---- whether the file may be made

// The checked map, with at most 64 components.
fn usable(raw: RawMap) -> Option<DataMap>
    ensures some { IfSome result (λ map. (is_usable raw ≡ true) × (map ≡ raw) × (map.comps ≤ MAX_FILE_COMPONENTS)) }
    ensures none { IfNone result (is_usable raw ≡ false) }
{
    if raw.algorithm < RAID_0 || raw.algorithm > RAID_PQ {
        return None;
    }
    match checked_64(raw) {
        Ok(map) => Some(map),
        Err(_) => None,
    }
}

// The component stands on a drive that there is, as a free object of that number or a greater one.
fn is_placed(state: &State, least: u64, place: Placed) -> bool
    ensures placed { result ≡ (nat_le least place.object && (is_known place.drive state.now.drives
        && is_free_object (server_of state.now) place.object)) }
    ensures not_last { IsTrue result → place.object + 1 < 2 ^ 64 }
{
    least <= place.object
        && is_known(place.drive, state.drives.as_slice())
        && is_free_object(state, place.object)
}

// The components stand on drives that there are, as free objects whose numbers rise.
#[tactic(auto, unfolding(server_entries::specs::Making::are_placed))]
fn are_placed(state: &State, places: &[Placed]) -> bool
    ensures { result ≡ are_placed (server_of state.now) FIRST_OBJECT places.now }
{
    let mut least = FIRST_OBJECT;
    for place in places {
        if !is_placed(state, least, *place) {
            return false;
        }
        least = place.object + 1;
    }
    true
}

// A further file is within the limit.
fn has_room(files: &Files) -> bool
    ensures { result ≡ nat_lt (length (files_in files.now.entries)) MAX_FILES }
{
    files.len() < MAX_FILES
}

// What a new file asks besides its map.
fn can_place(state: &State, file: &FileEntry) -> bool
    requires { IsReady state.now }
    ensures { result ≡ can_place (server_of state.now) file.now }
{
    !has_file(&state.files, file.file)
        && has_room(&state.files)
        && file.components.len() == file.map.comps as usize
        && is_format(file.format)
        && are_placed(state, file.components.as_slice())
}

// ---- the file is made

// The components of a new file.
fn components_of(alloc: Global, places: &[Placed]) -> Result<Components, Memory>
    ensures { IfOk result (λ components. components ≡ map component_of places.now) }
{
    let mut components = Components::new(alloc);
    for place in places {
        components.push(Component {
            drive: place.drive,
            object: place.object,
            missing: false,
        })?;
    }
    Ok(components)
}

// The file, before anything was done to it.
fn new_file(alloc: Global, file: &FileEntry, map: DataMap) -> Result<FileState, Memory>
    requires map { map ≡ file.now.map }
    requires format { is_format file.now.format ≡ true }
    ensures { IfOk result (λ made. file_of made ≡ new_file file.now) }
{
    let components = components_of(alloc, file.components.as_slice())?;
    let kept = Kept {
        number: file.file,
        map,
        zoned: false,
        first_tag: file.tag,
        tag: file.tag,
        format: format_of(file.format),
        size: 0,
        high: 0,
        ready: false,
        phase: Phase::Still,
        components,
        grants: Grants::new(alloc),
        ended: Grants::new(alloc),
    };
    Ok(FileState {
        kept,
        spent: false,
        job: None,
    })
}

// A further file.
fn add_file(files: &mut Files, number: u32, file: FileState) -> Result<(), Memory>
    ensures added { OnOk result (files.new.entries ≡ insert_entry nat_cmp files.old.entries number file) }
    ensures stays { OnErr result (files.new.entries ≡ files.old.entries) }
{
    files.insert(number, file)?;
    Ok(())
}

pub(crate) fn apply_file(
    alloc: Global,
    state: &mut State,
    file: &FileEntry,
) -> Result<Applied, Memory>
    requires ready { IsReady state.old }
    ensures applied { IfOk result (Becomes state.old state.new (applied (server_of state.old) (entry.File file.now))) }
    ensures ready { IsReady state.new }
{
    let map = match usable(file.map) {
        Some(map) => map,
        None => return Ok(Applied::Unmade),
    };
    if !can_place(state, file) {
        return Ok(Applied::Unmade);
    }
    let made = new_file(alloc, file, map)?;
    add_file(&mut state.files, file.file, made)?;
    Ok(Applied::Done)
}
