// The entries of one file.
ghost use Rattle.std.specs.Prelude.{◌≡◌, ◌≤◌, ◌∷◌, [], ◌++◌, length, map, IfOk, OnOk};
ghost use Rattle.server_rules.specs.declared.limits.TheConstants.{MAX_FILE_COMPONENTS};
ghost use Rattle.server_rules.specs.Openings.{is_still};
ghost use Rattle.server_entries.specs.Changes.{has_number, is_fencing, is_repairing};
ghost use Rattle.server_entries.specs.declared.entry.Entry.TheVariants as entry;
ghost use Rattle.server_differences.specs.FileDifferences.{changes, component_entries, components_entries, fence_entries, file_entry, grant_entries, has_moved, has_started, is_repaired, issued_of, no_past, only, past, placed_of, returned_of, size_entries};

use osd_lists::Memory;
use server_entries::{Entries, Entry, FileChange, FileEntry, Placed, Places};
use server_rules::{Component, Grant, Kept, Phase};
use std::alloc::Global;
use std::marker::Model;

/// What was kept of a file before.
#[derive(Drop)]
pub(crate) struct Before<'a> {
    zoned: bool,
    tag: u32,
    format: u8,
    size: u64,
    ready: bool,
    phase: Phase,
    components: &'a [Component],
    grants: &'a [Grant],
}

impl<'a> Model for Before<'a> {
    ghost use Rattle.server_differences.specs.Views.{Past};

    ghost Value = { Past };

    ghost view = { λ b. record {
      zoned = b.zoned;
      tag = b.tag;
      format = b.format;
      size = b.size;
      ready = b.ready;
      phase = b.phase;
      components = b.components.now;
      grants = b.grants.now;
    } };
}

impl<'a> Before<'a> {
    /// What is kept of it.
    pub(crate) fn of(kept: &'a Kept) -> Before<'a>
        ensures { result ≡ past kept.now }
    {
        Before {
            zoned: kept.zoned,
            tag: kept.tag,
            format: kept.format,
            size: kept.size,
            ready: kept.ready,
            phase: kept.phase,
            components: kept.components.as_slice(),
            grants: kept.grants.as_slice(),
        }
    }

    /// A file that was made just now.
    pub(crate) fn new(kept: &'a Kept) -> Before<'a>
        ensures { result ≡ no_past kept.now }
    {
        Before {
            zoned: false,
            tag: kept.first_tag,
            format: kept.format,
            size: 0,
            ready: false,
            phase: Phase::Still,
            components: kept.components.as_slice(),
            grants: none_of(kept.grants.as_slice()),
        }
    }
}

// None of the grants.
fn none_of(grants: &[Grant]) -> &[Grant]
    ensures { result.now ≡ [] }
{
    let (none, _) = grants.split_at(0);
    none
}

// ---- a new file

// Where components of a new file stand.
fn places_of(alloc: Global, components: &[Component]) -> Result<Places, Memory>
    ensures { IfOk result (λ places. places ≡ map placed_of components.now) }
{
    let mut places = Places::new(alloc);
    for at in components {
        places.push(Placed {
            drive: at.drive,
            object: at.object,
        })?;
    }
    Ok(places)
}

/// A new file.
pub(crate) fn add_new_file(alloc: Global, entries: &mut Entries, kept: &Kept) -> Result<(), Memory>
    ensures { OnOk result (entries.new ≡ entries.old ++ file_entry kept.now ∷ []) }
{
    let components = places_of(alloc, kept.components.as_slice())?;
    entries.push(Entry::File(FileEntry {
        file: kept.number,
        map: kept.map.raw(),
        tag: kept.first_tag,
        format: u32::from(kept.format),
        components,
    }))?;
    Ok(())
}

// ---- changes

// A change of the file, if there is one.
fn add_if(
    entries: &mut Entries,
    is_change: bool,
    file: u32,
    change: FileChange,
) -> Result<(), Memory>
    ensures { OnOk result (entries.new ≡ entries.old ++ only is_change (entry.Change file change)) }
{
    if is_change {
        entries.push(Entry::Change { file, change })?;
    }
    Ok(())
}

// A fence is under way.
fn is_fencing(phase: Phase) -> bool
    ensures { result ≡ is_fencing phase }
{
    match phase {
        Phase::Fencing | Phase::FencingAgain => true,
        Phase::Still | Phase::Repairing => false,
    }
}

// The repair behind a fence is under way.
fn is_repairing(phase: Phase) -> bool
    ensures { result ≡ is_repairing phase }
{
    match phase {
        Phase::Repairing => true,
        Phase::Still | Phase::Fencing | Phase::FencingAgain => false,
    }
}

// Neither a fence nor a repair is under way.
fn is_still(phase: Phase) -> bool
    ensures { result ≡ is_still phase }
{
    match phase {
        Phase::Still => true,
        Phase::Fencing | Phase::Repairing | Phase::FencingAgain => false,
    }
}

// A fence started.
fn has_started(before: &Before<'_>, kept: &Kept) -> bool
    ensures { result ≡ has_started before.now kept.now }
{
    !is_fencing(before.phase) && (is_fencing(kept.phase) || kept.tag != before.tag)
}

// The repair behind a fence is over.
fn is_repaired(before: &Before<'_>, kept: &Kept) -> bool
    ensures { result ≡ is_repaired before.now kept.now }
{
    let was_repairing = !has_started(before, kept) && is_repairing(before.phase);
    (kept.tag != before.tag || was_repairing) && is_still(kept.phase)
}

// How far a fence and a repair have come.
fn add_fence(entries: &mut Entries, before: &Before<'_>, kept: &Kept) -> Result<(), Memory>
    ensures { OnOk result (entries.new ≡ entries.old ++ fence_entries before.now kept.now) }
{
    let is_fenced = kept.tag != before.tag;
    let has_other_format = !is_fenced && kept.format != before.format;
    let format = u32::from(kept.format);
    let fenced = FileChange::Fenced {
        tag: kept.tag,
        format,
    };
    let started = has_started(before, kept);
    add_if(entries, started, kept.number, FileChange::FenceStarted)?;
    add_if(entries, is_fenced, kept.number, fenced)?;
    let repaired = is_repaired(before, kept);
    add_if(entries, repaired, kept.number, FileChange::Repaired)?;
    let other = FileChange::Format { format };
    add_if(entries, has_other_format, kept.number, other)?;
    Ok(())
}

// ---- components

// The component stands elsewhere, or stands again.
fn has_moved(old: &Component, at: &Component) -> bool
    ensures { result ≡ has_moved old.now at.now }
{
    old.drive != at.drive || old.object != at.object || (old.missing && !at.missing)
}

// A component that moved or is missing.
fn add_component(
    entries: &mut Entries,
    file: u32,
    component: u32,
    old: &Component,
    at: &Component,
) -> Result<(), Memory>
    ensures { OnOk result (entries.new ≡ entries.old ++ component_entries file component old.now at.now) }
{
    let moved = has_moved(old, at);
    let is_lost = at.missing && (moved || !old.missing);
    let change = FileChange::Present {
        component,
        drive: at.drive,
        object: at.object,
    };
    add_if(entries, moved, file, change)?;
    add_if(entries, is_lost, file, FileChange::Missing { component })?;
    Ok(())
}

// The components that moved or are missing.
fn add_components(
    entries: &mut Entries,
    file: u32,
    old: &[Component],
    components: &[Component],
) -> Result<(), Memory>
    requires few { length components.now ≤ MAX_FILE_COMPONENTS }
    ensures { OnOk result (entries.new ≡ entries.old ++ components_entries file 0 old.now components.now) }
{
    for k in 0..components.len() {
        if k >= old.len() {
            return Ok(());
        }
        add_component(entries, file, k as u32, &old[k], &components[k])?;
    }
    Ok(())
}

// ---- grants

// One of these grants has the number.
fn has_grant(grants: &[Grant], number: u32) -> bool
    ensures { result ≡ has_number grants.now number }
{
    grants.iter().any(|grant| grant.number == number)
}

// The grants that are no more.
fn add_returned(entries: &mut Entries, old: &[Grant], grants: &[Grant]) -> Result<(), Memory>
    ensures { OnOk result (entries.new ≡ entries.old ++ returned_of old.now grants.now) }
{
    for was in old {
        if !has_grant(grants, was.number) {
            entries.push(Entry::Return { grant: was.number })?;
        }
    }
    Ok(())
}

// The grants that weren't there.
fn add_issued(entries: &mut Entries, old: &[Grant], grants: &[Grant]) -> Result<(), Memory>
    ensures { OnOk result (entries.new ≡ entries.old ++ issued_of old.now grants.now) }
{
    for grant in grants {
        if !has_grant(old, grant.number) {
            entries.push(Entry::Grant(*grant))?;
        }
    }
    Ok(())
}

// The grants that were given back and issued. The start of a fence ends all that there were.
fn add_grants(entries: &mut Entries, before: &Before<'_>, kept: &Kept) -> Result<(), Memory>
    ensures { OnOk result (entries.new ≡ entries.old ++ grant_entries before.now kept.now) }
{
    let grants = kept.grants.as_slice();
    if has_started(before, kept) {
        add_issued(entries, none_of(before.grants), grants)?;
        return Ok(());
    }
    add_returned(entries, before.grants, grants)?;
    add_issued(entries, before.grants, grants)?;
    Ok(())
}

// ---- the file

// How long the file is, and whether it is ready.
fn add_size(entries: &mut Entries, before: &Before<'_>, kept: &Kept) -> Result<(), Memory>
    ensures { OnOk result (entries.new ≡ entries.old ++ size_entries before.now kept.now) }
{
    let size = FileChange::Size { size: kept.size };
    add_if(entries, kept.size != before.size, kept.number, size)?;
    let is_made = kept.ready && !before.ready;
    add_if(entries, is_made, kept.number, FileChange::Ready)?;
    Ok(())
}

/// What changed of a file.
pub(crate) fn add_changes(
    entries: &mut Entries,
    before: &Before<'_>,
    kept: &Kept,
) -> Result<(), Memory>
    requires few { length kept.now.components ≤ MAX_FILE_COMPONENTS }
    ensures { OnOk result (entries.new ≡ entries.old ++ changes before.now kept.now) }
{
    let is_zoned = kept.zoned && !before.zoned;
    add_if(entries, is_zoned, kept.number, FileChange::Zoned)?;
    add_fence(entries, before, kept)?;
    let components = kept.components.as_slice();
    add_components(entries, kept.number, before.components, components)?;
    add_grants(entries, before, kept)?;
    add_size(entries, before, kept)?;
    Ok(())
}
