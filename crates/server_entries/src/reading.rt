// Entries as they are read.
ghost use Rattle.std.specs.Prelude.{IfOk};
ghost use Rattle.layout_types.specs.Grammar.{Gives};
ghost use Rattle.server_entries.specs.Spelling.{ChangeFits, CountersFit, DriveFits, EntryFits, FileFits, GrantFits, SlotFits};
ghost use Rattle.server_entries.specs.Reading.{behind_kind, change_in, counters_in, drive_in, fenced_in, file_in, format_in, grant_in, missing_in, only_in, present_in, size_in, slot_in, zone_in};

use crate::entry::{Counters, DriveEntry, Entry, FileChange, FileEntry, Placed, SlotEntry};
use crate::fields::{read_answer, read_bool, read_key};
use crate::lists::read_list;
use data_map::RawMap;
use layout_types::{LayoutErr, Part};
use server_rules::Grant;
use std::alloc::Global;
use xdr_codec::Reader;

#[tactic(auto, unfolding(crate::specs::Reading::drive_in))]
fn read_drive(alloc: Global, reader: &mut Reader<'_>) -> Result<DriveEntry, LayoutErr>
    ensures exact { Gives (drive_in reader.old) result reader.new }
    ensures fits { IfOk result DriveFits }
{
    Ok(DriveEntry {
        number: u32::read_from(alloc, reader)?,
        key: read_key(reader)?,
        capacity: u64::read_from(alloc, reader)?,
        online: read_bool(reader)?,
    })
}

#[tactic(auto, unfolding(crate::specs::Reading::file_in))]
fn read_file(alloc: Global, reader: &mut Reader<'_>) -> Result<FileEntry, LayoutErr>
    ensures exact { Gives (file_in reader.old) result reader.new }
    ensures fits { IfOk result FileFits }
{
    Ok(FileEntry {
        file: u32::read_from(alloc, reader)?,
        map: RawMap::read_from(alloc, reader)?,
        tag: u32::read_from(alloc, reader)?,
        format: u32::read_from(alloc, reader)?,
        components: read_list::<Placed>(alloc, reader)?,
    })
}

#[tactic(auto, unfolding(crate::specs::Reading::grant_in))]
fn read_grant(alloc: Global, reader: &mut Reader<'_>) -> Result<Grant, LayoutErr>
    ensures exact { Gives (grant_in reader.old) result reader.new }
    ensures fits { IfOk result GrantFits }
{
    Ok(Grant {
        number: u32::read_from(alloc, reader)?,
        client: u32::read_from(alloc, reader)?,
        file: u32::read_from(alloc, reader)?,
        rw: read_bool(reader)?,
        extending: read_bool(reader)?,
        first: u64::read_from(alloc, reader)?,
        end: u64::read_from(alloc, reader)?,
        expiry: u64::read_from(alloc, reader)?,
    })
}

#[tactic(auto, unfolding(crate::specs::Reading::counters_in))]
fn read_counters(alloc: Global, reader: &mut Reader<'_>) -> Result<Counters, LayoutErr>
    ensures exact { Gives (counters_in reader.old) result reader.new }
    ensures fits { IfOk result CountersFit }
{
    Ok(Counters {
        next_grant: u32::read_from(alloc, reader)?,
        next_object: u64::read_from(alloc, reader)?,
        next_nonce: u64::read_from(alloc, reader)?,
        next_recall: u64::read_from(alloc, reader)?,
    })
}

#[tactic(auto, unfolding(crate::specs::Reading::slot_in))]
fn read_slot(alloc: Global, reader: &mut Reader<'_>) -> Result<SlotEntry, LayoutErr>
    ensures exact { Gives (slot_in reader.old) result reader.new }
    ensures fits { IfOk result SlotFits }
{
    Ok(SlotEntry {
        client: u32::read_from(alloc, reader)?,
        sequence: u32::read_from(alloc, reader)?,
        answer: read_answer(alloc, reader)?,
    })
}

#[tactic(auto, unfolding(crate::specs::Reading::zone_in))]
fn read_zone(alloc: Global, reader: &mut Reader<'_>) -> Result<Entry, LayoutErr>
    ensures exact { Gives (zone_in reader.old) result reader.new }
    ensures fits { IfOk result EntryFits }
{
    Ok(Entry::Zone {
        drive: u32::read_from(alloc, reader)?,
        zone: u32::read_from(alloc, reader)?,
    })
}

// ---- changes of a file

// A change whose kind announces the file alone.
#[tactic(auto, unfolding(crate::specs::Reading::only_in))]
fn read_only(alloc: Global, reader: &mut Reader<'_>, change: FileChange) -> Result<Entry, LayoutErr>
    requires { ChangeFits change }
    ensures exact { Gives (only_in change reader.old) result reader.new }
    ensures fits { IfOk result EntryFits }
{
    let file = u32::read_from(alloc, reader)?;
    Ok(Entry::Change { file, change })
}

#[tactic(auto, unfolding(crate::specs::Reading::size_in))]
fn read_size(alloc: Global, reader: &mut Reader<'_>) -> Result<Entry, LayoutErr>
    ensures exact { Gives (size_in reader.old) result reader.new }
    ensures fits { IfOk result EntryFits }
{
    let file = u32::read_from(alloc, reader)?;
    let size = u64::read_from(alloc, reader)?;
    let change = FileChange::Size { size };
    Ok(Entry::Change { file, change })
}

#[tactic(auto, unfolding(crate::specs::Reading::fenced_in))]
fn read_fenced(alloc: Global, reader: &mut Reader<'_>) -> Result<Entry, LayoutErr>
    ensures exact { Gives (fenced_in reader.old) result reader.new }
    ensures fits { IfOk result EntryFits }
{
    let file = u32::read_from(alloc, reader)?;
    let tag = u32::read_from(alloc, reader)?;
    let format = u32::read_from(alloc, reader)?;
    let change = FileChange::Fenced { tag, format };
    Ok(Entry::Change { file, change })
}

#[tactic(auto, unfolding(crate::specs::Reading::missing_in))]
fn read_missing(alloc: Global, reader: &mut Reader<'_>) -> Result<Entry, LayoutErr>
    ensures exact { Gives (missing_in reader.old) result reader.new }
    ensures fits { IfOk result EntryFits }
{
    let file = u32::read_from(alloc, reader)?;
    let component = u32::read_from(alloc, reader)?;
    let change = FileChange::Missing { component };
    Ok(Entry::Change { file, change })
}

#[tactic(auto, unfolding(crate::specs::Reading::present_in))]
fn read_present(alloc: Global, reader: &mut Reader<'_>) -> Result<Entry, LayoutErr>
    ensures exact { Gives (present_in reader.old) result reader.new }
    ensures fits { IfOk result EntryFits }
{
    let file = u32::read_from(alloc, reader)?;
    let component = u32::read_from(alloc, reader)?;
    let drive = u32::read_from(alloc, reader)?;
    let object = u64::read_from(alloc, reader)?;
    let change = FileChange::Present {
        component,
        drive,
        object,
    };
    Ok(Entry::Change { file, change })
}

#[tactic(auto, unfolding(crate::specs::Reading::format_in))]
fn read_format(alloc: Global, reader: &mut Reader<'_>) -> Result<Entry, LayoutErr>
    ensures exact { Gives (format_in reader.old) result reader.new }
    ensures fits { IfOk result EntryFits }
{
    let file = u32::read_from(alloc, reader)?;
    let format = u32::read_from(alloc, reader)?;
    let change = FileChange::Format { format };
    Ok(Entry::Change { file, change })
}

// What a kind announces, if it is one of a change.
#[tactic(auto, unfolding(crate::specs::Reading::change_in))]
fn read_change(
    alloc: Global,
    reader: &mut Reader<'_>,
    at: u64,
    kind: u32,
) -> Result<Entry, LayoutErr>
    ensures exact { Gives (change_in at kind reader.old) result reader.new }
    ensures fits { IfOk result EntryFits }
{
    match kind {
        5 => read_size(alloc, reader),
        6 => read_only(alloc, reader, FileChange::FenceStarted),
        7 => read_fenced(alloc, reader),
        8 => read_only(alloc, reader, FileChange::Repaired),
        9 => read_missing(alloc, reader),
        10 => read_present(alloc, reader),
        14 => read_only(alloc, reader, FileChange::Ready),
        15 => read_format(alloc, reader),
        17 => read_only(alloc, reader, FileChange::Zoned),
        _ => Err(LayoutErr::BadEnum { at, value: kind }),
    }
}

// ---- entries

// What a kind announces.
#[tactic(auto, unfolding(crate::specs::Reading::behind_kind))]
pub(crate) fn read_behind(
    alloc: Global,
    reader: &mut Reader<'_>,
    at: u64,
    kind: u32,
) -> Result<Entry, LayoutErr>
    ensures exact { Gives (behind_kind at kind reader.old) result reader.new }
    ensures fits { IfOk result EntryFits }
{
    match kind {
        1 => Ok(Entry::Drive(read_drive(alloc, reader)?)),
        2 => Ok(Entry::File(read_file(alloc, reader)?)),
        3 => Ok(Entry::Grant(read_grant(alloc, reader)?)),
        4 => Ok(Entry::Return {
            grant: u32::read_from(alloc, reader)?,
        }),
        11 => Ok(Entry::Counters(read_counters(alloc, reader)?)),
        12 => Ok(Entry::Slot(read_slot(alloc, reader)?)),
        13 => Ok(Entry::Format {
            format: u32::read_from(alloc, reader)?,
        }),
        16 => read_zone(alloc, reader),
        _ => read_change(alloc, reader, at, kind),
    }
}
