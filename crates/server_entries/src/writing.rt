// Entries as they are written, and read and written as parts of a record.
ghost use Rattle.std.specs.Prelude.{◌≡◌, ◌++◌, ◌<◌, ◌^◌, OnOk};
ghost use Rattle.xdr_codec.specs.Items.{u32_item, u64_item};
ghost use Rattle.server_entries.specs.Spelling.{change_item, ChangeFits, counters_item, CountersFit, drive_item, DriveFits, file_item, FileFits, FileWritable, grant_item, GrantFits, IsAnswerBody, slot_item, SlotFits};

use crate::entry::{Counters, DriveEntry, Entry, FileChange, FileEntry, Placed, SlotEntry};
use crate::fields::put_key;
use crate::lists::write_list;
use crate::reading::read_behind;
use layout_types::{LayoutErr, Part};
use osd_lists::Memory;
use server_rules::Grant;
use std::alloc::Global;
use xdr_codec::{Reader, Writer};

impl Part for Placed {
    ghost use Rattle.std.specs.Prelude.{⊤};
    ghost use Rattle.server_entries.specs.Spelling.{placed_item, PlacedFits};
    ghost use Rattle.server_entries.specs.Reading.{placed_in};

    ghost spelling = { placed_item };

    ghost fits = { PlacedFits };

    ghost writable = { λ p. ⊤ };

    ghost reading = { placed_in };

    #[tactic(auto, unfolding(crate::specs::Reading::placed_in))]
    fn read_from(alloc: Global, reader: &mut Reader<'_>) -> Result<Self, LayoutErr> {
        Ok(Placed {
            drive: u32::read_from(alloc, reader)?,
            object: u64::read_from(alloc, reader)?,
        })
    }

    fn write_to(&self, writer: &mut Writer) -> Result<(), Memory> {
        writer.u32(self.drive)?;
        writer.u64(self.object)
    }
}

fn put_drive(writer: &mut Writer, v: &DriveEntry) -> Result<(), Memory>
    ensures written { OnOk result (writer.new ≡ writer.old ++ drive_item v.now) }
    ensures fits { OnOk result (DriveFits v.now) }
{
    writer.u32(v.number)?;
    put_key(writer, &v.key)?;
    writer.u64(v.capacity)?;
    writer.bool(v.online)
}

fn put_file(writer: &mut Writer, v: &FileEntry) -> Result<(), Memory>
    requires { FileWritable v.now }
    ensures written { OnOk result (writer.new ≡ writer.old ++ file_item v.now) }
    ensures fits { OnOk result (FileFits v.now) }
{
    writer.u32(v.file)?;
    v.map.write_to(writer)?;
    writer.u32(v.tag)?;
    writer.u32(v.format)?;
    write_list(writer, &v.components)
}

// The stripes of a grant, and its expiry.
fn put_term(writer: &mut Writer, v: &Grant) -> Result<(), Memory>
    ensures written { OnOk result
        (writer.new ≡ writer.old ++ (u64_item v.now.first ++ (u64_item v.now.end ++ u64_item v.now.expiry))) }
    ensures fits { OnOk result ((v.now.first < 2 ^ 64) × (v.now.end < 2 ^ 64) × (v.now.expiry < 2 ^ 64)) }
{
    writer.u64(v.first)?;
    writer.u64(v.end)?;
    writer.u64(v.expiry)
}

fn put_grant(writer: &mut Writer, v: &Grant) -> Result<(), Memory>
    ensures written { OnOk result (writer.new ≡ writer.old ++ grant_item v.now) }
    ensures fits { OnOk result (GrantFits v.now) }
{
    writer.u32(v.number)?;
    writer.u32(v.client)?;
    writer.u32(v.file)?;
    writer.bool(v.rw)?;
    writer.bool(v.extending)?;
    put_term(writer, v)
}

fn put_counters(writer: &mut Writer, v: &Counters) -> Result<(), Memory>
    ensures written { OnOk result (writer.new ≡ writer.old ++ counters_item v.now) }
    ensures fits { OnOk result (CountersFit v.now) }
{
    writer.u32(v.next_grant)?;
    writer.u64(v.next_object)?;
    writer.u64(v.next_nonce)?;
    writer.u64(v.next_recall)
}

fn put_slot(writer: &mut Writer, v: &SlotEntry) -> Result<(), Memory>
    requires { IsAnswerBody v.now.answer }
    ensures written { OnOk result (writer.new ≡ writer.old ++ slot_item v.now) }
    ensures fits { OnOk result (SlotFits v.now) }
{
    writer.u32(v.client)?;
    writer.u32(v.sequence)?;
    writer.opaque(v.answer.as_slice())
}

// The kind of a change, and the file.
fn put_kind(writer: &mut Writer, kind: u32, file: u32) -> Result<(), Memory>
    ensures written { OnOk result (writer.new ≡ writer.old ++ (u32_item kind ++ u32_item file)) }
    ensures fits { file < 2 ^ 32 }
{
    writer.u32(kind)?;
    writer.u32(file)
}

fn put_change(writer: &mut Writer, file: u32, change: &FileChange) -> Result<(), Memory>
    ensures written { OnOk result (writer.new ≡ writer.old ++ change_item file change.now) }
    ensures fits { OnOk result ((file < 2 ^ 32) × ChangeFits change.now) }
{
    match change {
        FileChange::Size { size } => {
            put_kind(writer, 5, file)?;
            writer.u64(*size)
        }
        FileChange::FenceStarted => put_kind(writer, 6, file),
        FileChange::Fenced { tag, format } => {
            put_kind(writer, 7, file)?;
            writer.u32(*tag)?;
            writer.u32(*format)
        }
        FileChange::Repaired => put_kind(writer, 8, file),
        FileChange::Missing { component } => {
            put_kind(writer, 9, file)?;
            writer.u32(*component)
        }
        FileChange::Present {
            component,
            drive,
            object,
        } => {
            put_kind(writer, 10, file)?;
            writer.u32(*component)?;
            writer.u32(*drive)?;
            writer.u64(*object)
        }
        FileChange::Ready => put_kind(writer, 14, file),
        FileChange::Format { format } => {
            put_kind(writer, 15, file)?;
            writer.u32(*format)
        }
        FileChange::Zoned => put_kind(writer, 17, file),
    }
}

impl Part for Entry {
    ghost use Rattle.server_entries.specs.Spelling.{entry_item, EntryFits, EntryWritable};
    ghost use Rattle.server_entries.specs.Reading.{entry_in};

    ghost spelling = { entry_item };

    ghost fits = { EntryFits };

    ghost writable = { EntryWritable };

    ghost reading = { entry_in };

    #[tactic(auto, unfolding(crate::specs::Reading::entry_in))]
    fn read_from(alloc: Global, reader: &mut Reader<'_>) -> Result<Self, LayoutErr> {
        let at = reader.place();
        let kind = u32::read_from(alloc, reader)?;
        read_behind(alloc, reader, at, kind)
    }

    fn write_to(&self, writer: &mut Writer) -> Result<(), Memory> {
        match self {
            Entry::Drive(v) => {
                writer.u32(1)?;
                put_drive(writer, v)
            }
            Entry::File(v) => {
                writer.u32(2)?;
                put_file(writer, v)
            }
            Entry::Grant(v) => {
                writer.u32(3)?;
                put_grant(writer, v)
            }
            Entry::Return { grant } => {
                writer.u32(4)?;
                writer.u32(*grant)
            }
            Entry::Change { file, change } => put_change(writer, *file, change),
            Entry::Counters(v) => {
                writer.u32(11)?;
                put_counters(writer, v)
            }
            Entry::Slot(v) => {
                writer.u32(12)?;
                put_slot(writer, v)
            }
            Entry::Format { format } => {
                writer.u32(13)?;
                writer.u32(*format)
            }
            Entry::Zone { drive, zone } => {
                writer.u32(16)?;
                writer.u32(*drive)?;
                writer.u32(*zone)
            }
        }
    }
}
