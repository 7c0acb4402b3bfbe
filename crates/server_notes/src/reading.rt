// Remarks as they are read.
ghost use Rattle.std.specs.Prelude.{◌≡◌, IfOk};
ghost use Rattle.layout_types.specs.Grammar.{Gives, GivesOrMemory, whole};
ghost use Rattle.server_notes.specs.Reading.{audit_in, behind_first, lost_in, no_drive_in, note_in, remark_in, remark_part, repaired_in};

use crate::positions::read_positions;
use crate::remark::{NOTED, Remark};
use layout_types::{LayoutErr, Part};
use osd_lists::Memory;
use server_rules::{Note, NoteKind};
use std::alloc::Global;
use xdr_codec::Reader;

#[tactic(auto, unfolding(crate::specs::Reading::repaired_in))]
fn read_repaired(alloc: Global, reader: &mut Reader<'_>) -> Result<NoteKind, LayoutErr>
    ensures { Gives (repaired_in reader.old) result reader.new }
{
    Ok(NoteKind::Repaired {
        stripes: u64::read_from(alloc, reader)?,
        short: u64::read_from(alloc, reader)?,
    })
}

#[tactic(auto, unfolding(crate::specs::Reading::no_drive_in))]
fn read_no_drive(alloc: Global, reader: &mut Reader<'_>) -> Result<NoteKind, LayoutErr>
    ensures { Gives (no_drive_in reader.old) result reader.new }
{
    Ok(NoteKind::NoDrive {
        component: u32::read_from(alloc, reader)?,
    })
}

#[tactic(auto, unfolding(crate::specs::Reading::lost_in))]
fn read_lost(alloc: Global, reader: &mut Reader<'_>) -> Result<NoteKind, LayoutErr>
    ensures { Gives (lost_in reader.old) result reader.new }
{
    Ok(NoteKind::Lost {
        component: u32::read_from(alloc, reader)?,
        positions: read_positions(alloc, reader)?,
    })
}

#[tactic(auto, unfolding(crate::specs::Reading::audit_in))]
fn read_audit(alloc: Global, reader: &mut Reader<'_>) -> Result<NoteKind, LayoutErr>
    ensures { Gives (audit_in reader.old) result reader.new }
{
    Ok(NoteKind::Audit {
        stripes: u64::read_from(alloc, reader)?,
        short: u64::read_from(alloc, reader)?,
        bad: u64::read_from(alloc, reader)?,
        bytes: u64::read_from(alloc, reader)?,
    })
}

// What a kind announces, of a kind of note.
#[tactic(auto, unfolding(crate::specs::Reading::note_in))]
fn read_note(
    alloc: Global,
    reader: &mut Reader<'_>,
    at: u64,
    kind: u32,
) -> Result<NoteKind, LayoutErr>
    ensures { Gives (note_in at kind reader.old) result reader.new }
{
    match kind {
        1 => read_repaired(alloc, reader),
        2 => read_no_drive(alloc, reader),
        3 => read_lost(alloc, reader),
        4 => read_audit(alloc, reader),
        value => Err(LayoutErr::BadEnum { at, value }),
    }
}

// What stands behind a remark's first number.
#[tactic(auto, unfolding(crate::specs::Reading::behind_first))]
fn read_behind(alloc: Global, reader: &mut Reader<'_>) -> Result<Remark, LayoutErr>
    ensures { Gives (behind_first reader.old) result reader.new }
{
    let file = u32::read_from(alloc, reader)?;
    let at = reader.place();
    let kind = u32::read_from(alloc, reader)?;
    if kind == 0 {
        return Ok(Remark::Dealt { file });
    }
    let kind = read_note(alloc, reader, at, kind)?;
    Ok(Remark::Asks {
        note: Note { file, kind },
    })
}

#[tactic(auto, unfolding(crate::specs::Reading::remark_part))]
fn read_part(alloc: Global, reader: &mut Reader<'_>) -> Result<Remark, LayoutErr>
    ensures { Gives (remark_part reader.old) result reader.new }
{
    let at = reader.place();
    let value = u32::read_from(alloc, reader)?;
    if value != NOTED {
        return Err(LayoutErr::BadEnum { at, value });
    }
    read_behind(alloc, reader)
}

// The remark that all of the bytes spell, or the first refusal.
#[tactic(auto, unfolding(layout_types::specs::Grammar::whole))]
fn read_all(alloc: Global, bytes: &[u8]) -> Result<Remark, LayoutErr>
    ensures { GivesOrMemory (whole remark_part bytes.now) result }
{
    let mut reader = Reader::new(bytes);
    let remark = read_part(alloc, &mut reader)?;
    reader.finish()?;
    Ok(remark)
}

/// The remark that the body of a record tells, if it tells one.
pub fn read_remark(alloc: Global, bytes: &[u8]) -> Result<Option<Remark>, Memory>
    ensures { IfOk result (λ found. found ≡ remark_in bytes.now) }
{
    match read_all(alloc, bytes) {
        Ok(remark) => Ok(Some(remark)),
        Err(LayoutErr::Memory) => Err(Memory),
        Err(_) => Ok(None),
    }
}
