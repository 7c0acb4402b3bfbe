// Remarks as they are written.
ghost use Rattle.std.specs.Prelude.{◌≡◌, ◌++◌, ◌<◌, ◌^◌, true, IfOk, OnOk};
ghost use Rattle.server_notes.specs.Asking.{asks};
ghost use Rattle.server_notes.specs.Spelling.{KindFits, RemarkFits, kind_item, remark_item};
ghost use Rattle.xdr_codec.specs.Items.{u32_item};
ghost use Rattle.server_rules.specs.declared.notes.NoteKind.TheVariants.{Audit, Repaired};
ghost use Rattle.server_notes.specs.declared.remark.Remark.TheVariants as remark;
ghost use Rattle.server_notes.specs.declared.remark.TheConstants.{NOTED};

use crate::positions::write_positions;
use crate::remark::NOTED;
use osd_lists::{Bytes, Memory};
use server_rules::{Note, NoteKind};
use std::alloc::Global;
use xdr_codec::Writer;

// What a repair left short.
fn put_repaired(writer: &mut Writer, stripes: u64, short: u64) -> Result<(), Memory>
    ensures written { OnOk result (writer.new ≡ writer.old ++ kind_item (Repaired stripes short)) }
    ensures fits { (stripes < 2 ^ 64) × (short < 2 ^ 64) }
{
    writer.u32(1)?;
    writer.u64(stripes)?;
    writer.u64(short)
}

// What an audit found.
fn put_audit(
    writer: &mut Writer,
    stripes: u64,
    short: u64,
    bad: u64,
    bytes: u64,
) -> Result<(), Memory>
    ensures written { OnOk result (writer.new ≡ writer.old ++ kind_item (Audit stripes short bad bytes)) }
    ensures fits { (stripes < 2 ^ 64) × (short < 2 ^ 64) × (bad < 2 ^ 64) × (bytes < 2 ^ 64) }
{
    writer.u32(4)?;
    writer.u64(stripes)?;
    writer.u64(short)?;
    writer.u64(bad)?;
    writer.u64(bytes)
}

// The kind of a note that asks for something, and what it announces.
fn put_kind(writer: &mut Writer, kind: &NoteKind) -> Result<(), Memory>
    requires { asks kind.now ≡ true }
    ensures written { OnOk result (writer.new ≡ writer.old ++ kind_item kind.now) }
    ensures fits { OnOk result (KindFits kind.now) }
{
    match kind {
        NoteKind::Repaired { stripes, short } => put_repaired(writer, *stripes, *short),
        NoteKind::NoDrive { component } => {
            writer.u32(2)?;
            writer.u32(*component)
        }
        NoteKind::Lost {
            component,
            positions,
        } => {
            writer.u32(3)?;
            writer.u32(*component)?;
            write_positions(writer, positions)
        }
        NoteKind::Audit {
            stripes,
            short,
            bad,
            bytes,
        } => put_audit(writer, *stripes, *short, *bad, *bytes),
        NoteKind::Ready
        | NoteKind::Fenced { .. }
        | NoteKind::Rebuilt { .. }
        | NoteKind::NoSpace { .. }
        | NoteKind::Busy { .. }
        | NoteKind::Spent
        | NoteKind::Reported { .. } => unreachable!(),
    }
}

// A remark's first numbers.
fn put_file(writer: &mut Writer, file: u32) -> Result<(), Memory>
    ensures written { OnOk result (writer.new ≡ writer.old ++ (u32_item NOTED ++ u32_item file)) }
    ensures fits { file < 2 ^ 32 }
{
    writer.u32(NOTED)?;
    writer.u32(file)
}

/// The body of the record that tells of a note, which asks for something.
///
/// # Errors
///
/// [`Memory`]. It stands also for a loss of more than 1,024 positions.
pub fn note_bytes(alloc: Global, note: &Note) -> Result<Bytes, Memory>
    requires { asks note.now.kind ≡ true }
    ensures written { IfOk result (λ bytes. bytes ≡ remark_item (remark.Asks note.now)) }
    ensures fits { OnOk result (RemarkFits (remark.Asks note.now)) }
{
    let mut writer = Writer::new(alloc);
    put_file(&mut writer, note.file)?;
    put_kind(&mut writer, &note.kind)?;
    Ok(writer.into_bytes())
}

/// The body of the record that tells that an operator has dealt with the notes of a file.
pub fn dealt_bytes(alloc: Global, file: u32) -> Result<Bytes, Memory>
    ensures written { IfOk result (λ bytes. bytes ≡ remark_item (remark.Dealt file)) }
    ensures fits { OnOk result (RemarkFits (remark.Dealt file)) }
{
    let mut writer = Writer::new(alloc);
    put_file(&mut writer, file)?;
    writer.u32(0)?;
    Ok(writer.into_bytes())
}
