// The records of a journal: the entries of one step after another, and what it told.
ghost use Rattle.std.specs.Prelude.{◌≡◌, ◌<◌, ◌++◌, ◌∷◌, [], length, Ok, List, ℕ, IfOk, OnOk};
ghost use Rattle.layout_types.specs.Grammar.{whole};
ghost use Rattle.server_entries.specs.Reading.{record_in};
ghost use Rattle.server_entries.specs.Spelling.{RecordWritable, record_item};
ghost use Rattle.server_entries.specs.Taking.{Takes};
ghost use Rattle.gate_log.specs.Together.{HaveBodies};
ghost use Rattle.server_notes.specs.Reading.{remark_in};
ghost use Rattle.server_journal.specs.Made.{made_by};
ghost use Rattle.server_journal.specs.Notes.{AllFit, after_body, and_remark, entry_bodies, note_bodies, step_bodies};
ghost use Rattle.server_journal.specs.Records.{after_reading, after_record, unless_remarked};

use crate::made::{MadeObjects, read_made};
use gate_log::{Entries, Entry, MAX_BODY};
use kept_server::Restoration;
use layout_types::{LayoutErr, Structure};
use osd_lists::{Bytes, Memory};
use server_entries::{Applied, Record};
use server_notes::{KeptNotes, asks, note_bytes, read_remark, take_remark};
use server_rules::Note;
use std::alloc::Global;

// Adds a record with this body.
fn push_body(alloc: Global, entries: &mut Entries, body: &Bytes) -> Result<(), Memory>
    requires { 0 < length body.now }
    ensures { OnOk result ((bodies : List (List ℕ)) → HaveBodies bodies entries.old
        → HaveBodies (bodies ++ body.now ∷ []) entries.new) }
{
    if body.len() > MAX_BODY {
        return Err(Memory);
    }
    let entry = Entry::new(alloc, body.as_slice())?;
    entries.push(&entry)
}

// Adds the record of a step's entries, if there are any.
fn push_changes(alloc: Global, entries: &mut Entries, changes: &Record) -> Result<(), Memory>
    requires { RecordWritable changes.now }
    ensures pushed { OnOk result ((bodies : List (List ℕ)) → HaveBodies bodies entries.old
        → HaveBodies (bodies ++ entry_bodies changes.now) entries.new) }
    ensures spelled { OnOk result (whole record_in (record_item changes.now) ≡ Ok changes.now) }
{
    let body = changes.write(alloc)?;
    if changes.entries.len() == 0 {
        return Ok(());
    }
    push_body(alloc, entries, &body)
}

// Adds the record of a note, if it asks for something.
fn push_note(alloc: Global, entries: &mut Entries, note: &Note) -> Result<(), Memory>
    ensures pushed { OnOk result ((bodies : List (List ℕ)) → HaveBodies bodies entries.old
        → HaveBodies (bodies ++ note_bodies (note.now ∷ [])) entries.new) }
    ensures fits { OnOk result (AllFit (note.now ∷ [])) }
{
    if !asks(&note.kind) {
        return Ok(());
    }
    let body = note_bytes(alloc, note)?;
    push_body(alloc, entries, &body)
}

// Adds the records of those of these notes that ask for something.
fn push_notes(alloc: Global, entries: &mut Entries, notes: &[Note]) -> Result<(), Memory>
    ensures pushed { OnOk result ((bodies : List (List ℕ)) → HaveBodies bodies entries.old
        → HaveBodies (bodies ++ note_bodies notes.now) entries.new) }
    ensures fits { OnOk result (AllFit notes.now) }
{
    for note in notes {
        push_note(alloc, entries, note)?;
    }
    Ok(())
}

/// What the log is to have of a step together: its entries, if there are any, and those of its notes that ask for something.
///
/// # Errors
///
/// Want of memory; and, in place of it, more bytes than a log takes at a time, or a loss of more than 1,024 positions.
pub(crate) fn entries_of(alloc: Global, changes: &Record, notes: &[Note]) -> Result<Entries, Memory>
    requires { RecordWritable changes.now }
    ensures bodies { IfOk result (λ entries. HaveBodies (step_bodies changes.now notes.now) entries) }
    ensures spelled { OnOk result (whole record_in (record_item changes.now) ≡ Ok changes.now) }
    ensures fits { OnOk result (AllFit notes.now) }
{
    let mut entries = Entries::new(alloc);
    push_changes(alloc, &mut entries, changes)?;
    push_notes(alloc, &mut entries, notes)?;
    Ok(entries)
}

// Takes the entries of a record into the server that the records before it led to, and tells whether it is one.
fn take_entries(
    alloc: Global,
    restoration: &mut Restoration,
    bytes: &[u8],
) -> Result<Applied, Memory>
    ensures { IfOk result (λ a. Takes a restoration.new (after_reading restoration.old (whole record_in bytes.now))) }
{
    match Record::read(alloc, bytes) {
        Ok(record) => restoration.take(alloc, record.entries.as_slice()),
        Err(LayoutErr::Memory) => Err(Memory),
        Err(_) => Ok(Applied::Unmade),
    }
}

// Takes a record that tells of no made object: a remark into the notes, or entries into the server.
fn take_other(
    alloc: Global,
    restoration: &mut Restoration,
    noted: &mut KeptNotes,
    bytes: &[u8],
) -> Result<Applied, Memory>
    ensures taken { IfOk result (λ a. Takes a restoration.new
        (unless_remarked restoration.old (remark_in bytes.now) (whole record_in bytes.now))) }
    ensures noted { OnOk result (noted.new ≡ and_remark noted.old (remark_in bytes.now)) }
{
    match read_remark(alloc, bytes)? {
        Some(remark) => {
            take_remark(alloc, noted, remark)?;
            Ok(Applied::Done)
        }
        None => take_entries(alloc, restoration, bytes),
    }
}

/// Takes a record into the server that the records before it led to, or the object that it tells of, or what it tells of notes,
/// and tells whether it is one.
pub(crate) fn take_record(
    alloc: Global,
    restoration: &mut Restoration,
    made: &mut MadeObjects,
    noted: &mut KeptNotes,
    bytes: &[u8],
) -> Result<Applied, Memory>
    ensures taken { IfOk result (λ a. Takes a restoration.new (after_record restoration.old bytes.now)) }
    ensures made { OnOk result (made.new ≡ made.old ++ made_by (bytes.now ∷ [])) }
    ensures noted { OnOk result (noted.new ≡ after_body noted.old bytes.now) }
{
    match read_made(bytes) {
        Some(object) => {
            made.push(object)?;
            Ok(Applied::Done)
        }
        None => take_other(alloc, restoration, noted, bytes),
    }
}
