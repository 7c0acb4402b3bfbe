// What the server notes, as lines.
ghost use Rattle.std.specs.Prelude.{◌≡◌, ◌++◌, ◌<◌, length, slice_get, slice_set, Some, IfOk, OnOk};
ghost use Rattle.std.specs.List.{filter_map};
ghost use Rattle.world_history.specs.Names.{known_note_line};
ghost use Rattle.world_network.specs.Telling.{no_note, told_as};

use crate::network::Lines;
use crate::notes::note_line;
use osd_lists::{Memory, Sequence};
use server_rules::{Note as FileNote, NoteKind};
use std::alloc::Global;
use std::mem;

// A note that stands where another was taken out.
fn no_note() -> FileNote
    ensures { result ≡ no_note }
{
    FileNote {
        file: 0,
        kind: NoteKind::Ready,
    }
}

// The note at a place, where `no_note` stands then.
fn take_note(notes: &mut Sequence<FileNote>, place: usize) -> FileNote
    requires { place < length notes.old }
    ensures taken { slice_get notes.old place ≡ Some result }
    ensures left { notes.new ≡ slice_set notes.old place no_note }
{
    mem::replace(notes.get_mut(place), no_note())
}

// A note that a line can tell.
fn tell(told: &mut Lines, note: FileNote) -> Result<(), Memory>
    ensures { OnOk result (told.new ≡ told.old ++ told_as (known_note_line note)) }
{
    match note_line(note) {
        Some(line) => told.push(line),
        None => Ok(()),
    }
}

/// The notes of a step of the server as lines, in order. One that no line can tell has none.
pub fn lines_of(alloc: Global, notes: Sequence<FileNote>) -> Result<Lines, Memory>
    ensures { IfOk result (λ told. told ≡ filter_map known_note_line notes) }
{
    let mut left = notes;
    let mut told = Lines::new(alloc);
    let mut place = 0;
    while place < left.len() {
        let note = take_note(&mut left, place);
        tell(&mut told, note)?;
        place += 1;
    }
    Ok(told)
}
