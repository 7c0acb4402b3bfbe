ghost use Rattle.std.specs.Prelude.{◌≡◌};
ghost use Rattle.world_history.specs.Told.{told_map_err};
ghost use Rattle.world_history.specs.Names.{known_note, known_note_line};

use data_map::MapErr;
use scenario_text::{DriveName, FileName, Line, MapFault, Note};
use server_rules::{Note as FileNote, NoteKind};

/// A note of the server, `None` exactly where it names a drive that no line can name.
pub fn told_note(kind: NoteKind) -> Option<Note>
    ensures { result ≡ known_note kind }
{
    let note = match kind {
        NoteKind::Ready => Note::Ready,
        NoteKind::Fenced { tag } => Note::Fenced { tag },
        NoteKind::Repaired { stripes, short } => Note::Repaired { stripes, short },
        NoteKind::Rebuilt { component, drive } => match DriveName::new(drive) {
            Some(drive) => Note::Rebuilt { component, drive },
            None => return None,
        },
        NoteKind::NoDrive { component } => Note::NoDrive { component },
        NoteKind::Lost {
            component,
            positions,
        } => Note::Lost {
            component,
            positions,
        },
        NoteKind::NoSpace { component } => Note::NoSpace { component },
        NoteKind::Audit {
            stripes,
            short,
            bad,
            bytes,
        } => Note::Audited {
            stripes,
            short,
            bad,
            bytes,
        },
        NoteKind::Busy { component } => Note::Busy { component },
        NoteKind::Spent => Note::Spent,
        NoteKind::Reported { component } => Note::Reported { component },
    };
    Some(note)
}

/// A note of the server on a file, as a line. `None` exactly where it names a file or a drive that no line can name.
pub fn note_line(note: FileNote) -> Option<Line>
    ensures { result ≡ known_note_line note }
{
    match (FileName::new(note.file), told_note(note.kind)) {
        (Some(file), Some(note)) => Some(Line::Note { file, note }),
        _ => None,
    }
}

/// Why numbers are no map.
pub fn told_map_err(error: MapErr) -> MapFault
    ensures { result ≡ told_map_err error }
{
    match error {
        MapErr::Unit => MapFault::Unit,
        MapErr::TooMany => MapFault::TooMany,
        MapErr::TooFew => MapFault::TooFew,
        MapErr::Multiple => MapFault::Multiple,
        MapErr::Width => MapFault::Width,
        MapErr::Depth => MapFault::Depth,
    }
}
