// The notes that are kept, and what adds to them or takes them away.
ghost use Rattle.std.specs.Prelude.{◌≡◌, ◌++◌, IfOk, OnOk};
ghost use Rattle.server_notes.specs.Asking.{after_remark, asking, asks, picked_of, quiet, without};

use crate::remark::Remark;
use osd_lists::{Memory, Numbers, Sequence};
use server_rules::{Note, NoteKind};
use std::alloc::Global;

/// Notes that ask for something, in the order in which they were told.
pub type KeptNotes = Sequence<Note>;

/// Whether a note asks for something: a repair left stripes short, a component is lost or has no drive, or an audit found
/// stripes that are bad.
pub fn asks(kind: &NoteKind) -> bool
    ensures { result ≡ asks kind.now }
{
    match kind {
        NoteKind::Repaired { short, .. } => *short > 0,
        NoteKind::NoDrive { .. } | NoteKind::Lost { .. } => true,
        NoteKind::Audit { bad, .. } => *bad > 0,
        NoteKind::Ready
        | NoteKind::Fenced { .. }
        | NoteKind::Rebuilt { .. }
        | NoteKind::NoSpace { .. }
        | NoteKind::Busy { .. }
        | NoteKind::Spent
        | NoteKind::Reported { .. } => false,
    }
}

// The same kind again.
fn copied_kind(alloc: Global, kind: &NoteKind) -> Result<NoteKind, Memory>
    ensures { IfOk result (λ copy. copy ≡ kind.now) }
{
    let copy = match kind {
        NoteKind::Ready => NoteKind::Ready,
        NoteKind::Fenced { tag } => NoteKind::Fenced { tag: *tag },
        NoteKind::Repaired { stripes, short } => NoteKind::Repaired {
            stripes: *stripes,
            short: *short,
        },
        NoteKind::Rebuilt { component, drive } => NoteKind::Rebuilt {
            component: *component,
            drive: *drive,
        },
        NoteKind::NoDrive { component } => NoteKind::NoDrive {
            component: *component,
        },
        NoteKind::Lost {
            component,
            positions,
        } => NoteKind::Lost {
            component: *component,
            positions: Numbers::copied(alloc, positions.as_slice())?,
        },
        NoteKind::NoSpace { component } => NoteKind::NoSpace {
            component: *component,
        },
        NoteKind::Audit {
            stripes,
            short,
            bad,
            bytes,
        } => NoteKind::Audit {
            stripes: *stripes,
            short: *short,
            bad: *bad,
            bytes: *bytes,
        },
        NoteKind::Busy { component } => NoteKind::Busy {
            component: *component,
        },
        NoteKind::Spent => NoteKind::Spent,
        NoteKind::Reported { component } => NoteKind::Reported {
            component: *component,
        },
    };
    Ok(copy)
}

// Adds a note to others, if it is picked.
fn push_if(alloc: Global, notes: &mut KeptNotes, note: &Note, picked: bool) -> Result<(), Memory>
    ensures { OnOk result (notes.new ≡ notes.old ++ picked_of picked note.now) }
{
    if picked {
        notes.push(Note {
            file: note.file,
            kind: copied_kind(alloc, &note.kind)?,
        })?;
    }
    Ok(())
}

/// Adds those of a step's notes that ask for something, in order.
///
/// # Errors
///
/// [`Memory`]; then some first ones of them were added.
pub fn keep_asking(alloc: Global, kept: &mut KeptNotes, notes: &[Note]) -> Result<(), Memory>
    ensures { OnOk result (kept.new ≡ kept.old ++ asking notes.now) }
{
    for note in notes {
        push_if(alloc, kept, note, asks(&note.kind))?;
    }
    Ok(())
}

// Adds all of these notes.
fn push_all(alloc: Global, told: &mut KeptNotes, notes: &[Note]) -> Result<(), Memory>
    ensures { OnOk result (told.new ≡ told.old ++ notes.now) }
{
    for note in notes {
        push_if(alloc, told, note, true)?;
    }
    Ok(())
}

// Adds those of these notes that ask for nothing.
fn push_quiet(alloc: Global, told: &mut KeptNotes, notes: &[Note]) -> Result<(), Memory>
    ensures { OnOk result (told.new ≡ told.old ++ quiet notes.now) }
{
    for note in notes {
        push_if(alloc, told, note, !asks(&note.kind))?;
    }
    Ok(())
}

/// What a start tells: the notes that are kept, and then those of the step of the opening that ask for nothing.
pub fn told_again(alloc: Global, kept: &[Note], notes: &[Note]) -> Result<KeptNotes, Memory>
    ensures { IfOk result (λ told. told ≡ kept.now ++ quiet notes.now) }
{
    let mut told = KeptNotes::new(alloc);
    push_all(alloc, &mut told, kept)?;
    push_quiet(alloc, &mut told, notes)?;
    Ok(told)
}

// The notes of other files.
fn without(alloc: Global, notes: &[Note], file: u32) -> Result<KeptNotes, Memory>
    ensures { IfOk result (λ left. left ≡ without notes.now file) }
{
    let mut left = KeptNotes::new(alloc);
    for note in notes {
        push_if(alloc, &mut left, note, note.file != file)?;
    }
    Ok(left)
}

/// Takes a remark into the notes that are kept: one more, or those of a file less.
///
/// # Errors
///
/// [`Memory`]; then nothing changes.
pub fn take_remark(alloc: Global, notes: &mut KeptNotes, remark: Remark) -> Result<(), Memory>
    ensures taken { OnOk result (notes.new ≡ after_remark notes.old remark) }
{
    match remark {
        Remark::Asks { note } => notes.push(note),
        Remark::Dealt { file } => {
            *notes = without(alloc, notes.as_slice(), file)?;
            Ok(())
        }
    }
}
