ghost use Rattle.scenario_text.specs.Form.{reads, Reads, Gives};
ghost use Rattle.scenario_text.specs.LineForms.{map_fault_form, refused_form, note_form_of, note_form};

use crate::by_table::{by_kind, by_table};
use crate::event::EventErr;
use crate::line::{MapFault, Note};
use crate::line_keyword::{NoteWord, map_fault as map_fault_named, note_word};
use crate::words::Words;
use std::alloc::Global;

fn map_fault(words: &mut Words) -> Result<MapFault, EventErr>
    ensures { Reads (reads map_fault_form words.old) result words.new }
{
    match map_fault_named(words.word()?) {
        Some(why) => Ok(why),
        None => Err(EventErr::UnknownWord),
    }
}

// Why a file wasn't made.
#[tactic(auto, unfolding(crate::specs::LineForms::refused_form))]
fn refused(words: &mut Words) -> Result<Note, EventErr>
    ensures { Reads (reads refused_form words.old) result words.new }
{
    by_table!(words.word()?;
        b"exists" => Note::Exists,
        b"badmap" => Note::BadMap { why: map_fault(words)? },
        b"toofew" => Note::TooFew { online: words.u32()? },
        b"nospread" => Note::NoSpread { online: words.u32()? };
        else Err(EventErr::UnknownWord)
    )
}

// The note of its first word.
fn note_of(alloc: Global, what: NoteWord, words: &mut Words) -> Result<Note, EventErr>
    ensures { Gives (reads (note_form_of what) words.old) result words.new }
{
    by_kind!(what;
        NoteWord::Ready => Note::Ready,
        NoteWord::Fenced => Note::Fenced { tag: words.u32()? },
        NoteWord::Repaired => Note::Repaired { stripes: words.u64()?, short: words.u64()? },
        NoteWord::Rebuilt => Note::Rebuilt { component: words.u32()?, drive: words.name()? },
        NoteWord::NoDrive => Note::NoDrive { component: words.u32()? },
        NoteWord::Lost => Note::Lost { component: words.u32()?, positions: words.positions(alloc)? },
        NoteWord::NoSpace => Note::NoSpace { component: words.u32()? },
        NoteWord::Audited => Note::Audited {
            stripes: words.u64()?,
            short: words.u64()?,
            bad: words.u64()?,
            bytes: words.u64()?,
        },
        NoteWord::Busy => Note::Busy { component: words.u32()? },
        NoteWord::Spent => Note::Spent,
        NoteWord::Reported => Note::Reported { component: words.u32()? },
        NoteWord::Refused => refused(words)?,
    )
}

#[tactic(auto, unfolding(crate::specs::LineForms::note_by))]
pub(crate) fn note(alloc: Global, words: &mut Words) -> Result<Note, EventErr>
    ensures { Gives (reads note_form words.old) result words.new }
{
    match note_word(words.word()?) {
        Some(what) => note_of(alloc, what, words),
        None => Err(EventErr::UnknownWord),
    }
}
