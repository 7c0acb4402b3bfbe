ghost use Rattle.std.specs.Prelude.{◌≡◌, Ok, IfOk, IfErr};
ghost use Rattle.scenario_text.specs.Reading.{GivesOrMemory};
ghost use Rattle.scenario_text.specs.Form.{reads, reads_line, Reads, Gives};
ghost use Rattle.scenario_text.specs.Words.{words_of};
ghost use Rattle.scenario_text.specs.LineSpelling.{LineFits, line_text};
ghost use Rattle.scenario_text.specs.LineForms.{refusal_form, yes_or_no_form, last_form, line_form_of, line_form};
ghost use Rattle.scenario_text.specs.LineRefusals.{GivesLine, IsLineRefusal};
ghost use Rattle.scenario_text.specs.declared.line.Line.{Line};

use crate::by_table::{by_kind, by_table};
use crate::event::EventErr;
use crate::event_reader::event;
use crate::hexadecimal::Digits;
use crate::line::{Line, Refusal};
use crate::line_keyword::{LineWord, line_word};
use crate::note_reader::note;
use crate::outcome_reader::{delivery, outcome, verdict};
use crate::words::Words;
use std::alloc::Global;

#[tactic(auto, unfolding(crate::specs::LineForms::refusal_form))]
fn refusal(words: &mut Words) -> Result<Refusal, EventErr>
    ensures { Reads (reads refusal_form words.old) result words.new }
{
    by_table!(words.word()?;
        b"busy" => Refusal::Busy,
        b"badrange" => Refusal::BadRange,
        b"slotspent" => Refusal::SlotSpent;
        else Err(EventErr::UnknownWord)
    )
}

#[tactic(auto, unfolding(crate::specs::LineForms::yes_or_no_form))]
fn yes_or_no(words: &mut Words) -> Result<bool, EventErr>
    ensures { Reads (reads yes_or_no_form words.old) result words.new }
{
    by_table!(words.word()?;
        b"yes" => true,
        b"no" => false;
        else Err(EventErr::UnknownWord)
    )
}

fn last(words: &mut Words) -> Result<Line, EventErr>
    ensures { Reads (reads last_form words.old) result words.new }
{
    let calm = yes_or_no(words)?;
    by_table!(words.word()?;
        b"unguessed" => Line::Last { calm, unguessed: yes_or_no(words)? };
        else Err(EventErr::UnknownWord)
    )
}

// The line of its first word.
fn line_of(alloc: Global, what: LineWord, words: &mut Words) -> Result<Line, EventErr>
    ensures { Gives (reads (line_form_of what) words.old) result words.new }
{
    by_kind!(what;
        LineWord::Event => Line::Event { event: event(alloc, Digits::Lower, words)? },
        LineWord::Message => Line::Message {
            message: words.u64()?,
            from: words.party()?,
            to: words.party()?,
            bytes: words.bytes(alloc, Digits::Lower)?,
        },
        LineWord::Delivered => Line::Delivered { message: words.u64()?, delivery: delivery(words)? },
        LineWord::Judged => Line::Judged { drive: words.name()?, verdict: verdict(words)? },
        LineWord::TimedOut => Line::TimedOut { client: words.name()?, component: words.u32()? },
        LineWord::Ended => Line::Ended { client: words.name()?, outcome: outcome(alloc, words)? },
        LineWord::Refused => Line::Refused { client: words.name()?, refusal: refusal(words)? },
        LineWord::Note => Line::Note { file: words.name()?, note: note(alloc, words)? },
        LineWord::Last => last(words)?,
    )
}

// The line of its words, or the refusal of the first wrong one.
#[tactic(auto, unfolding(crate::specs::LineForms::line_by))]
fn line(alloc: Global, words: &mut Words) -> Result<Line, EventErr>
    ensures { Gives (reads line_form words.old) result words.new }
{
    match line_word(words.word()?) {
        Some(what) => line_of(alloc, what, words),
        None => Err(EventErr::UnknownWord),
    }
}

fn text_line(alloc: Global, text: &[u8]) -> Result<Line, EventErr>
    ensures { GivesOrMemory (reads_line line_form (words_of text.now)) result }
{
    let mut words = Words::new(text, b' ');
    let line = line(alloc, &mut words)?;
    words.end()?;
    Ok(line)
}

/// The line of a transcript that a text without its newline spells. A line has one spelling, so that
/// [`crate::write_line`] writes the same text again.
///
/// Errors: the first wrong word from the left decides, as in [`crate::read_event`]; a hexadecimal digit
/// in upper case is `BadHex`. A position that doesn't rise is `BadNumber`. `Memory` is want of memory.
pub fn read_line(alloc: Global, text: &[u8]) -> Result<Line, EventErr>
    ensures found { IfOk result (λ l. LineFits l × (text.now ≡ line_text l)) }
    ensures only { (l : Line) → LineFits l → text.now ≡ line_text l → GivesLine l result }
    ensures refused { IfErr result (IsLineRefusal text.now) }
{
    text_line(alloc, text)
}
