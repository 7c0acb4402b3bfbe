ghost use Rattle.scenario_text.specs.Form.{Choose, reads, Reads, Gives};
ghost use Rattle.scenario_text.specs.LineForms.{kind_form, layout_fault_form, numbered_verdict_by, verdict_by};
ghost use Rattle.scenario_text.specs.LineForms.{verdict_form, delivery_by, ending_form_of, ending_by, done_form};
ghost use Rattle.scenario_text.specs.LineForms.{outcome_by, outcome_form};

use crate::by_table::{by_kind, by_table};
use crate::event::EventErr;
use crate::hexadecimal::Digits;
use crate::keyword::call_kind;
use crate::line::{CallKind, Delivery, Ending, LayoutFault, Outcome, Verdict};
use crate::line_keyword::{
    EndingWord, ending_word, layout_fault as layout_fault_named, plain_verdict,
};
use crate::words::Words;
use std::alloc::Global;

#[tactic(auto, unfolding(crate::specs::LineForms::numbered_verdict_by))]
fn numbered_verdict(word: &[u8], words: &mut Words) -> Result<Verdict, EventErr>
    ensures { Reads (reads (numbered_verdict_by word.now) words.old) result words.new }
{
    by_table!(word;
        b"tag" => Verdict::Tag { current: words.u32()? },
        b"nospace" => Verdict::NoSpace { free: words.u64()? },
        b"stale" => Verdict::Stale { last: words.u64()? };
        else Err(EventErr::UnknownWord)
    )
}

// The verdict behind its first word.
#[tactic(auto, unfolding(crate::specs::LineForms::verdict_by))]
fn verdict_of(word: &[u8], words: &mut Words) -> Result<Verdict, EventErr>
    ensures { Reads (reads (verdict_by word.now) words.old) result words.new }
{
    match plain_verdict(word) {
        Some(verdict) => Ok(verdict),
        None => numbered_verdict(word, words),
    }
}

pub(crate) fn verdict(words: &mut Words) -> Result<Verdict, EventErr>
    ensures { Reads (reads verdict_form words.old) result words.new }
{
    let word = words.word()?;
    verdict_of(word, words)
}

#[tactic(auto, unfolding(crate::specs::LineForms::delivery_by))]
pub(crate) fn delivery(words: &mut Words) -> Result<Delivery, EventErr>
    ensures { Reads (reads (Choose delivery_by) words.old) result words.new }
{
    let word = words.word()?;
    by_table!(word;
        b"deaf" => Delivery::Deaf,
        b"taken" => Delivery::Taken;
        else Ok(Delivery::Judged { verdict: verdict_of(word, words)? })
    )
}

fn layout_fault(words: &mut Words) -> Result<LayoutFault, EventErr>
    ensures { Reads (reads layout_fault_form words.old) result words.new }
{
    match layout_fault_named(words.word()?) {
        Some(why) => Ok(why),
        None => Err(EventErr::UnknownWord),
    }
}

// The ending of its first word.
fn ending(alloc: Global, what: EndingWord, words: &mut Words) -> Result<Ending, EventErr>
    ensures { Gives (reads (ending_form_of what) words.old) result words.new }
{
    by_kind!(what;
        EndingWord::NoFile => Ending::NoFile,
        EndingWord::Held => Ending::Held { client: words.name()? },
        EndingWord::Fencing => Ending::Fencing { component: words.u32()? },
        EndingWord::Degraded => Ending::Degraded { component: words.u32()? },
        EndingWord::Spent => Ending::Spent,
        EndingWord::Status => Ending::Status { status: words.u32()?, detail: words.u32()? },
        EndingWord::Refused => Ending::Refused { drive: words.name()?, verdict: verdict(words)? },
        EndingWord::Silent => Ending::Silent { component: words.u32()? },
        EndingWord::Lost => Ending::Lost { positions: words.positions(alloc)? },
        EndingWord::BadLayout => Ending::BadLayout { why: layout_fault(words)? },
        EndingWord::Pending => Ending::Pending,
    )
}

#[tactic(auto, unfolding(crate::specs::LineForms::ending_by))]
fn ending_of(alloc: Global, word: &[u8], words: &mut Words) -> Result<Ending, EventErr>
    ensures { Gives (reads (ending_by word.now) words.old) result words.new }
{
    match ending_word(word) {
        Some(what) => ending(alloc, what, words),
        None => Err(EventErr::UnknownWord),
    }
}

fn kind(words: &mut Words) -> Result<CallKind, EventErr>
    ensures { Reads (reads kind_form words.old) result words.new }
{
    match call_kind(words.word()?) {
        Some(kind) => Ok(kind),
        None => Err(EventErr::UnknownWord),
    }
}

fn done(alloc: Global, call: CallKind, words: &mut Words) -> Result<Outcome, EventErr>
    ensures { Gives (reads (done_form call) words.old) result words.new }
{
    match call {
        CallKind::Write => Ok(Outcome::WriteOk {
            length: words.u64()?,
        }),
        CallKind::Read => Ok(Outcome::ReadOk {
            bytes: words.bytes(alloc, Digits::Lower)?,
        }),
    }
}

#[tactic(auto, unfolding(crate::specs::LineForms::outcome_by))]
fn outcome_of(
    alloc: Global,
    call: CallKind,
    word: &[u8],
    words: &mut Words,
) -> Result<Outcome, EventErr>
    ensures { Gives (reads (outcome_by call word.now) words.old) result words.new }
{
    by_table!(word;
        b"ok" => done(alloc, call, words)?;
        else Ok(Outcome::Failed { call, ending: ending_of(alloc, word, words)? })
    )
}

pub(crate) fn outcome(alloc: Global, words: &mut Words) -> Result<Outcome, EventErr>
    ensures { Gives (reads outcome_form words.old) result words.new }
{
    let call = kind(words)?;
    let word = words.word()?;
    outcome_of(alloc, call, word, words)
}
