ghost use Rattle.std.specs.Prelude.{◌≡◌, ◌↔◌, Ok, Err, IfOk, IfErr, IfSome, IsTrue};
ghost use Rattle.scenario_text.specs.Reading.{GivesOrMemory};
ghost use Rattle.scenario_text.specs.Form.{reads, reads_line, Reads, Gives};
ghost use Rattle.scenario_text.specs.EventForms.{call_form_of, call_form, map_form, setup_form, traffic_form};
ghost use Rattle.scenario_text.specs.EventForms.{upkeep_form, event_by, event_form};
ghost use Rattle.scenario_text.specs.declared.event.Event.{Event};
ghost use Rattle.scenario_text.specs.declared.hexadecimal.Digits.TheVariants.{Either};
ghost use Rattle.scenario_text.specs.Words.{words_of};
ghost use Rattle.scenario_text.specs.Spelling.{Fits, Spells, IsSkipped, GivesEvent};
ghost use Rattle.scenario_text.specs.Refusals.{IsRefusal};

use crate::by_table::by_kind;
use crate::event::{Call, Event, EventErr, FileMap};
use crate::hexadecimal::Digits;
use crate::keyword::{
    SetupWord, TrafficWord, UpkeepWord, call_kind, setup_word, traffic_word, upkeep_word,
};
use crate::line::CallKind;
use crate::words::Words;
use std::alloc::Global;

// The call of that kind.
fn call_of(
    alloc: Global,
    digits: Digits,
    what: CallKind,
    words: &mut Words,
) -> Result<Call, EventErr>
    ensures { Gives (reads (call_form_of digits what) words.old) result words.new }
{
    by_kind!(what;
        CallKind::Write => Call::Write {
            file: words.name()?,
            offset: words.u64()?,
            bytes: words.bytes(alloc, digits)?,
        },
        CallKind::Read => Call::Read { file: words.name()?, offset: words.u64()?, length: words.u64()? },
    )
}

#[tactic(auto, unfolding(crate::specs::EventForms::call_by))]
fn call(alloc: Global, digits: Digits, words: &mut Words) -> Result<Call, EventErr>
    ensures { Gives (reads (call_form digits) words.old) result words.new }
{
    match call_kind(words.word()?) {
        Some(what) => call_of(alloc, digits, what, words),
        None => Err(EventErr::UnknownWord),
    }
}

#[tactic(auto, unfolding(crate::specs::EventForms::map_form))]
fn map(words: &mut Words) -> Result<FileMap, EventErr>
    ensures { Reads (reads map_form words.old) result words.new }
{
    Ok(FileMap {
        components: words.u32()?,
        unit: words.u64()?,
        width: words.u32()?,
        depth: words.u32()?,
        mirrors: words.u32()?,
        algorithm: words.u32_in(1, 4)?,
    })
}

// What makes parties or settings.
fn setup(digits: Digits, what: SetupWord, words: &mut Words) -> Result<Event, EventErr>
    ensures { Reads (reads (setup_form digits what) words.old) result words.new }
{
    by_kind!(what;
        SetupWord::Drive => Event::Drive { drive: words.name()?, key: words.key(digits)?, capacity: words.u64()? },
        SetupWord::Disk => Event::Disk { drive: words.name()?, key: words.key(digits)?, capacity: words.u64()? },
        SetupWord::Client => Event::Client { client: words.name()? },
        SetupWord::File => Event::File { file: words.name()?, map: map(words)?, tag: words.tag()? },
        SetupWord::ZonedFile => Event::ZonedFile { file: words.name()?, map: map(words)?, tag: words.tag()? },
        SetupWord::Zone => Event::Zone { drive: words.name()?, zone: words.u32()? },
        SetupWord::Least => Event::Least { drive: words.name()?, format: words.format()? },
        SetupWord::Format => {
            words.server()?;
            Event::Format { format: words.format()? }
        },
    )
}

// An event of calls or messages.
fn traffic(
    alloc: Global,
    digits: Digits,
    what: TrafficWord,
    words: &mut Words,
) -> Result<Event, EventErr>
    ensures { Gives (reads (traffic_form digits what) words.old) result words.new }
{
    by_kind!(what;
        TrafficWord::Do => Event::Do { client: words.name()?, call: call(alloc, digits, words)? },
        TrafficWord::Call => Event::Call { client: words.name()?, call: call(alloc, digits, words)? },
        TrafficWord::Deliver => Event::Deliver { message: words.u64()? },
        TrafficWord::Drop => Event::DropMessage { message: words.u64()? },
        TrafficWord::Settle => Event::Settle,
        TrafficWord::Resend => Event::Resend { sender: words.sender()? },
        TrafficWord::Timeout => Event::Timeout { client: words.name()?, component: words.u32()? },
        TrafficWord::Leave => Event::Leave { client: words.name()? },
        TrafficWord::Inject => Event::Inject { drive: words.name()?, bytes: words.bytes(alloc, digits)? },
    )
}

// An event of the server's work, of clocks or of faults.
fn upkeep(what: UpkeepWord, words: &mut Words) -> Result<Event, EventErr>
    ensures { Reads (reads (upkeep_form what) words.old) result words.new }
{
    by_kind!(what;
        UpkeepWord::Clock => Event::Clock { machine: words.machine()?, time: words.u64()? },
        UpkeepWord::Recall => Event::Recall { file: words.name()? },
        UpkeepWord::Revoke => Event::Revoke { file: words.name()? },
        UpkeepWord::Rebuild => Event::Rebuild { file: words.name()? },
        UpkeepWord::Audit => Event::Audit { file: words.name()? },
        UpkeepWord::Declare => Event::Declare { drive: words.name()? },
        UpkeepWord::Stop => Event::Stop { client: words.name()? },
        UpkeepWord::Fail => Event::Fail { drive: words.name()? },
        UpkeepWord::Crash => Event::Crash { machine: words.machine()? },
        UpkeepWord::Reopen => Event::Reopen { machine: words.machine()? },
    )
}

// The event of a line behind its first word.
#[tactic(auto, unfolding(crate::specs::EventForms::event_by))]
fn event_of(
    alloc: Global,
    digits: Digits,
    word: &[u8],
    words: &mut Words,
) -> Result<Event, EventErr>
    ensures { Gives (reads (event_by digits word.now) words.old) result words.new }
{
    if let Some(what) = setup_word(word) {
        return setup(digits, what, words);
    }
    if let Some(what) = traffic_word(word) {
        return traffic(alloc, digits, what, words);
    }
    match upkeep_word(word) {
        Some(what) => upkeep(what, words),
        None => Err(EventErr::UnknownWord),
    }
}

// The event of a line's words, or the refusal of the first wrong one.
pub(crate) fn event(alloc: Global, digits: Digits, words: &mut Words) -> Result<Event, EventErr>
    ensures { Gives (reads (event_form digits) words.old) result words.new }
{
    let word = words.word()?;
    event_of(alloc, digits, word, words)
}

fn line_event(alloc: Global, line: &[u8]) -> Result<Event, EventErr>
    ensures { GivesOrMemory (reads_line (event_form Either) (words_of line.now)) result }
{
    let mut words = Words::new(line, b' ');
    let event = event(alloc, Digits::Either, &mut words)?;
    words.end()?;
    Ok(event)
}

fn is_skipped(line: &[u8]) -> bool
    ensures { IsTrue result ↔ IsSkipped line.now }
{
    match line {
        [] | [b'#', ..] => true,
        _ => false,
    }
}

/// The event of a line of a scenario, which stands without its newline, or `None` for an empty line
/// and for one that begins with `#`.
///
/// The words of a line are separated by single spaces: the event's own word, and those of its parts.
/// Names are `d0` to `d63`, `c0` to `c15` and `f0` to `f63`, and `s` for the server. Numbers are decimal,
/// without leading zeros, in the range of their place. Bytes are pairs of hexadecimal digits of either
/// case, or `-` for none.
///
/// Errors: the first wrong word from the left decides. `UnknownWord`, `BadName`, `BadNumber` and `BadHex`
/// say that the word isn't one of its place, `Missing` that it is lacking, `Extra` that it is one too
/// many. `Memory` is want of memory.
pub fn read_event(alloc: Global, line: &[u8]) -> Result<Option<Event>, EventErr>
    ensures skipped { IsSkipped line.now ↔ (result ≡ Ok None) }
    ensures found { IfOk result (λ o. IfSome o (λ e. Fits e × Spells e line.now)) }
    ensures only { (e : Event) → Fits e → Spells e line.now → GivesEvent e result }
    ensures refused { IfErr result (IsRefusal line.now) }
{
    if is_skipped(line) {
        return Ok(None);
    }
    let event = line_event(alloc, line)?;
    Ok(Some(event))
}
