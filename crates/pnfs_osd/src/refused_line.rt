// What a person is told of a line of the input that was refused.
use advice::line_of;
use osd_links::Printable;
use pnfs_run::replay::ScenarioKind;
use scenario_text::EventErr;
use std::alloc::{AllocError, Global};

// The longest part of a line that is shown.
const MOST_SHOWN: usize = 120;

fn event_text(e: EventErr) -> &'static str {
    match e {
        EventErr::UnknownWord => "a word stands here that isn't one of its place",
        EventErr::BadName => "a name is wanted, as d0 (to d63), c0 (to c15), f0 (to f63) or s",
        EventErr::BadNumber =>
            "a number of its place's range is wanted, in decimal digits without leading zeros; the algorithm of a file is 1 to 4",
        EventErr::BadHex => "bytes are wanted as pairs of hexadecimal digits, or - for none",
        EventErr::Missing => "a word is lacking at the end",
        EventErr::Extra => "there is a word too many, or a second blank",
        EventErr::Memory => "there was no memory",
    }
}

// Why a line was refused, in words.
fn text_of(alloc: Global, kind: ScenarioKind) -> Result<String, AllocError> {
    match kind {
        ScenarioKind::Event(e) => String::from_str(alloc, event_text(e)),
        ScenarioKind::World(e) => format!(in alloc; "{e}"),
        ScenarioKind::BadHex => String::from_str(
            alloc,
            "a structure is wanted as pairs of hexadecimal digits",
        ),
    }
}

// The line, as far as it is shown.
fn shown(line: &[u8]) -> &[u8] {
    let (shown, _) = line.split_at(line.len().min(MOST_SHOWN));
    shown
}

/// What a person is told of the line of this number: what it was refused for, in words, and the line itself.
pub fn refused_line(
    alloc: Global,
    number: u64,
    kind: ScenarioKind,
    input: Option<&[u8]>,
) -> Result<String, AllocError> {
    let why = text_of(alloc, kind)?;
    let why = why.as_str();
    let line = match input {
        Some(input) => line_of(input, number),
        None => None,
    };
    match line {
        Some(line) => {
            let line = Printable::new(shown(line));
            format!(in alloc; "pnfs_osd: line {number}: {why}\n    {line}\n")
        }
        None => format!(in alloc; "pnfs_osd: line {number}: {why}\n"),
    }
}
