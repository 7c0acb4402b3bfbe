ghost use Rattle.std.specs.Prelude.{◌≡◌, ◌++◌, ◌∷◌, [], map, codes, decimal, IfOk, OnOk};
ghost use Rattle.scenario_text.specs.Words.{behind};
ghost use Rattle.scenario_text.specs.Parts.{word_of};
ghost use Rattle.scenario_text.specs.Written.{written};
ghost use Rattle.scenario_text.specs.LineSpelling.{party_part, kind_word, layout_fault_word, map_fault_word};
ghost use Rattle.scenario_text.specs.LineSpelling.{refusal_word, yes_or_no, verdict_parts, delivery_parts};
ghost use Rattle.scenario_text.specs.LineSpelling.{ending_parts, outcome_parts, note_parts, head_word, tail_parts};
ghost use Rattle.scenario_text.specs.LineSpelling.{last_words, line_text, lines_text, SpellsItsEvent};

use crate::event_writer::put_event;
use crate::line::{
    CallKind, Delivery, Ending, LayoutFault, Line, MapFault, Note, Outcome, Party, Refusal, Verdict,
};
use crate::write::Word::{Fixed, Hex, Number, Positions};
use crate::write::{Word, named, put, small};
use osd_lists::{Bytes, Memory};
use std::alloc::Global;

fn party_word<'a>(party: &Party) -> Word<'a>
    ensures { written result ≡ word_of (party_part party.now) }
{
    match party {
        Party::Drive { drive } => named(drive),
        Party::Client { client } => named(client),
        Party::Server => Fixed(b"s"),
    }
}

fn kind_text(kind: CallKind) -> &'static [u8]
    ensures { result.now ≡ kind_word kind }
{
    match kind {
        CallKind::Write => b"write",
        CallKind::Read => b"read",
    }
}

fn layout_fault_text(why: LayoutFault) -> &'static [u8]
    ensures { result.now ≡ layout_fault_word why }
{
    match why {
        LayoutFault::Unreadable => b"Unreadable",
        LayoutFault::Index => b"Index",
        LayoutFault::Partial => b"Partial",
        LayoutFault::Ssv => b"Ssv",
        LayoutFault::Map => b"Map",
        LayoutFault::Credential => b"Credential",
    }
}

fn map_fault_text(why: MapFault) -> &'static [u8]
    ensures { result.now ≡ map_fault_word why }
{
    match why {
        MapFault::Unit => b"Unit",
        MapFault::TooMany => b"TooMany",
        MapFault::TooFew => b"TooFew",
        MapFault::Multiple => b"Multiple",
        MapFault::Width => b"Width",
        MapFault::Depth => b"Depth",
    }
}

fn refusal_text(why: Refusal) -> &'static [u8]
    ensures { result.now ≡ refusal_word why }
{
    match why {
        Refusal::Busy => b"busy",
        Refusal::BadRange => b"badrange",
        Refusal::SlotSpent => b"slotspent",
    }
}

fn yes_or_no_text(yes: bool) -> &'static [u8]
    ensures { result.now ≡ yes_or_no yes }
{
    if yes { b"yes" } else { b"no" }
}

fn put_verdict(out: &mut Bytes, verdict: Verdict) -> Result<(), Memory>
    ensures { OnOk result (out.new ≡ out.old ++ behind 32 (map word_of (verdict_parts verdict))) }
{
    match verdict {
        Verdict::Perform => put(out, &[Fixed(b"perform")]),
        Verdict::Again => put(out, &[Fixed(b"again")]),
        Verdict::NoKey => put(out, &[Fixed(b"nokey")]),
        Verdict::CheckValue => put(out, &[Fixed(b"checkvalue")]),
        Verdict::Expired => put(out, &[Fixed(b"expired")]),
        Verdict::Rights => put(out, &[Fixed(b"rights")]),
        Verdict::WrongObject => put(out, &[Fixed(b"wrongobject")]),
        Verdict::Range => put(out, &[Fixed(b"range")]),
        Verdict::NoObject => put(out, &[Fixed(b"noobject")]),
        Verdict::Exists => put(out, &[Fixed(b"exists")]),
        Verdict::Tag { current } => put(out, &[Fixed(b"tag"), small(current)]),
        Verdict::Limit => put(out, &[Fixed(b"limit")]),
        Verdict::NoSpace { free } => put(out, &[Fixed(b"nospace"), Number(free)]),
        Verdict::LaneFull => put(out, &[Fixed(b"lanefull")]),
        Verdict::Stale { last } => put(out, &[Fixed(b"stale"), Number(last)]),
        Verdict::AttrFull => put(out, &[Fixed(b"attrfull")]),
        Verdict::Format => put(out, &[Fixed(b"format")]),
        Verdict::OldFormat => put(out, &[Fixed(b"oldformat")]),
    }
}

fn put_delivery(out: &mut Bytes, delivery: &Delivery) -> Result<(), Memory>
    ensures { OnOk result (out.new ≡ out.old ++ behind 32 (map word_of (delivery_parts delivery.now))) }
{
    match delivery {
        Delivery::Deaf => put(out, &[Fixed(b"deaf")]),
        Delivery::Taken => put(out, &[Fixed(b"taken")]),
        Delivery::Judged { verdict } => put_verdict(out, *verdict),
    }
}

fn put_ending(out: &mut Bytes, ending: &Ending) -> Result<(), Memory>
    ensures { OnOk result (out.new ≡ out.old ++ behind 32 (map word_of (ending_parts ending.now))) }
{
    match ending {
        Ending::NoFile => put(out, &[Fixed(b"nofile")]),
        Ending::Held { client } => put(out, &[Fixed(b"held"), named(client)]),
        Ending::Fencing { component } => put_count(out, b"fencing", *component),
        Ending::Degraded { component } => put_count(out, b"degraded", *component),
        Ending::Spent => put(out, &[Fixed(b"spent")]),
        Ending::Status { status, detail } => {
            let words = [Fixed(b"status"), small(*status), small(*detail)];
            put(out, &words)
        }
        Ending::Refused { drive, verdict } => {
            put(out, &[Fixed(b"refused"), named(drive)])?;
            put_verdict(out, *verdict)
        }
        Ending::Silent { component } => put_count(out, b"silent", *component),
        Ending::Lost { positions } => {
            let lost = Positions(positions.as_slice());
            put(out, &[Fixed(b"lost"), lost])
        }
        Ending::BadLayout { why } => {
            let why = Fixed(layout_fault_text(*why));
            put(out, &[Fixed(b"badlayout"), why])
        }
        Ending::Pending => put(out, &[Fixed(b"pending")]),
    }
}

fn put_outcome(out: &mut Bytes, outcome: &Outcome) -> Result<(), Memory>
    ensures { OnOk result (out.new ≡ out.old ++ behind 32 (map word_of (outcome_parts outcome.now))) }
{
    match outcome {
        Outcome::WriteOk { length } => {
            let count = Number(*length);
            put(out, &[Fixed(b"write"), Fixed(b"ok"), count])
        }
        Outcome::ReadOk { bytes } => {
            let hex = Hex(bytes.as_slice());
            put(out, &[Fixed(b"read"), Fixed(b"ok"), hex])
        }
        Outcome::Failed { call, ending } => {
            put(out, &[Fixed(kind_text(*call))])?;
            put_ending(out, ending)
        }
    }
}

// Adds a word and a number.
fn put_count(out: &mut Bytes, word: &[u8], n: u32) -> Result<(), Memory>
    ensures { OnOk result (out.new ≡ out.old ++ behind 32 (word.now ∷ decimal n ∷ [])) }
{
    put(out, &[Fixed(word), small(n)])
}

// Adds a word and two numbers.
fn put_sums(out: &mut Bytes, word: &[u8], m: u64, n: u64) -> Result<(), Memory>
    ensures { OnOk result (out.new ≡ out.old ++ behind 32 (word.now ∷ decimal m ∷ decimal n ∷ [])) }
{
    put(out, &[Fixed(word), Number(m), Number(n)])
}

// Adds why a file wasn't made.
fn put_refused(out: &mut Bytes, why: &[u8]) -> Result<(), Memory>
    ensures { OnOk result (out.new ≡ out.old ++ behind 32 (codes "refused" ∷ why.now ∷ [])) }
{
    put(out, &[Fixed(b"refused"), Fixed(why)])
}

// Adds why a file wasn't made, and how many drives there are.
fn put_few(out: &mut Bytes, why: &[u8], online: u32) -> Result<(), Memory>
    ensures { OnOk result (out.new ≡ out.old ++ behind 32 (codes "refused" ∷ why.now ∷ decimal online ∷ [])) }
{
    put_refused(out, why)?;
    put(out, &[small(online)])
}

fn put_note(out: &mut Bytes, note: &Note) -> Result<(), Memory>
    ensures { OnOk result (out.new ≡ out.old ++ behind 32 (map word_of (note_parts note.now))) }
{
    match note {
        Note::Ready => put(out, &[Fixed(b"ready")]),
        Note::Fenced { tag } => put_count(out, b"fenced", *tag),
        Note::Repaired { stripes, short } => put_sums(out, b"repaired", *stripes, *short),
        Note::Rebuilt { component, drive } => {
            put_count(out, b"rebuilt", *component)?;
            put(out, &[named(drive)])
        }
        Note::NoDrive { component } => put_count(out, b"nodrive", *component),
        Note::Lost {
            component,
            positions,
        } => {
            put_count(out, b"lost", *component)?;
            put(out, &[Positions(positions.as_slice())])
        }
        Note::NoSpace { component } => put_count(out, b"nospace", *component),
        Note::Audited {
            stripes,
            short,
            bad,
            bytes,
        } => {
            put_sums(out, b"audit", *stripes, *short)?;
            put(out, &[Number(*bad), Number(*bytes)])
        }
        Note::Busy { component } => put_count(out, b"busy", *component),
        Note::Spent => put(out, &[Fixed(b"spent")]),
        Note::Reported { component } => put_count(out, b"reported", *component),
        Note::Exists => put_refused(out, b"exists"),
        Note::BadMap { why } => {
            put_refused(out, b"badmap")?;
            put(out, &[Fixed(map_fault_text(*why))])
        }
        Note::TooFew { online } => put_few(out, b"toofew", *online),
        Note::NoSpread { online } => put_few(out, b"nospread", *online),
    }
}

fn put_last(out: &mut Bytes, calm: bool, unguessed: bool) -> Result<(), Memory>
    ensures { OnOk result (out.new ≡ out.old ++ behind 32 (last_words calm unguessed)) }
{
    let calm = Fixed(yes_or_no_text(calm));
    let unguessed = Fixed(yes_or_no_text(unguessed));
    put(out, &[calm, Fixed(b"unguessed"), unguessed])
}

// Adds the words behind the first one.
fn put_line(out: &mut Bytes, line: &Line) -> Result<(), Memory>
    ensures { OnOk result (out.new ≡ out.old ++ behind 32 (map word_of (tail_parts line.now))) }
{
    match line {
        Line::Event { event } => put_event(out, event),
        Line::Message {
            message,
            from,
            to,
            bytes,
        } => {
            let (from, to) = (party_word(from), party_word(to));
            let hex = Hex(bytes.as_slice());
            put(out, &[Number(*message), from, to, hex])
        }
        Line::Delivered { message, delivery } => {
            put(out, &[Number(*message)])?;
            put_delivery(out, delivery)
        }
        Line::Judged { drive, verdict } => {
            put(out, &[named(drive)])?;
            put_verdict(out, *verdict)
        }
        Line::TimedOut { client, component } => put(out, &[named(client), small(*component)]),
        Line::Ended { client, outcome } => {
            put(out, &[named(client)])?;
            put_outcome(out, outcome)
        }
        Line::Refused { client, refusal } => {
            let why = Fixed(refusal_text(*refusal));
            put(out, &[named(client), why])
        }
        Line::Note { file, note } => {
            put(out, &[named(file)])?;
            put_note(out, note)
        }
        Line::Last { calm, unguessed } => put_last(out, *calm, *unguessed),
    }
}

fn head(line: &Line) -> &'static [u8]
    ensures { result.now ≡ head_word line.now }
{
    match line {
        Line::Event { .. } => b"=",
        Line::Message { .. } => b"m",
        Line::Delivered { .. } => b"d",
        Line::Judged { .. } => b"j",
        Line::TimedOut { .. } => b"t",
        Line::Ended { .. } => b"o",
        Line::Refused { .. } => b"x",
        Line::Note { .. } => b"f",
        Line::Last { .. } => b"calm",
    }
}

// The room that the text of one line is given at first: most lines that show no bytes are shorter.
const LINE: usize = 64;

// Adds the text of a line, without its newline.
fn append_line(out: &mut Bytes, line: &Line) -> Result<(), Memory>
    ensures { OnOk result (out.new ≡ out.old ++ (head_word line.now ++ behind 32 (map word_of (tail_parts line.now)))) }
{
    out.extend_from_slice(head(line))?;
    put_line(out, line)
}

fn line_bytes(alloc: Global, line: &Line) -> Result<Bytes, Memory>
    ensures { IfOk result (λ text. text ≡ head_word line.now ++ behind 32 (map word_of (tail_parts line.now))) }
{
    let mut out = Bytes::with_capacity(alloc, LINE)?;
    append_line(&mut out, line)?;
    Ok(out)
}

/// The text of a line of a transcript, without its newline. Hexadecimal digits are in lower case.
///
/// The text of an event's line is `= ` and a text that [`crate::read_event`] reads as the event.
pub fn write_line(alloc: Global, line: &Line) -> Result<Bytes, Memory>
    ensures text { IfOk result (λ text. text ≡ line_text line.now) }
    ensures spells { IfOk result (SpellsItsEvent line.now) }
{
    line_bytes(alloc, line)
}

/// A text, and behind it the text of the lines of a history, each with its newline.
///
/// The text goes on in the memory that it has, so a text that was emptied by
/// [`truncate`](osd_lists::Sequence::truncate) lends its room to the next one.
///
/// # Errors
///
/// `Memory`, where the text can't grow. It is given up then.
pub fn append_lines(text: Bytes, lines: &[Line]) -> Result<Bytes, Memory>
    ensures { IfOk result (λ longer. longer ≡ text ++ lines_text lines.now) }
{
    let mut longer = text;
    for line in lines {
        append_line(&mut longer, line)?;
        longer.push(b'\n')?;
    }
    Ok(longer)
}

/// The text of the lines of a history, each with its newline.
pub fn write_lines(alloc: Global, lines: &[Line]) -> Result<Bytes, Memory>
    ensures { IfOk result (λ text. text ≡ lines_text lines.now) }
{
    append_lines(Bytes::new(alloc), lines)
}
