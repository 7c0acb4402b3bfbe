// The words of transcripts.
ghost use Rattle.std.specs.Prelude.{◌≡◌};
ghost use Rattle.scenario_text.specs.LineForms.{layout_fault_of, map_fault_of, plain_verdict_of, ending_word_of};
ghost use Rattle.scenario_text.specs.LineForms.{note_word_of, line_word_of};

use crate::keyword::value_of;
use crate::line::{LayoutFault, MapFault, Verdict};

// The endings of calls.
#[derive(Clone, Copy)]
pub(crate) enum EndingWord {
    NoFile,
    Held,
    Fencing,
    Degraded,
    Spent,
    Status,
    Refused,
    Silent,
    Lost,
    BadLayout,
    Pending,
}

// The server's notes on a file.
#[derive(Clone, Copy)]
pub(crate) enum NoteWord {
    Ready,
    Fenced,
    Repaired,
    Rebuilt,
    NoDrive,
    Lost,
    NoSpace,
    Audited,
    Busy,
    Spent,
    Reported,
    Refused,
}

// The lines of a transcript.
#[derive(Clone, Copy)]
pub(crate) enum LineWord {
    Event,
    Message,
    Delivered,
    Judged,
    TimedOut,
    Ended,
    Refused,
    Note,
    Last,
}

const ENDING_WORDS: [(&[u8], EndingWord); 11] = [
    (b"nofile", EndingWord::NoFile),
    (b"held", EndingWord::Held),
    (b"fencing", EndingWord::Fencing),
    (b"degraded", EndingWord::Degraded),
    (b"spent", EndingWord::Spent),
    (b"status", EndingWord::Status),
    (b"refused", EndingWord::Refused),
    (b"silent", EndingWord::Silent),
    (b"lost", EndingWord::Lost),
    (b"badlayout", EndingWord::BadLayout),
    (b"pending", EndingWord::Pending),
];

const NOTE_WORDS: [(&[u8], NoteWord); 12] = [
    (b"ready", NoteWord::Ready),
    (b"fenced", NoteWord::Fenced),
    (b"repaired", NoteWord::Repaired),
    (b"rebuilt", NoteWord::Rebuilt),
    (b"nodrive", NoteWord::NoDrive),
    (b"lost", NoteWord::Lost),
    (b"nospace", NoteWord::NoSpace),
    (b"audit", NoteWord::Audited),
    (b"busy", NoteWord::Busy),
    (b"spent", NoteWord::Spent),
    (b"reported", NoteWord::Reported),
    (b"refused", NoteWord::Refused),
];

const LINE_WORDS: [(&[u8], LineWord); 9] = [
    (b"=", LineWord::Event),
    (b"m", LineWord::Message),
    (b"d", LineWord::Delivered),
    (b"j", LineWord::Judged),
    (b"t", LineWord::TimedOut),
    (b"o", LineWord::Ended),
    (b"x", LineWord::Refused),
    (b"f", LineWord::Note),
    (b"calm", LineWord::Last),
];

const LAYOUT_FAULTS: [(&[u8], LayoutFault); 6] = [
    (b"Unreadable", LayoutFault::Unreadable),
    (b"Index", LayoutFault::Index),
    (b"Partial", LayoutFault::Partial),
    (b"Ssv", LayoutFault::Ssv),
    (b"Map", LayoutFault::Map),
    (b"Credential", LayoutFault::Credential),
];

const MAP_FAULTS: [(&[u8], MapFault); 6] = [
    (b"Unit", MapFault::Unit),
    (b"TooMany", MapFault::TooMany),
    (b"TooFew", MapFault::TooFew),
    (b"Multiple", MapFault::Multiple),
    (b"Width", MapFault::Width),
    (b"Depth", MapFault::Depth),
];

// The verdicts without a number.
const PLAIN_VERDICTS: [(&[u8], Verdict); 15] = [
    (b"perform", Verdict::Perform),
    (b"again", Verdict::Again),
    (b"nokey", Verdict::NoKey),
    (b"checkvalue", Verdict::CheckValue),
    (b"expired", Verdict::Expired),
    (b"rights", Verdict::Rights),
    (b"wrongobject", Verdict::WrongObject),
    (b"range", Verdict::Range),
    (b"noobject", Verdict::NoObject),
    (b"exists", Verdict::Exists),
    (b"limit", Verdict::Limit),
    (b"lanefull", Verdict::LaneFull),
    (b"attrfull", Verdict::AttrFull),
    (b"format", Verdict::Format),
    (b"oldformat", Verdict::OldFormat),
];

#[tactic(auto, unfolding(crate::specs::LineForms::ending_word_of))]
pub(crate) fn ending_word(word: &[u8]) -> Option<EndingWord>
    ensures { result ≡ ending_word_of word.now }
{
    value_of(&ENDING_WORDS, word)
}

#[tactic(auto, unfolding(crate::specs::LineForms::note_word_of))]
pub(crate) fn note_word(word: &[u8]) -> Option<NoteWord>
    ensures { result ≡ note_word_of word.now }
{
    value_of(&NOTE_WORDS, word)
}

#[tactic(auto, unfolding(crate::specs::LineForms::line_word_of))]
pub(crate) fn line_word(word: &[u8]) -> Option<LineWord>
    ensures { result ≡ line_word_of word.now }
{
    value_of(&LINE_WORDS, word)
}

#[tactic(auto, unfolding(crate::specs::LineForms::layout_fault_of))]
pub(crate) fn layout_fault(word: &[u8]) -> Option<LayoutFault>
    ensures { result ≡ layout_fault_of word.now }
{
    value_of(&LAYOUT_FAULTS, word)
}

#[tactic(auto, unfolding(crate::specs::LineForms::map_fault_of))]
pub(crate) fn map_fault(word: &[u8]) -> Option<MapFault>
    ensures { result ≡ map_fault_of word.now }
{
    value_of(&MAP_FAULTS, word)
}

#[tactic(auto, unfolding(crate::specs::LineForms::plain_verdict_of))]
pub(crate) fn plain_verdict(word: &[u8]) -> Option<Verdict>
    ensures { result ≡ plain_verdict_of word.now }
{
    value_of(&PLAIN_VERDICTS, word)
}
