// The first words of events, and tables of words.
ghost use Rattle.std.specs.Prelude.{◌≡◌, map};
ghost use Rattle.scenario_text.specs.Keywords.{word_in};
ghost use Rattle.scenario_text.specs.EventForms.{call_kind_of, setup_word_of, traffic_word_of, upkeep_word_of};

use crate::line::CallKind;

// The value of a word by a table, of which the first entry counts.
pub(crate) fn value_of<K: Copy>(mut table: &[(&[u8], K)], word: &[u8]) -> Option<K>
    ensures { result ≡ word_in (map (λ entry. (entry.0.now, entry.1)) table.entry.now) word.now }
{
    while let [entry, rest @ ..] = table {
        if word == entry.0 {
            return Some(entry.1);
        }
        table = rest;
    }
    None
}

// The events that make parties and settings.
#[derive(Clone, Copy)]
pub(crate) enum SetupWord {
    Drive,
    Disk,
    Client,
    File,
    ZonedFile,
    Zone,
    Least,
    Format,
}

// The events of calls and messages.
#[derive(Clone, Copy)]
pub(crate) enum TrafficWord {
    Do,
    Call,
    Deliver,
    Drop,
    Settle,
    Resend,
    Timeout,
    Leave,
    Inject,
}

// The events of the server's work, of clocks and of faults.
#[derive(Clone, Copy)]
pub(crate) enum UpkeepWord {
    Clock,
    Recall,
    Revoke,
    Rebuild,
    Audit,
    Declare,
    Stop,
    Fail,
    Crash,
    Reopen,
}

const CALL_WORDS: [(&[u8], CallKind); 2] = [(b"write", CallKind::Write), (b"read", CallKind::Read)];

const SETUP_WORDS: [(&[u8], SetupWord); 8] = [
    (b"drive", SetupWord::Drive),
    (b"disk", SetupWord::Disk),
    (b"client", SetupWord::Client),
    (b"file", SetupWord::File),
    (b"zfile", SetupWord::ZonedFile),
    (b"zone", SetupWord::Zone),
    (b"least", SetupWord::Least),
    (b"format", SetupWord::Format),
];

const TRAFFIC_WORDS: [(&[u8], TrafficWord); 9] = [
    (b"do", TrafficWord::Do),
    (b"call", TrafficWord::Call),
    (b"deliver", TrafficWord::Deliver),
    (b"drop", TrafficWord::Drop),
    (b"settle", TrafficWord::Settle),
    (b"resend", TrafficWord::Resend),
    (b"timeout", TrafficWord::Timeout),
    (b"leave", TrafficWord::Leave),
    (b"inject", TrafficWord::Inject),
];

const UPKEEP_WORDS: [(&[u8], UpkeepWord); 10] = [
    (b"clock", UpkeepWord::Clock),
    (b"recall", UpkeepWord::Recall),
    (b"revoke", UpkeepWord::Revoke),
    (b"rebuild", UpkeepWord::Rebuild),
    (b"audit", UpkeepWord::Audit),
    (b"declare", UpkeepWord::Declare),
    (b"stop", UpkeepWord::Stop),
    (b"fail", UpkeepWord::Fail),
    (b"crash", UpkeepWord::Crash),
    (b"reopen", UpkeepWord::Reopen),
];

#[tactic(auto, unfolding(crate::specs::EventForms::call_kind_of))]
pub(crate) fn call_kind(word: &[u8]) -> Option<CallKind>
    ensures { result ≡ call_kind_of word.now }
{
    value_of(&CALL_WORDS, word)
}

#[tactic(auto, unfolding(crate::specs::EventForms::setup_word_of))]
pub(crate) fn setup_word(word: &[u8]) -> Option<SetupWord>
    ensures { result ≡ setup_word_of word.now }
{
    value_of(&SETUP_WORDS, word)
}

#[tactic(auto, unfolding(crate::specs::EventForms::traffic_word_of))]
pub(crate) fn traffic_word(word: &[u8]) -> Option<TrafficWord>
    ensures { result ≡ traffic_word_of word.now }
{
    value_of(&TRAFFIC_WORDS, word)
}

#[tactic(auto, unfolding(crate::specs::EventForms::upkeep_word_of))]
pub(crate) fn upkeep_word(word: &[u8]) -> Option<UpkeepWord>
    ensures { result ≡ upkeep_word_of word.now }
{
    value_of(&UPKEEP_WORDS, word)
}
