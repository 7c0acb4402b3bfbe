// The words of the program's commands.
ghost use Rattle.std.specs.Prelude.{◌≡◌, map, string_bytes};
ghost use Rattle.scenario_text.specs.Reading.{decimal_of};
ghost use Rattle.osd_replay.specs.Commands.{command_of, generates, kind_of, inspection_of};

use layout_types::Kind;
use scenario_text::decimal;

/// The most calls that `generate` makes.
pub const MAX_CALLS: u64 = 1000;

/// What is done with the spelling of a structure.
#[derive(Clone, Copy, PartialEq, Eq)]
pub enum Inspection {
    /// Its fields are written, a line each.
    Show,
    /// It is told whether the structure is well formed.
    Check,
}

/// What the program is asked to do.
#[derive(Clone, Copy, PartialEq, Eq)]
pub enum Command {
    /// `replay`: a scenario is replayed.
    Replay,
    /// `generate N K`: a scenario of `calls` calls is made from a seed and replayed.
    Generate { seed: u64, calls: u64 },
    /// `show KIND` or `check KIND`: structures of that kind are inspected.
    Inspect(Inspection, Kind),
}

#[tactic(auto, unfolding(crate::specs::Commands::kind_of))]
fn kind_named(word: &str) -> Option<Kind>
    ensures { result ≡ kind_of word.now }
{
    match word {
        "map" => Some(Kind::Map),
        "cred" => Some(Kind::Cred),
        "layout" => Some(Kind::Layout),
        "deviceaddr" => Some(Kind::DeviceAddr),
        "update" => Some(Kind::Update),
        "ioerrs" => Some(Kind::IoErrs),
        "hint" => Some(Kind::Hint),
        _ => None,
    }
}

#[tactic(auto, unfolding(crate::specs::Commands::inspection_of))]
fn inspection_named(word: &str) -> Option<Inspection>
    ensures { result ≡ inspection_of word.now }
{
    match word {
        "show" => Some(Inspection::Show),
        "check" => Some(Inspection::Check),
        _ => None,
    }
}

// `generate N K`, where K is at most 1,000.
fn generation(seed: &str, calls: &str) -> Option<Command>
    ensures { result ≡ generates (decimal_of seed.now) (decimal_of calls.now) }
{
    let seed = decimal(seed.as_bytes())?;
    let calls = decimal(calls.as_bytes())?;
    if calls > MAX_CALLS {
        return None;
    }
    Some(Command::Generate { seed, calls })
}

/// The command that the words name.
pub fn command_named(words: &[String]) -> Option<Command>
    ensures { result ≡ command_of (map string_bytes words.now) }
{
    if words.len() == 1 && words[0].as_str() == "replay" {
        return Some(Command::Replay);
    }
    if words.len() == 3 && words[0].as_str() == "generate" {
        return generation(words[1].as_str(), words[2].as_str());
    }
    if words.len() != 2 {
        return None;
    }
    let inspection = inspection_named(words[0].as_str())?;
    let kind = kind_named(words[1].as_str())?;
    Some(Command::Inspect(inspection, kind))
}
