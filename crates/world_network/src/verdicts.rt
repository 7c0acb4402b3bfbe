ghost use Rattle.std.specs.Prelude.{◌≡◌};
ghost use Rattle.world_history.specs.Told.{told_verdict};
ghost use Rattle.world_history.specs.Names.{known_verdict};

use osd_drive::Verdict as DriveVerdict;
use scenario_text::Verdict;

/// What a drive makes of a command.
pub fn told_verdict(verdict: DriveVerdict) -> Verdict
    ensures { result ≡ told_verdict verdict }
{
    match verdict {
        DriveVerdict::Perform => Verdict::Perform,
        DriveVerdict::OldFormat => Verdict::OldFormat,
        DriveVerdict::NoKey => Verdict::NoKey,
        DriveVerdict::CheckValue => Verdict::CheckValue,
        DriveVerdict::Expired => Verdict::Expired,
        DriveVerdict::Rights => Verdict::Rights,
        DriveVerdict::WrongObject => Verdict::WrongObject,
        DriveVerdict::Range => Verdict::Range,
        DriveVerdict::NoObject => Verdict::NoObject,
        DriveVerdict::Exists => Verdict::Exists,
        DriveVerdict::Tag { current } => Verdict::Tag { current },
        DriveVerdict::Limit => Verdict::Limit,
        DriveVerdict::NoSpace { free } => Verdict::NoSpace { free },
        DriveVerdict::LaneFull => Verdict::LaneFull,
        DriveVerdict::Stale { last } => Verdict::Stale { last },
        DriveVerdict::AttrFull => Verdict::AttrFull,
        DriveVerdict::Again => Verdict::Again,
    }
}

/// The verdict that a reply carries as a number, with its detail. `None` exactly where the detail is to be a tag
/// and has more than 32 bits, as no drive's has. A number that is no refusal's gives `Perform`.
#[tactic(auto, unfolding(world_history::specs::Told::verdict_with))]
pub fn verdict_with(number: u16, detail: u64) -> Option<Verdict>
    ensures { result ≡ known_verdict number detail }
{
    let verdict = match number {
        1 => Verdict::NoKey,
        2 => Verdict::CheckValue,
        3 => Verdict::Expired,
        4 => Verdict::Rights,
        5 => Verdict::WrongObject,
        6 => Verdict::Range,
        7 => Verdict::NoObject,
        8 => Verdict::Exists,
        9 => match u32::try_from(detail) {
            Ok(current) => Verdict::Tag { current },
            Err(_) => return None,
        },
        10 => Verdict::Limit,
        11 => Verdict::NoSpace { free: detail },
        12 => Verdict::LaneFull,
        13 => Verdict::Stale { last: detail },
        14 => Verdict::AttrFull,
        15 => Verdict::Again,
        16 => Verdict::Format,
        17 => Verdict::OldFormat,
        _ => Verdict::Perform,
    };
    Some(verdict)
}
