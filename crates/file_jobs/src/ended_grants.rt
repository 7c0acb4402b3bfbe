// The grants of a file end.
ghost use Rattle.std.specs.Prelude.{◌≡◌, max, OnOk};
ghost use Rattle.server_rules.specs.Jobs.{ending, fencing};
ghost use Rattle.file_jobs.specs.Sound.{Leaves};

use osd_lists::{Memory, Sequence};
use server_rules::{Kept, Phase};
use std::alloc::Global;

// The phase of a file whose fence begins.
fn fencing_phase(phase: Phase) -> Phase
    ensures { result ≡ fencing phase }
{
    match phase {
        Phase::Still | Phase::Fencing => Phase::Fencing,
        Phase::Repairing | Phase::FencingAgain => Phase::FencingAgain,
    }
}

/// Ends every grant of a file, which takes the server's format if that is greater.
pub fn end_grants(alloc: Global, kept: &mut Kept, format: u8) -> Result<(), Memory>
    ensures value { OnOk result (kept.new ≡ ending kept.old format) }
    ensures keeps { OnOk result (Leaves kept.old kept.new) }
{
    kept.ended.extend_from_slice(kept.grants.as_slice())?;
    kept.grants = Sequence::new(alloc);
    kept.format = kept.format.max(format);
    kept.phase = fencing_phase(kept.phase);
    Ok(())
}
