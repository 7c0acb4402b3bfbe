ghost use Rattle.std.specs.Prelude.{◌↔◌, IsTrue, IfOk};
ghost use Rattle.file_log.specs.Judge.{Accepts};

use crate::entry::Entry;
use crate::held::Held;
use osd_lists::Memory;
use std::alloc::Global;

/// Whether the judge accepts a log. It goes through the log once: an entry takes the time of its
/// bytes, and of the sizes that the file may have, of which an entry adds one at most.
pub fn judge(alloc: Global, log: &[Entry]) -> Result<bool, Memory>
    ensures { IfOk result (λ accepted. IsTrue accepted ↔ Accepts log.now) }
{
    let mut held = Held::new_file(alloc)?;
    for entry in log {
        if !held.fits(entry) {
            return Ok(false);
        }
        held.take(alloc, entry)?;
    }
    Ok(true)
}
