// The notes that a journal keeps, told again at a start.
ghost use Rattle.std.specs.Prelude.{◌≡◌, ◌++◌, IfOk};
ghost use Rattle.server_notes.specs.Asking.{quiet};

use layout_server::Step;
use osd_lists::Memory;
use server_rules::Note;
use std::alloc::Global;

/// The step of an opening as it is told: the notes that are kept in the place of those of the step that ask for something.
pub(crate) fn told_again(alloc: Global, kept: &[Note], step: Step) -> Result<Step, Memory>
    ensures { IfOk result (λ told. told ≡ record step { notes = kept.now ++ quiet step.notes }) }
{
    let notes = server_notes::told_again(alloc, kept, step.notes.as_slice())?;
    Ok(Step {
        sends: step.sends,
        notes,
        mended: step.mended,
    })
}
