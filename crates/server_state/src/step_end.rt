ghost use Rattle.std.specs.Prelude.{◌≡◌, [], IfOk};
ghost use Rattle.server_state.specs.States.{Settles};

use crate::state::State;
use crate::step::{Notes, Repairs, Step};
use osd_lists::{Memory, Sequence};
use server_requests::{Sends, send_to_drives};
use server_rules::Effects;
use std::alloc::Global;

/// A step begins, and nothing is sent yet.
pub fn no_effects(alloc: Global, nonce: u64, object: u64) -> Effects
    ensures { result ≡ record { nonce = nonce; object = object; sent = []; notes = []; mended = [] } }
{
    Effects {
        nonce,
        object,
        sent: Sequence::new(alloc),
        notes: Notes::new(alloc),
        mended: Repairs::new(alloc),
    }
}

/// A step that sends these and nothing else happens.
pub fn only_sends(alloc: Global, sends: Sends) -> Step
    ensures { result ≡ record { sends = sends; notes = []; mended = [] } }
{
    Step {
        sends,
        notes: Notes::new(alloc),
        mended: Repairs::new(alloc),
    }
}

/// What is left of a step that sends to drives alone: it sends and counts.
pub fn finish_step(alloc: Global, state: &mut State, effects: Effects) -> Result<Step, Memory>
    ensures { IfOk result (Settles state.old effects state.new) }
{
    let mut sends = Sends::new(alloc);
    let drives = state.drives.as_slice();
    send_to_drives(alloc, &mut sends, drives, effects.sent.as_slice())?;
    state.next_nonce = effects.nonce;
    state.next_object = effects.object;
    Ok(Step {
        sends,
        notes: effects.notes,
        mended: effects.mended,
    })
}
