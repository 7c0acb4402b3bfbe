ghost use Rattle.std.specs.Prelude.{◌≡◌, ◌⊎◌, ◌≤◌, ℕ, Bool, true, false, List, length, IfOk, OnErr, OnOk, IsErrOf};
ghost use Rattle.osd_bytes.specs.Causes.{Rose};
ghost use Rattle.osd_bytes.specs.declared.records.TheConstants.{MAX_RECORD};
ghost use Rattle.port_loop.specs.declared.handler.HandlerErr.TheVariants.{Failed};

use osd_bytes::{Bytes, Memory};
use std::alloc::Global;
use thiserror::Error;

/// Why a record wasn't answered.
#[derive(Clone, Copy, Debug, PartialEq, Eq, Error)]
pub enum HandlerErr {
    /// The handler failed, as its disk did.
    #[error("the handler failed")]
    Failed,
    /// There was no memory.
    #[error("out of memory")]
    Memory,
}

impl From<Memory> for HandlerErr {
    ghost use Rattle.port_loop.specs.declared.handler.HandlerErr.TheVariants.{Memory};

    ghost from_gives = { λ _ e. e ≡ Memory };

    fn from(_: Memory) -> Self {
        HandlerErr::Memory
    }
}

/// What answers records, one after the other: a drive, or a server.
pub trait Handler {
    /// The states that it can be in.
    ghost State: { Type 0 };

    /// What its replies depend on.
    ghost state: { Self → State };

    /// How many of its calls failed. The count never falls, and stays at its greatest number.
    ghost faults: { Self → ℕ };

    /// The reply to a record at a time.
    ghost reply_to: { State → ℕ → List ℕ → List ℕ };

    /// What a record at a time leaves.
    ghost state_after: { State → ℕ → List ℕ → State };

    /// Whether it takes more records. After a call that failed it need not.
    ghost goes_on: { Self → Type 0 };

    /// What else a call leaves that answered a record at a time, such as what its disk has.
    ghost handles: { ℕ → List ℕ → (old new : Self) → Type 0 };

    /// What else a call leaves that failed at a record at a time, which was handled all the same or not.
    ghost fails: { ℕ → List ℕ → (is_handled : Bool) → (old new : Self) → Type 0 };

    /// Takes a record, and gives the reply.
    ///
    /// # Errors
    ///
    /// [`HandlerErr::Failed`] only if the count of faults rose, and [`HandlerErr::Memory`]. The record was handled then
    /// or not.
    fn handle(&mut self, alloc: Global, now: u64, message: &[u8]) -> Result<Bytes, HandlerErr>
        requires goes_on { goes_on self.old }
        ensures reply { IfOk result (λ r. r ≡ reply_to (state self.old) now message.now) }
        ensures short { IfOk result (λ r. length r ≤ MAX_RECORD) }
        ensures state { OnOk result (state self.new ≡ state_after (state self.old) now message.now) }
        ensures handles { OnOk result (handles now message.now self.old self.new) }
        ensures goes_on { OnOk result (goes_on self.new) }
        ensures err { OnErr result (((state self.new ≡ state self.old) × fails now message.now false self.old self.new)
            ⊎ ((state self.new ≡ state_after (state self.old) now message.now)
            × fails now message.now true self.old self.new)) }
        ensures cause { IsErrOf result Failed → Rose (faults self.old) (faults self.new) }
        ensures later { faults self.old ≤ faults self.new };
}
