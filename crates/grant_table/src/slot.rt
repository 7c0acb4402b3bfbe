ghost use Rattle.std.specs.Prelude.{◌≡◌};
ghost use Rattle.grant_table.specs.declared.slot.Admit.TheVariants.{New as IsNew};
ghost use Rattle.grant_table.specs.Admitting.{admitted, new_slot};

use osd_lists::Bytes;
use server_rules::GREATEST_SEQUENCE;
use std::alloc::Global;
use std::marker::Model;

/// What a request is by its sequence number.
#[derive(Clone, Copy, PartialEq, Eq)]
pub enum Admit {
    /// The next one: it is carried out.
    New,
    /// The last one again: the kept answer is sent again.
    Again,
    /// Any other, which changes nothing.
    Misordered {
        /// The number behind the last one, or the greatest where that is the last.
        expected: u32,
    },
}

/// What is kept of a client: the number of its last request, and the answer to that.
///
/// Numbers begin at 1, and none is new after 4,294,967,295.
#[derive(Drop)]
pub struct Slot {
    // 0 before the first request.
    last: u32,
    kept: Bytes,
}

impl Model for Slot {
    ghost use Rattle.grant_table.specs.Admitting.{SlotState};

    ghost Value = { SlotState };

    ghost view = { λ s. record { last = s.last; kept = s.kept } };
}

impl Slot {
    /// The slot of a client without a request, which takes no memory.
    pub fn new(alloc: Global) -> Self
        ensures { result ≡ new_slot }
    {
        Slot {
            last: 0,
            kept: Bytes::new(alloc),
        }
    }

    /// What a request of that number is.
    #[tactic(auto, unfolding(crate::specs::Admitting::admitted, server_rules::specs::Slots::admit_after))]
    pub fn admit(&self, sequence: u32) -> Admit
        ensures { result ≡ admitted self.now.last sequence }
    {
        if sequence == self.last && self.last > 0 {
            return Admit::Again;
        }
        let expected = self.last.saturating_add(1);
        if sequence == expected && self.last < GREATEST_SEQUENCE {
            return Admit::New;
        }
        Admit::Misordered { expected }
    }

    /// Keeps the answer to a new request, whose number is the last one from now on.
    pub fn keep(&mut self, sequence: u32, answer: Bytes)
        requires { admitted self.old.last sequence ≡ IsNew }
        ensures { self.new ≡ record { last = sequence; kept = answer } }
    {
        self.last = sequence;
        self.kept = answer;
    }

    /// The answer to the last request, and no bytes before the first.
    pub fn kept(&self) -> &[u8]
        ensures { result.now ≡ self.now.kept }
    {
        self.kept.as_slice()
    }
}
