// What a step of the client sends and tells.
ghost use Rattle.std.specs.Prelude.{◌≡◌, ◌++◌, OnOk};
ghost use Rattle.client_command.specs.Exchanges.{ended};

use client_rules::Outcome;
use osd_lists::{Bytes, Memory, Sequence};
use std::alloc::Global;
use stripe_client::{CStep, Sends, Sent};

/// What is told of a call.
#[derive(Drop)]
pub enum Notice {
    /// A component timed out.
    TimedOut { component: u32 },
    /// The call ended.
    Ended { outcome: Outcome },
}

/// What is told of a call, in order.
pub type Notices = Sequence<Notice>;

// Adds these messages after those that wait.
fn push_all(alloc: Global, waiting: &mut Sends, more: &[Sent]) -> Result<(), Memory>
    ensures { OnOk result (waiting.new ≡ waiting.old ++ more.now) }
{
    for sent in more {
        let bytes = Bytes::copied(alloc, sent.bytes.as_slice())?;
        waiting.push(Sent { to: sent.to, bytes })?;
    }
    Ok(())
}

/// What a step sends waits behind all other messages, and how it ended the call is told.
pub(crate) fn take_step(
    alloc: Global,
    step: CStep,
    waiting: &mut Sends,
    notices: &mut Notices,
) -> Result<(), Memory>
    ensures sends { OnOk result (waiting.new ≡ waiting.old ++ step.sends) }
    ensures notices { OnOk result (notices.new ≡ notices.old ++ ended step.outcome) }
{
    let CStep { sends, outcome } = step;
    push_all(alloc, waiting, sends.as_slice())?;
    match outcome {
        Some(outcome) => notices.push(Notice::Ended { outcome }),
        None => Ok(()),
    }
}
