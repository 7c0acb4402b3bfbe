ghost use Rattle.std.specs.Prelude.{◌≡◌};
ghost use Rattle.client_rules.specs.Steps.{new_client};
ghost use Rattle.stripe_client.specs.Inside.{IsInside};
ghost use Rattle.stripe_client.specs.States.{client_of};

use crate::outstanding::Outstanding;
use call_io::CallPhase;
use client_rules::{AwaitedCommands, CallOp, Outcome};
use held_grants::{Dues, HeldGrants};
use layout_ops::RecallAnswer;
use std::alloc::Global;

/// A pending call.
#[derive(Drop)]
pub struct PendingCall {
    pub op: CallOp,
    /// How far it has come.
    pub phase: CallPhase,
}

/// The state of a client.
#[derive(Drop)]
pub struct State {
    pub number: u32,
    /// The sequence number of its next request, or 0 where none is left.
    pub next: u32,
    /// The request whose answer is awaited.
    pub outstanding: Outstanding,
    pub held: HeldGrants,
    /// The grants that are to be returned, in the order in which they became due.
    pub due: Dues,
    pub call: Option<PendingCall>,
}

impl State {
    /// The state of a client of that number that is over: it has nothing, and no number for a request. It takes no memory.
    pub(crate) fn over(alloc: Global, number: u32) -> Self
        ensures value { client_of result ≡ new_client number 0 }
        ensures inside { IsInside result }
    {
        State {
            number,
            next: 0,
            outstanding: Outstanding::none(),
            held: HeldGrants::new(alloc),
            due: Dues::new(alloc),
            call: None,
        }
    }
}

/// What a step has made so far.
#[derive(Drop)]
pub struct Made {
    /// The answer to a recall.
    pub recall: Option<RecallAnswer>,
    /// Whether a request was sent, which is the outstanding one then.
    pub asked: bool,
    /// The commands that were sent.
    pub commands: AwaitedCommands,
    /// How the call ended.
    pub outcome: Option<Outcome>,
}
