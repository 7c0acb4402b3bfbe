// How the work of a client ends.
ghost use Rattle.std.specs.Prelude.{◌≡◌, IfOk};
ghost use Rattle.client_command.specs.WorkEnds.{end_by_outcome, end_by_result, end_of};

use crate::notices::Notice;
use layout_ops::OrderResult;
use osd_lists::{Bytes, Memory, Numbers};
use std::alloc::Global;
use stripe_client::{CallErr, Outcome};

/// Why a client's work is refused.
#[derive(Drop)]
pub enum Refusal {
    /// The client doesn't take the call.
    Call(CallErr),
    /// The call ended so, and neither wrote nor read.
    Ended(Outcome),
    /// The server answers the order with this number, which isn't 0.
    Order(u32),
}

/// How a client's work ended.
#[derive(Drop)]
pub enum ClientEnd {
    /// It is done.
    Done,
    /// It is refused.
    Refused(Refusal),
    /// It wasn't begun: the server didn't tell the number that it expects, or didn't take it.
    Unnumbered,
}

/// What a client tells of its work, and how that ended.
#[derive(Drop)]
pub(crate) struct Report {
    pub text: Bytes,
    /// `None` if the server's answer didn't come.
    pub end: Option<ClientEnd>,
}

/// A copy of an outcome.
pub(crate) fn copy_of(alloc: Global, outcome: &Outcome) -> Result<Outcome, Memory>
    ensures { IfOk result (λ copy. copy ≡ outcome.now) }
{
    Ok(match outcome {
        Outcome::WriteOk { length } => Outcome::WriteOk { length: *length },
        Outcome::ReadOk { bytes } => Outcome::ReadOk {
            bytes: Bytes::copied(alloc, bytes.as_slice())?,
        },
        Outcome::NoFile => Outcome::NoFile,
        Outcome::Held { client } => Outcome::Held { client: *client },
        Outcome::Fencing { component } => Outcome::Fencing {
            component: *component,
        },
        Outcome::Degraded { component } => Outcome::Degraded {
            component: *component,
        },
        Outcome::Spent => Outcome::Spent,
        Outcome::Status { status, detail } => Outcome::Status {
            status: *status,
            detail: *detail,
        },
        Outcome::Refused {
            drive,
            verdict,
            detail,
        } => Outcome::Refused {
            drive: *drive,
            verdict: *verdict,
            detail: *detail,
        },
        Outcome::Silent { component } => Outcome::Silent {
            component: *component,
        },
        Outcome::Lost { positions } => Outcome::Lost {
            positions: Numbers::copied(alloc, positions.as_slice())?,
        },
        Outcome::BadLayout { why } => Outcome::BadLayout { why: *why },
    })
}

// How a call that came to this outcome ended.
fn end_by_outcome(alloc: Global, outcome: &Outcome) -> Result<ClientEnd, Memory>
    ensures { IfOk result (λ end. end ≡ end_by_outcome outcome.now) }
{
    match outcome {
        Outcome::WriteOk { .. } | Outcome::ReadOk { .. } => Ok(ClientEnd::Done),
        refused => Ok(ClientEnd::Refused(Refusal::Ended(copy_of(alloc, refused)?))),
    }
}

/// How the call ended that these notices tell of, `None` exactly if they tell of no end.
pub(crate) fn end_of(alloc: Global, notices: &[Notice]) -> Result<Option<ClientEnd>, Memory>
    ensures { IfOk result (λ end. end ≡ end_of notices.now) }
{
    for notice in notices {
        if let Notice::Ended { outcome } = notice {
            return Ok(Some(end_by_outcome(alloc, outcome)?));
        }
    }
    Ok(None)
}

/// How an order ended that the server answered so.
pub(crate) fn end_by_result(answer: OrderResult) -> ClientEnd
    ensures { result ≡ end_by_result answer }
{
    match answer {
        OrderResult::Started => ClientEnd::Done,
        refused => ClientEnd::Refused(Refusal::Order(refused.number())),
    }
}
