ghost use Rattle.std.specs.Prelude.{◌≡◌};
ghost use Rattle.world_history.specs.Told.{kind_of, told_why, told_refusal};
ghost use Rattle.world_history.specs.Names.{known_refusal, known_outcome};

use crate::verdicts::verdict_with;
use client_rules::{CallErr, CallOp, Outcome as RulesOutcome, Why};
use scenario_text::{CallKind, ClientName, DriveName, Ending, LayoutFault, Outcome, Refusal};

/// What a call does.
pub fn kind_of(op: &CallOp) -> CallKind
    ensures { result ≡ kind_of op.now }
{
    match op {
        CallOp::Write { .. } => CallKind::Write,
        CallOp::Read { .. } => CallKind::Read,
    }
}

/// Why a client doesn't use a layout.
pub fn told_why(why: Why) -> LayoutFault
    ensures { result ≡ told_why why }
{
    match why {
        Why::Unreadable => LayoutFault::Unreadable,
        Why::Index => LayoutFault::Index,
        Why::Partial => LayoutFault::Partial,
        Why::Ssv => LayoutFault::Ssv,
        Why::Map => LayoutFault::Map,
        Why::Credential => LayoutFault::Credential,
    }
}

// A drive's refusal of a command.
fn refused(drive: u32, number: u16, detail: u64) -> Option<Ending>
    ensures { result ≡ known_refusal drive number detail }
{
    match (DriveName::new(drive), verdict_with(number, detail)) {
        (Some(drive), Some(verdict)) => Some(Ending::Refused { drive, verdict }),
        _ => None,
    }
}

/// How a call ended. `None` exactly where the outcome names a client or a drive that no line can name, or a
/// tag of more than 32 bits.
pub fn told_outcome(call: CallKind, outcome: RulesOutcome) -> Option<Outcome>
    ensures { result ≡ known_outcome call outcome }
{
    let ending = match outcome {
        RulesOutcome::WriteOk { length } => return Some(Outcome::WriteOk { length }),
        RulesOutcome::ReadOk { bytes } => return Some(Outcome::ReadOk { bytes }),
        RulesOutcome::NoFile => Ending::NoFile,
        RulesOutcome::Held { client } => match ClientName::new(client) {
            Some(client) => Ending::Held { client },
            None => return None,
        },
        RulesOutcome::Fencing { component } => Ending::Fencing { component },
        RulesOutcome::Degraded { component } => Ending::Degraded { component },
        RulesOutcome::Spent => Ending::Spent,
        RulesOutcome::Status { status, detail } => Ending::Status { status, detail },
        RulesOutcome::Refused {
            drive,
            verdict,
            detail,
        } => match refused(drive, verdict, detail) {
            Some(ending) => ending,
            None => return None,
        },
        RulesOutcome::Silent { component } => Ending::Silent { component },
        RulesOutcome::Lost { positions } => Ending::Lost { positions },
        RulesOutcome::BadLayout { why } => Ending::BadLayout { why: told_why(why) },
    };
    Some(Outcome::Failed { call, ending })
}

/// Why a call isn't taken. For want of memory there is no word; it is told as `Busy`.
pub fn told_refusal(refusal: CallErr) -> Refusal
    ensures { result ≡ told_refusal refusal }
{
    match refusal {
        CallErr::Busy | CallErr::Memory => Refusal::Busy,
        CallErr::BadRange => Refusal::BadRange,
        CallErr::SlotSpent => Refusal::SlotSpent,
    }
}
