// A call of a client over links, and the returns behind it.
ghost use Rattle.std.specs.Prelude.{◌≡◌, ◌≤◌, ◌<◌, ◌++◌, [], None, IfErr, IfOk, OnOk};
ghost use Rattle.cluster_text.specs.Peers.{KeepsAddresses};
ghost use Rattle.client_rules.specs.declared.client.Client.{Client};
ghost use Rattle.client_rules.specs.declared.limits.TheConstants.{MAX_CLIENT};
ghost use Rattle.client_rules.specs.Steps.{new_client};
ghost use Rattle.client_command.specs.Exchanges.{WorksAll, dealing_at, ended};
ghost use Rattle.client_command.specs.Calls.{Begins, Calls, Deals, StopsBegin, StopsCall, StopsDeal, StopsReturn};
ghost use Rattle.client_command.specs.Calls.{leaving, stop_of_deal};

use crate::exchanges::{DealErr, deal};
use crate::notices::{Notice, Notices};
use osd_bytes::Links;
use osd_lists::Memory;
use std::alloc::Global;
use stripe_client::{CStep, CallErr, CallOp, ClientCore, Outcome};

/// Why a call wasn't carried out.
#[derive(Clone, Copy, Drop)]
pub(crate) enum CallStop {
    /// The client doesn't take it.
    Refused(CallErr),
    /// The server's answer to a request didn't come.
    Lost,
    /// There was no memory.
    Memory,
}

impl From<Memory> for CallStop {
    ghost use Rattle.client_command.specs.declared.calls.CallStop.TheVariants.{Memory};

    ghost from_gives = { λ _ e. e ≡ Memory };

    fn from(_: Memory) -> Self {
        CallStop::Memory
    }
}

fn stop_of(e: DealErr) -> CallStop
    ensures { result ≡ stop_of_deal e }
{
    match e {
        DealErr::LinkFault => CallStop::Lost,
        DealErr::Memory => CallStop::Memory,
    }
}

// Begins the call.
fn begin(core: &mut ClientCore, op: CallOp) -> Result<CStep, CallStop>
    ensures begins { IfOk result (Begins op core.old core.new) }
    ensures stops { IfErr result (StopsBegin op core.old core.new) }
{
    match core.call(op) {
        Ok(step) => Ok(step),
        Err(CallErr::Memory) => Err(CallStop::Memory),
        Err(why) => Err(CallStop::Refused(why)),
    }
}

// Adds how a call ended, if it did.
fn tell_end(notices: &mut Notices, outcome: Option<Outcome>) -> Result<(), Memory>
    ensures { OnOk result (notices.new ≡ notices.old ++ ended outcome) }
{
    match outcome {
        Some(outcome) => notices.push(Notice::Ended { outcome }),
        None => Ok(()),
    }
}

// Carries the call out until it is over.
fn deal_call<L: Links>(
    alloc: Global,
    core: &mut ClientCore,
    op: CallOp,
    links: &mut L,
    notices: &mut Notices,
) -> Result<(), CallStop>
    ensures deals { OnOk result (Deals op
        (dealing_at L.Links links.old core.old [] notices.old)
        (dealing_at L.Links links.new core.new [] notices.new)) }
    ensures stops { IfErr result (StopsDeal op
        (dealing_at L.Links links.old core.old [] notices.old)
        core.new notices.new (L.told links.new) (L.faults links.new)) }
    ensures addresses { KeepsAddresses (L.standing links.old) (L.standing links.new) }
{
    // Here and below, arms in place of `?` or of the bare call are for the prover (docs/dev/PROVER_FORMS.md).
    let CStep { sends, outcome } = match begin(core, op) {
        Ok(step) => step,
        Err(stop) => return Err(stop),
    };
    tell_end(notices, outcome)?;
    match deal(alloc, core, links, sends, notices) {
        Ok(()) => Ok(()),
        Err(e) => Err(stop_of(e)),
    }
}

// Returns the grants of a client without a pending call.
fn return_grants<L: Links>(
    alloc: Global,
    core: &mut ClientCore,
    links: &mut L,
    notices: &mut Notices,
) -> Result<(), CallStop>
    requires { core.old.call ≡ None }
    ensures returns { OnOk result (WorksAll
        (leaving (dealing_at L.Links links.old core.old [] notices.old))
        (dealing_at L.Links links.new core.new [] notices.new)) }
    ensures stops { IfErr result (StopsReturn
        (dealing_at L.Links links.old core.old [] notices.old)
        core.new notices.new (L.told links.new) (L.faults links.new)) }
    ensures addresses { KeepsAddresses (L.standing links.old) (L.standing links.new) }
{
    let sends = core.leave()?;
    match deal(alloc, core, links, sends, notices) {
        Ok(()) => Ok(()),
        Err(e) => Err(stop_of(e)),
    }
}

fn call_and_leave<L: Links>(
    alloc: Global,
    core: &mut ClientCore,
    op: CallOp,
    links: &mut L,
    notices: &mut Notices,
) -> Result<(), CallStop>
    ensures calls { OnOk result (Calls op
        (dealing_at L.Links links.old core.old [] notices.old)
        (dealing_at L.Links links.new core.new [] notices.new)) }
    ensures stops { IfErr result (StopsCall op
        (dealing_at L.Links links.old core.old [] notices.old)
        core.new notices.new (L.told links.new) (L.faults links.new)) }
    ensures addresses { KeepsAddresses (L.standing links.old) (L.standing links.new) }
{
    match deal_call(alloc, core, op, links, notices) {
        Ok(()) => {}
        Err(stop) => return Err(stop),
    }
    // A call of which nothing is awaited any more is over by the client's rules.
    if core.pending().is_some() {
        return Err(CallStop::Memory);
    }
    match return_grants(alloc, core, links, notices) {
        Ok(()) => Ok(()),
        Err(stop) => Err(stop),
    }
}

/// Carries out a call of a client that has done nothing yet, and then returns its grants. What is told of the call
/// is added to `notices`. Gives the number of the next request, 0 where none is left.
pub(crate) fn call_new<L: Links>(
    alloc: Global,
    number: u32,
    sequence: u32,
    op: CallOp,
    links: &mut L,
    notices: &mut Notices,
) -> Result<u32, CallStop>
    requires number { number ≤ MAX_CLIENT }
    requires sequence { 0 < sequence }
    ensures calls { IfOk result (λ next. (client : Client) × Calls op
        (dealing_at L.Links links.old (new_client number sequence) [] notices.old)
        (dealing_at L.Links links.new client [] notices.new) × (next ≡ client.next)) }
    ensures stops { IfErr result (λ stop. (client : Client) × StopsCall op
        (dealing_at L.Links links.old (new_client number sequence) [] notices.old)
        client notices.new (L.told links.new) (L.faults links.new) stop) }
    ensures addresses { KeepsAddresses (L.standing links.old) (L.standing links.new) }
{
    let mut core = ClientCore::new(alloc, number, sequence);
    match call_and_leave(alloc, &mut core, op, links, notices) {
        Ok(()) => Ok(core.next_sequence()),
        Err(stop) => Err(stop),
    }
}
