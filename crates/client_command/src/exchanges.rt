// The messages of a client, one after the other.
ghost use Rattle.std.specs.Prelude.{◌≡◌, [], IsErrOf, OnOk};
ghost use Rattle.cluster_text.specs.Peers.{KeepsAddresses};
ghost use Rattle.client_command.specs.declared.exchanges.DealErr.TheVariants.{LinkFault, Memory as NoMemory};
ghost use Rattle.client_command.specs.Exchanges.{CutsAll, CutsIn, CutsTo, InTurn, Loses, LosesAll, LosesIn, Works, WorksAll, dealing_at};

use crate::drive::exchange_with_drive;
use crate::notices::Notices;
use crate::server::exchange_with_server;
use osd_bytes::Links;
use osd_lists::{Memory, Node};
use std::alloc::Global;
use std::mem;
use stripe_client::{ClientCore, Sends, Sent};
use thiserror::Error;

/// Why the exchanges of a client stopped.
#[derive(Clone, Copy, Debug, PartialEq, Eq, Error)]
pub enum DealErr {
    /// An exchange with the server gave no record, or one that isn't the awaited answer.
    #[error("the server gave no answer")]
    LinkFault,
    /// There was no memory.
    #[error("out of memory")]
    Memory,
}

impl From<Memory> for DealErr {
    ghost use Rattle.client_command.specs.declared.exchanges.DealErr.TheVariants.{Memory};

    ghost from_gives = { λ _ e. e ≡ Memory };

    fn from(_: Memory) -> Self {
        DealErr::Memory
    }
}

// Sends one message in an exchange with its node. A client sends nothing to another client.
fn work<L: Links>(
    alloc: Global,
    core: &mut ClientCore,
    links: &mut L,
    sent: &Sent,
    waiting: &mut Sends,
    notices: &mut Notices,
) -> Result<(), DealErr>
    ensures works { OnOk result (Works sent.now
        (dealing_at L.Links links.old core.old waiting.old notices.old)
        (dealing_at L.Links links.new core.new waiting.new notices.new)) }
    ensures loses { IsErrOf result LinkFault → Loses sent.now
        (dealing_at L.Links links.old core.old waiting.old notices.old)
        (dealing_at L.Links links.new core.new waiting.new notices.new) }
    ensures cuts { IsErrOf result NoMemory → CutsTo sent.now.to sent.now.bytes
        (dealing_at L.Links links.old core.old waiting.old notices.old) (L.told links.new) (L.faults links.new) }
    ensures addresses { KeepsAddresses (L.standing links.old) (L.standing links.new) }
{
    let message = sent.bytes.as_slice();
    match sent.to {
        Node::Drive(drive) => {
            match exchange_with_drive(alloc, core, links, drive, message, waiting, notices) {
                Ok(()) => Ok(()),
                Err(Memory) => Err(DealErr::Memory),
            }
        }
        Node::Server => {
            // Here and below, arms in place of `?` or of the bare call are for the prover (docs/dev/PROVER_FORMS.md).
            match exchange_with_server(alloc, core, links, message, waiting, notices) {
                Ok(()) => Ok(()),
                Err(e) => Err(e),
            }
        }
        Node::Client(_) => Ok(()),
    }
}

// Sends these messages in order. What they bring waits after that.
fn work_round<L: Links>(
    alloc: Global,
    core: &mut ClientCore,
    links: &mut L,
    round: &Sends,
    waiting: &mut Sends,
    notices: &mut Notices,
) -> Result<(), DealErr>
    ensures works { OnOk result (InTurn Works round.now
        (dealing_at L.Links links.old core.old waiting.old notices.old)
        (dealing_at L.Links links.new core.new waiting.new notices.new)) }
    ensures loses { IsErrOf result LinkFault → LosesIn round.now
        (dealing_at L.Links links.old core.old waiting.old notices.old)
        (dealing_at L.Links links.new core.new waiting.new notices.new) }
    ensures cuts { IsErrOf result NoMemory → CutsIn round.now
        (dealing_at L.Links links.old core.old waiting.old notices.old) (L.told links.new) (L.faults links.new) }
    ensures addresses { KeepsAddresses (L.standing links.old) (L.standing links.new) }
{
    for i in 0..round.len() {
        match work(alloc, core, links, round.get(i), waiting, notices) {
            Ok(()) => {}
            Err(e) => return Err(e),
        }
    }
    Ok(())
}

/// Sends these messages in order, and then what they bring, until none waits: each in an exchange with its node, or in
/// two with a drive of which no record came in the first. What is told of the call meanwhile is added to `notices`.
///
/// # Errors
///
/// [`DealErr::LinkFault`] exactly if an exchange with the server gave no record, or one that isn't the awaited
/// answer; nothing is sent then. Want of memory, at which an exchange may be cut off; and, in place of it, that
/// 18,446,744,073,709,551,615 rounds of messages don't end.
pub fn deal<L: Links>(
    alloc: Global,
    core: &mut ClientCore,
    links: &mut L,
    sends: Sends,
    notices: &mut Notices,
) -> Result<(), DealErr>
    ensures works { OnOk result (WorksAll
        (dealing_at L.Links links.old core.old sends notices.old)
        (dealing_at L.Links links.new core.new [] notices.new)) }
    ensures loses { IsErrOf result LinkFault → LosesAll
        (dealing_at L.Links links.old core.old sends notices.old)
        core.new notices.new (L.told links.new) (L.faults links.new) }
    ensures cuts { IsErrOf result NoMemory → CutsAll
        (dealing_at L.Links links.old core.old sends notices.old) (L.told links.new) (L.faults links.new) }
    ensures addresses { KeepsAddresses (L.standing links.old) (L.standing links.new) }
{
    let mut waiting = sends;
    'rounds: for _ in 0..u64::MAX {
        if waiting.is_empty() {
            return Ok(());
        }
        let round = mem::replace(&mut waiting, Sends::new(alloc));
        match work_round(alloc, core, links, &round, &mut waiting, notices) {
            Ok(()) => {}
            Err(e) => return Err(e),
        }
    }
    Err(DealErr::Memory)
}
