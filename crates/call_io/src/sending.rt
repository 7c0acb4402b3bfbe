// What is sent is awaited.
ghost use Rattle.std.specs.Prelude.{◌≡◌, ◌++◌, IfOk};
ghost use Rattle.client_rules.specs.Commands.{read_commands, write_commands};

use call_commands::{PendingCommands, await_all, read_commands, write_commands};
use client_rules::{AwaitedCommands, Held};
use osd_lists::Memory;
use std::alloc::Global;
use stripe_plan::{Asks, Store};

// The READs of these are sent.
pub fn send_reads(
    alloc: Global,
    held: &Held,
    pending: &mut PendingCommands,
    due: Asks,
) -> Result<AwaitedCommands, Memory>
    ensures sent { IfOk result (λ sent. sent ≡ read_commands held.now due) }
    ensures pending { IfOk result (λ sent. pending.new ≡ pending.old ++ sent) }
{
    let sent = read_commands(alloc, held, due.as_slice())?;
    await_all(alloc, pending, &sent)?;
    Ok(sent)
}

// These WRITEs are sent.
pub fn send_writes(
    alloc: Global,
    held: &Held,
    pending: &mut PendingCommands,
    stores: Vec<Store>,
) -> Result<AwaitedCommands, Memory>
    ensures sent { IfOk result (λ sent. sent ≡ write_commands held.now stores.items) }
    ensures pending { IfOk result (λ sent. pending.new ≡ pending.old ++ sent) }
{
    let sent = write_commands(alloc, held, stores)?;
    await_all(alloc, pending, &sent)?;
    Ok(sent)
}
