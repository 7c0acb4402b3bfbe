// What clients do in an event.
ghost use Rattle.std.specs.Prelude.{◌≡◌, IfOk};
ghost use Rattle.world_history.specs.Moves.{op_of, changed, calls_at, times_out, resends, leaves, pends, adds_client};
ghost use Rattle.layout_world.specs.Acting.{Acts};

use crate::parties::Parties;
use client_rules::CallOp;
use osd_lists::{Bytes, Memory};
use scenario_text::{Call, ClientName};
use std::alloc::Global;
use world_network::Act;
use world_parties::clients_are_the_worlds;

/// The call of an event, as the client takes it.
pub fn op_of(alloc: Global, call: &Call) -> Result<CallOp, Memory>
    ensures { IfOk result (λ op. op ≡ op_of call.now) }
{
    Ok(match call {
        Call::Write {
            file,
            offset,
            bytes,
        } => CallOp::Write {
            file: file.number(),
            offset: *offset,
            bytes: Bytes::copied(alloc, bytes.as_slice())?,
        },
        Call::Read {
            file,
            offset,
            length,
        } => CallOp::Read {
            file: file.number(),
            offset: *offset,
            length: *length,
        },
    })
}

/// A client is made. There must be none of that number.
pub fn add(parties: &mut Parties, alloc: Global, client: ClientName) -> Result<Act, Memory>
    ensures { IfOk result (λ act. Acts (λ w chosen. changed (adds_client w client)) parties.old parties.new act) }
{
    parties.clients.add(alloc, client)?;
    Ok(Act::nothing(alloc))
}

/// A client is called.
pub fn call(
    parties: &mut Parties,
    alloc: Global,
    client: ClientName,
    call: &Call,
) -> Result<Act, Memory>
    ensures { IfOk result (λ act. Acts (λ w chosen. calls_at w client (op_of call.now)) parties.old parties.new act) }
{
    clients_are_the_worlds();
    let op = op_of(alloc, call)?;
    let act = parties.clients.call(alloc, client, op)?;
    Ok(act)
}

/// A component times out at a client.
pub fn time_out(
    parties: &mut Parties,
    alloc: Global,
    client: ClientName,
    component: u32,
) -> Result<Act, Memory>
    ensures acts { IfOk result (λ act. Acts (λ w chosen. times_out w client component) parties.old parties.new act) }
    ensures network { parties.new.network ≡ parties.old.network }
{
    clients_are_the_worlds();
    let act = parties.clients.time_out(alloc, client, component)?;
    Ok(act)
}

/// A client sends again what it waits for.
pub fn resend(parties: &mut Parties, alloc: Global, client: ClientName) -> Result<Act, Memory>
    ensures { IfOk result (λ act. Acts (λ w chosen. resends w client) parties.old parties.new act) }
{
    clients_are_the_worlds();
    let act = parties.clients.resend(alloc, client)?;
    Ok(act)
}

/// A client returns its grants, or tells that it is busy.
pub fn leave(parties: &mut Parties, alloc: Global, client: ClientName) -> Result<Act, Memory>
    ensures { IfOk result (λ act. Acts (λ w chosen. leaves w client) parties.old parties.new act) }
{
    clients_are_the_worlds();
    let act = parties.clients.leave(alloc, client)?;
    Ok(act)
}

/// A client tells that its call is still pending, where one is.
pub fn pend(parties: &Parties, alloc: Global, client: ClientName) -> Result<Act, Memory>
    ensures { IfOk result (λ act. Acts (λ w chosen. pends w client) parties.now parties.now act) }
{
    clients_are_the_worlds();
    let act = parties.clients.pend(alloc, client)?;
    Ok(act)
}
