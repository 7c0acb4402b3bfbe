ghost use Rattle.std.specs.Prelude.{◌≡◌, [], IfOk, OnOk, OnErr, true, false};
ghost use Rattle.std.specs.Option.{option_copied};
ghost use Rattle.client_rules.specs.Steps.{new_client};
ghost use Rattle.world_history.specs.State.{at_number, and_number};
ghost use Rattle.world_history.specs.Plans.{is_refused};
ghost use Rattle.world_parties.specs.Client.{called, timed_out, resends, left};
ghost use Rattle.world_parties.specs.Clients.{did, Does, heard_one, HearsOne, heard_in, Hears, stopped, pends_in};

use crate::client::WorldClient;
use client_rules::CallOp;
use osd_lists::{Memory, Node};
use scenario_text::{ClientName, Delivery};
use std::alloc::Global;
use std::collections::BTreeMap;
use std::marker::Model;
use world_network::{Act, Handed};

/// The clients of a world by their numbers.
#[derive(Drop)]
pub struct WorldClients {
    by_number: BTreeMap<u32, WorldClient>,
}

impl Model for WorldClients {
    ghost use Rattle.std.specs.Prelude.{List, ℕ};
    ghost use Rattle.world_history.specs.State.{ClientAt};

    ghost Value = { List (ℕ × ClientAt) };

    ghost view = { λ c. c.by_number.entries };
}

// A message comes to a client.
fn hear_at(
    found: &mut WorldClient,
    alloc: Global,
    client: ClientName,
    from: Node,
    bytes: &[u8],
) -> Result<Handed, Memory>
    ensures { IfOk result (λ h. HearsOne (heard_one client from bytes.now found.old) found.new h) }
{
    if found.is_stopped() {
        return Ok(Handed::quiet(alloc, Delivery::Deaf));
    }
    Ok(Handed {
        receipt: Delivery::Taken,
        act: found.hear(alloc, client, from, bytes)?,
    })
}

impl WorldClients {
    /// No clients. It takes no memory.
    pub fn new(alloc: Global) -> Self
        ensures { result ≡ [] }
    {
        WorldClients {
            by_number: BTreeMap::new(alloc),
        }
    }

    /// The client of that number, `None` exactly where there is none.
    pub fn get(&self, client: ClientName) -> Option<&WorldClient>
        ensures { option_copied result ≡ at_number self.now client }
    {
        self.by_number.get(&client.number())
    }

    /// Makes a client. There must be none of that number.
    ///
    /// # Errors
    ///
    /// Want of memory alone; then nothing changes.
    pub fn add(&mut self, alloc: Global, client: ClientName) -> Result<(), Memory>
        ensures ok { OnOk result (self.new ≡ and_number self.old client
            (record { state = new_client client 1; stopped = false; wrote = false })) }
        ensures err { OnErr result (self.new ≡ self.old) }
    {
        let made = WorldClient::new(alloc, client);
        self.by_number.insert(client.number(), made)?;
        Ok(())
    }

    /// A message comes to a client. One that there isn't or that was stopped is deaf.
    pub fn hear(
        &mut self,
        alloc: Global,
        client: ClientName,
        from: Node,
        bytes: &[u8],
    ) -> Result<Handed, Memory>
        ensures { IfOk result (λ h. Hears (heard_in self.old client from bytes.now) self.new h) }
    {
        match self.by_number.get_mut(&client.number()) {
            Some(found) => hear_at(found, alloc, client, from, bytes),
            None => Ok(Handed::quiet(alloc, Delivery::Deaf)),
        }
    }

    /// A client begins a call, or tells why it isn't taken. Where there is no such client nothing happens.
    pub fn call(&mut self, alloc: Global, client: ClientName, op: CallOp) -> Result<Act, Memory>
        ensures { IfOk result (λ act. Does (did self.old client (called client op)) self.new act) }
    {
        match self.by_number.get_mut(&client.number()) {
            Some(found) => found.call(alloc, client, op),
            None => Ok(Act::nothing(alloc)),
        }
    }

    /// A component times out at a client. Where there is no such client nothing happens.
    pub fn time_out(
        &mut self,
        alloc: Global,
        client: ClientName,
        component: u32,
    ) -> Result<Act, Memory>
        ensures { IfOk result (λ act. Does (did self.old client (timed_out client component)) self.new act) }
    {
        match self.by_number.get_mut(&client.number()) {
            Some(found) => found.time_out(alloc, client, component),
            None => Ok(Act::nothing(alloc)),
        }
    }

    /// A client sends again what it waits for. Where there is no such client nothing happens.
    pub fn resend(&mut self, alloc: Global, client: ClientName) -> Result<Act, Memory>
        ensures { IfOk result (λ act. Does (did self.old client (resends client)) self.new act) }
    {
        match self.by_number.get_mut(&client.number()) {
            Some(found) => found.resend(alloc, client),
            None => Ok(Act::nothing(alloc)),
        }
    }

    /// A client returns its grants, or tells that it is busy. Where there is no such client nothing happens.
    pub fn leave(&mut self, alloc: Global, client: ClientName) -> Result<Act, Memory>
        ensures { IfOk result (λ act. Does (did self.old client (left client)) self.new act) }
    {
        match self.by_number.get_mut(&client.number()) {
            Some(found) => found.leave(alloc, client),
            None => Ok(Act::nothing(alloc)),
        }
    }

    /// A client tells that its call is still pending, where one is.
    pub fn pend(&self, alloc: Global, client: ClientName) -> Result<Act, Memory>
        ensures { IfOk result (λ act. act ≡ pends_in client (at_number self.now client)) }
    {
        match self.by_number.get(&client.number()) {
            Some(found) => found.pend(alloc, client),
            None => Ok(Act::nothing(alloc)),
        }
    }

    /// Whether a call of a client would be refused; one of a client that there isn't would.
    pub fn refuses(&self, client: ClientName, op: &CallOp) -> bool
        ensures { result ≡ is_refused (at_number self.now client) op.now }
    {
        match self.by_number.get(&client.number()) {
            Some(found) => found.refuses(op),
            None => true,
        }
    }

    /// A client is deaf from now on.
    pub fn stop(&mut self, client: ClientName)
        ensures { self.new ≡ stopped self.old client }
    {
        if let Some(found) = self.by_number.get_mut(&client.number()) {
            found.stop();
        }
    }
}
