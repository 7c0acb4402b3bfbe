ghost use Rattle.std.specs.Prelude.{◌≡◌, ◌≤◌, length, IfOk};
ghost use Rattle.world_history.specs.declared.limits.TheConstants.{MAX_KEPT};
ghost use Rattle.world_history.specs.State.{World, empty_world};
ghost use Rattle.layout_world.specs.State.{Settled, Shows};

use crate::server::WorldServer;
use osd_lists::Memory;
use std::alloc::Global;
use world_network::Network;
use world_parties::{WorldClients, WorldDrives};

/// All parties of a scenario, and every message between them.
#[derive(Drop)]
pub struct Parties {
    pub drives: WorldDrives,
    pub clients: WorldClients,
    pub server: WorldServer,
    /// The server's clock, in seconds.
    pub clock: u64,
    /// The server is down: nothing that is sent to it reaches it.
    pub down: bool,
    pub network: Network,
    /// All messages below this number were delivered or dropped.
    pub settled: usize,
}

impl Parties {
    /// Those of a scenario that hasn't begun.
    pub fn new(alloc: Global) -> Result<Self, Memory>
        ensures { IfOk result (λ parties. Shows parties empty_world) }
    {
        Ok(Parties {
            drives: WorldDrives::new(alloc),
            clients: WorldClients::new(alloc),
            server: WorldServer::new(alloc)?,
            clock: 0,
            down: false,
            network: Network::new(alloc),
            settled: 0,
        })
    }

    /// The bytes that are kept are within their limit.
    pub fn fit(&self)
        ensures { self.now.network.kept ≤ MAX_KEPT }
    {
        let _kept = self.network.kept();
    }

    /// No message from number `first` on is pending. Where none below it is either, that is remembered.
    pub fn remember_settled(&mut self, first: usize)
        ensures shows { (w : World) → Settled first (length self.old.network.messages) self.old.network.messages
            → Shows self.old w → Shows self.new w }
        ensures network { self.new.network ≡ self.old.network }
    {
        if first <= self.settled {
            self.settled = self.network.len();
        }
    }
}
