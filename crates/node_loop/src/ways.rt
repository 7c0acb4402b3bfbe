ghost use Rattle.std.specs.Prelude.{◌≡◌, None, Some, ℕ, OnOk};
ghost use Rattle.std.specs.Ordering.{nat_cmp};
ghost use Rattle.std.specs.BTreeMap.{get};
ghost use Rattle.osd_lists.specs.declared.node.Node.{Node};
ghost use Rattle.node_loop.specs.Nodes.{Leads, Sets, way_in};

use osd_bytes::{Memory, Node};
use std::alloc::Global;
use std::collections::BTreeMap;

/// On which connection each node is reached: the newest one that was opened towards it, or on which it spoke.
#[derive(Drop)]
pub(crate) struct Ways {
    drives: BTreeMap<u32, u64>,
    clients: BTreeMap<u32, u64>,
    server: Option<u64>,
}

// The connection that is kept for a number.
fn kept_at(ways: &BTreeMap<u32, u64>, number: u32) -> Option<u64>
    ensures { result ≡ get nat_cmp ways.now number }
{
    match ways.get(&number) {
        Some(port) => Some(*port),
        None => None,
    }
}

// Keeps a connection for a number.
fn keep_at(ways: &mut BTreeMap<u32, u64>, number: u32, port: u64) -> Result<(), Memory>
    ensures { OnOk result (Sets number (Some port) (get nat_cmp ways.old) (get nat_cmp ways.new)) }
{
    match ways.insert(number, port) {
        Ok(_) => Ok(()),
        Err(_) => Err(Memory),
    }
}

impl Ways {
    /// No node is reached.
    pub(crate) fn new(alloc: Global) -> Self
        ensures { (n : Node) → way_in result n ≡ None }
    {
        Ways {
            drives: BTreeMap::new(alloc),
            clients: BTreeMap::new(alloc),
            server: None,
        }
    }

    /// On which connection a node is reached.
    pub(crate) fn of(&self, node: Node) -> Option<u64>
        ensures { result ≡ way_in self.now node }
    {
        match node {
            Node::Server => self.server,
            Node::Drive(drive) => kept_at(&self.drives, drive),
            Node::Client(client) => kept_at(&self.clients, client),
        }
    }

    /// A node is reached on this connection from now on.
    pub(crate) fn lead(&mut self, node: Node, port: u64) -> Result<(), Memory>
        ensures { OnOk result (Leads node port (way_in self.old) (way_in self.new)) }
    {
        match node {
            Node::Server => {
                self.server = Some(port);
                Ok(())
            }
            Node::Drive(drive) => keep_at(&mut self.drives, drive, port),
            Node::Client(client) => keep_at(&mut self.clients, client, port),
        }
    }
}
