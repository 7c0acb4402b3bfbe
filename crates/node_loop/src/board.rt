ghost use Rattle.std.specs.Prelude.{◌≡◌, ℕ, None, Some, OnOk};
ghost use Rattle.std.specs.Ordering.{nat_cmp};
ghost use Rattle.std.specs.BTreeMap.{get};
ghost use Rattle.osd_lists.specs.declared.node.Node.{Node};
ghost use Rattle.node_loop.specs.Nodes.{Sets, way_in};
ghost use Rattle.node_loop.specs.Points.{Reaches, over_after};

use crate::peer::Peer;
use crate::ways::Ways;
use osd_bytes::{Memory, Node};
use std::alloc::Global;
use std::collections::BTreeMap;

/// What is kept of the connections that are open, by their numbers.
pub(crate) type Table = BTreeMap<u64, Peer>;

/// What a loop keeps of its connections.
#[derive(Drop)]
pub(crate) struct Board {
    pub(crate) table: Table,
    pub(crate) ways: Ways,
    /// How many connections that others began are over.
    pub(crate) over: u64,
}

impl Board {
    /// Of no connection.
    pub(crate) fn new(alloc: Global) -> Self
        ensures none { (q : ℕ) → get nat_cmp result.table q ≡ None }
        ensures ways { (n : Node) → way_in result.ways n ≡ None }
        ensures over { result.over ≡ 0 }
    {
        Board {
            table: BTreeMap::new(alloc),
            ways: Ways::new(alloc),
            over: 0,
        }
    }
}

/// What is kept of a connection, which isn't in the table any more.
pub(crate) fn lift(table: &mut Table, port: u64) -> Option<Peer>
    ensures was { result ≡ get nat_cmp table.old port }
    ensures sets { Sets port None (get nat_cmp table.old) (get nat_cmp table.new) }
{
    table.remove(&port)
}

/// Keeps this of a connection.
pub(crate) fn lay(table: &mut Table, port: u64, peer: Peer) -> Result<(), Memory>
    ensures sets { OnOk result (Sets port (Some peer) (get nat_cmp table.old) (get nat_cmp table.new)) }
{
    match table.insert(port, peer) {
        Ok(_) => Ok(()),
        Err(_) => Err(Memory),
    }
}

/// The open connection on which a node is reached, which isn't in the table any more.
pub(crate) fn reach(table: &mut Table, ways: &Ways, node: Node) -> Option<(u64, Peer)>
    ensures { Reaches (way_in ways.now node) (get nat_cmp table.old) (get nat_cmp table.new) result }
{
    let port = match ways.of(node) {
        Some(port) => port,
        None => return None,
    };
    match lift(table, port) {
        Some(peer) => Some((port, peer)),
        None => None,
    }
}

/// One connection more is over, which others began if it wasn't opened towards a node.
pub(crate) fn count_over(to: Option<Node>, over: &mut u64)
    ensures { over.new ≡ over_after to over.old }
{
    match to {
        Some(_) => {}
        None => *over = over.saturating_add(1),
    }
}
