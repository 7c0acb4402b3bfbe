ghost use Rattle.std.specs.Prelude.{◌≡◌, ℕ, None, Some, OnOk};
ghost use Rattle.std.specs.Ordering.{nat_cmp};
ghost use Rattle.std.specs.BTreeMap.{get};
ghost use Rattle.port_loop.specs.Points.{Sets};

use crate::session::Session;
use osd_bytes::Memory;
use std::alloc::Global;
use std::collections::BTreeMap;

/// The sessions of the connections that are open, by their numbers.
pub(crate) type Table = BTreeMap<u64, Session>;

/// A table without a session.
pub(crate) fn empty(alloc: Global) -> Table
    ensures { (q : ℕ) → get nat_cmp result q ≡ None }
{
    BTreeMap::new(alloc)
}

/// The session of a connection, which is in the table no more.
pub(crate) fn lift(table: &mut Table, port: u64) -> Option<Session>
    ensures was { result ≡ get nat_cmp table.old port }
    ensures sets { Sets port None (get nat_cmp table.old) (get nat_cmp table.new) }
{
    table.remove(&port)
}

/// Puts the session of a connection into the table.
pub(crate) fn lay(table: &mut Table, port: u64, session: Session) -> Result<(), Memory>
    ensures sets { OnOk result (Sets port (Some session) (get nat_cmp table.old) (get nat_cmp table.new)) }
{
    match table.insert(port, session) {
        Ok(_) => Ok(()),
        Err(_) => Err(Memory),
    }
}
