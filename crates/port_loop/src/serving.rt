ghost use Rattle.std.specs.Prelude.{◌≡◌, ◌<◌, ◌≤◌, ◌+◌, ◌^◌, ℕ, List, [], Option, None, IsErrOf, OnOk};
ghost use Rattle.std.specs.Ordering.{nat_cmp};
ghost use Rattle.std.specs.BTreeMap.{get};
ghost use Rattle.osd_bytes.specs.Causes.{Rose};
ghost use Rattle.port_loop.specs.Points.{Leaves, Sets, Turns, around, calm, holding, on, with_over};
ghost use Rattle.port_loop.specs.Ports.{Adds};
ghost use Rattle.port_loop.specs.declared.ports.Happening.{Happening};
ghost use Rattle.port_loop.specs.declared.ports.Happening.TheVariants.{Came, Drained};
ghost use Rattle.port_loop.specs.Serving.{Desk, Serves, desk_at};
ghost use Rattle.port_loop.specs.declared.handler.HandlerErr.TheVariants.{Failed};
ghost use Rattle.port_loop.specs.declared.serving.LoopErr.TheVariants.{PortFault, HandlerFault};

use crate::answering::answer_all;
use crate::handler::{Handler, HandlerErr};
use crate::ports::{Arrival, Ports};
use crate::session::Session;
use crate::table::{Table, empty, lay, lift};
use osd_bytes::{Bytes, Clock, Fault, Memory};
use std::alloc::Global;
use thiserror::Error;

/// How many bytes of replies may wait on a connection. One on which more wait after a put is closed.
pub const MOST_UNSENT: usize = 8_388_608;

/// How many bytes are taken of a connection at once at most.
pub const PIECE: usize = 16_384;

/// Why the loop ended before its time.
#[derive(Clone, Copy, Debug, PartialEq, Eq, Error)]
pub enum LoopErr {
    /// The connections couldn't be waited for.
    #[error("the connections failed")]
    PortFault,
    /// The handler failed.
    #[error("the handler failed")]
    HandlerFault,
    /// There was no memory.
    #[error("out of memory")]
    Memory,
}

impl From<Fault> for LoopErr {
    ghost use Rattle.port_loop.specs.declared.serving.LoopErr.TheVariants.{PortFault};

    ghost from_gives = { λ _ e. e ≡ PortFault };

    fn from(_: Fault) -> Self {
        LoopErr::PortFault
    }
}

impl From<HandlerErr> for LoopErr {
    ghost use Rattle.port_loop.specs.Serving.{loop_err};

    ghost from_gives = { λ h e. e ≡ loop_err h };

    fn from(refused: HandlerErr) -> Self {
        match refused {
            HandlerErr::Failed => LoopErr::HandlerFault,
            HandlerErr::Memory => LoopErr::Memory,
        }
    }
}

impl From<Memory> for LoopErr {
    ghost use Rattle.port_loop.specs.declared.serving.LoopErr.TheVariants.{Memory};

    ghost from_gives = { λ _ e. e ≡ Memory };

    fn from(_: Memory) -> Self {
        LoopErr::Memory
    }
}

// Puts what there is room for on a connection whose session was lifted, and lays that again. The connection is closed if
// that fails, too much still waits, or a record on it was too long; `over` counts the connections that are over. `H` is the
// handler of which the contract speaks.
fn put_out<H: Handler, P: Ports>(
    ports: &mut P,
    table: &mut Table,
    port: u64,
    mut session: Session,
    over: &mut u64,
) -> Result<(), Memory>
    requires room { over.old + 1 < 2 ^ 64 }
    requires lifted { get nat_cmp table.old port ≡ None }
    ensures leaves { (desk : Desk H) → Leaves 0 H.Handler
        (around (P.opened ports.old) (P.told ports.old) desk over.old) (on port []) (holding port session (get nat_cmp table.old))
        (around (P.opened ports.new) (P.told ports.new) desk over.new) calm (get nat_cmp table.new) result }
    ensures one { over.new ≤ over.old + 1 }
    ensures listens { P.listens ports.new ≡ P.listens ports.old }
    ensures later { P.faults ports.old ≤ P.faults ports.new }
{
    match ports.put(port, session.unsent()) {
        Ok(count) => session.went(count)?,
        Err(_) => {
            ports.close(port);
            *over += 1;
            return Ok(());
        }
    }
    if session.is_broken() || session.unsent().len() > MOST_UNSENT {
        ports.close(port);
        *over += 1;
        return Ok(());
    }
    lay(table, port, session)?;
    Ok(())
}

// Handles the records that a piece completes, and puts the replies. What comes on a connection that isn't open is none of
// any.
fn bring<H: Handler, P: Ports, C: Clock>(
    alloc: Global,
    server: &mut H,
    ports: &mut P,
    clock: &mut C,
    table: &mut Table,
    port: u64,
    piece: &[u8],
    over: &mut u64,
) -> Result<(), HandlerErr>
    requires goes_on { H.goes_on server.old }
    requires room { over.old + 1 < 2 ^ 64 }
    ensures leaves { (before : Option (List Happening)) → Adds (Came port piece.now) before (P.told ports.old) →
        port < P.opened ports.old → Leaves 1 H.Handler
        (around (P.opened ports.old) before (desk_at server.old (C.times clock.old)) over.old) calm (get nat_cmp table.old)
        (around (P.opened ports.new) (P.told ports.new) (desk_at server.new (C.times clock.new)) over.new) calm
        (get nat_cmp table.new) result }
    ensures one { over.new ≤ over.old + 1 }
    ensures goes_on { OnOk result (H.goes_on server.new) }
    ensures handler { IsErrOf result Failed → Rose (H.faults server.old) (H.faults server.new) }
    ensures listens { P.listens ports.new ≡ P.listens ports.old }
    ensures later { P.faults ports.old ≤ P.faults ports.new }
    ensures server_later { H.faults server.old ≤ H.faults server.new }
{
    let mut session = match lift(table, port) {
        Some(session) => session,
        None => return Ok(()),
    };
    let records = session.read(piece)?;
    answer_all(alloc, server, clock, port, &mut session, &records)?;
    put_out::<H, P>(ports, table, port, session, over)?;
    Ok(())
}

// Puts more of what a connection owes, on which there is room again.
fn drain<H: Handler, P: Ports>(
    ports: &mut P,
    table: &mut Table,
    port: u64,
    over: &mut u64,
) -> Result<(), Memory>
    requires room { over.old + 1 < 2 ^ 64 }
    ensures leaves { (before : Option (List Happening)) (desk : Desk H) →
        Adds (Drained port) before (P.told ports.old) → Leaves 1 H.Handler
        (around (P.opened ports.old) before desk over.old) calm (get nat_cmp table.old)
        (around (P.opened ports.new) (P.told ports.new) desk over.new) calm (get nat_cmp table.new) result }
    ensures one { over.new ≤ over.old + 1 }
    ensures listens { P.listens ports.new ≡ P.listens ports.old }
    ensures later { P.faults ports.old ≤ P.faults ports.new }
{
    match lift(table, port) {
        Some(session) => put_out::<H, P>(ports, table, port, session, over)?,
        None => {}
    }
    Ok(())
}

// Drops the session of a connection that ended, if there is one.
fn end(table: &mut Table, port: u64, over: &mut u64)
    requires { over.old + 1 < 2 ^ 64 }
    ensures sets { Sets port None (get nat_cmp table.old) (get nat_cmp table.new) }
    ensures over { over.new ≡ with_over (get nat_cmp table.old port) over.old }
{
    match lift(table, port) {
        Some(_) => *over += 1,
        None => {}
    }
}

// Waits for what happens next, and does what it asks for.
fn turn<H: Handler, P: Ports, C: Clock>(
    alloc: Global,
    server: &mut H,
    ports: &mut P,
    clock: &mut C,
    table: &mut Table,
    space: &mut Bytes,
    over: &mut u64,
) -> Result<(), LoopErr>
    requires goes_on { H.goes_on server.old }
    requires room { over.old + 1 < 2 ^ 64 }
    ensures turns { Turns H.Handler
        (around (P.opened ports.old) (P.told ports.old) (desk_at server.old (C.times clock.old)) over.old) (get nat_cmp table.old)
        (around (P.opened ports.new) (P.told ports.new) (desk_at server.new (C.times clock.new)) over.new) (get nat_cmp table.new)
        result }
    ensures one { over.new ≤ over.old + 1 }
    ensures goes_on { OnOk result (H.goes_on server.new) }
    ensures port_goes_on { IsErrOf result PortFault → H.goes_on server.new }
    ensures port { IsErrOf result PortFault → Rose (P.faults ports.old) (P.faults ports.new) }
    ensures handler { IsErrOf result HandlerFault → Rose (H.faults server.old) (H.faults server.new) }
    ensures listens { P.listens ports.new ≡ P.listens ports.old }
    ensures later { P.faults ports.old ≤ P.faults ports.new }
    ensures server_later { H.faults server.old ≤ H.faults server.new }
{
    space.grow(PIECE)?;
    match ports.next(space.as_mut_slice())? {
        Arrival::Opens { port } => lay(table, port, Session::new(alloc))?,
        Arrival::Brings { port, count } => {
            let (piece, _) = space.as_slice().split_at(count);
            bring(alloc, server, ports, clock, table, port, piece, over)?;
        }
        Arrival::Drains { port } => drain::<H, P>(ports, table, port, over)?,
        Arrival::Closes { port } => end(table, port, over),
        Arrival::Quiet => {}
    }
    Ok(())
}

/// Serves all connections at once, until so many of them are over, or for so many turns. In each turn one thing happens on
/// one of them: it begins, a piece of it comes, there is room on it again, or it ends; or nothing happens for a while.
///
/// Each record that comes whole is handled at the next time of the clock, in the order in which they are taken, and its
/// reply put on its connection as there is room, so that no peer holds another up. Before the loop waits again, it has
/// handled each record that came whole, and an open connection owes nothing unless it is full. A connection is closed only
/// if a record on it is too long, a put on it fails, or more than [`MOST_UNSENT`] bytes wait on it. The records before one
/// that is too long are handled. What comes on a connection that began before this call is dropped. Those that are open at
/// the end stay so.
///
/// # Errors
///
/// [`LoopErr::PortFault`] only if the count of the ports rose, [`LoopErr::HandlerFault`] only if that of the handler
/// rose, and [`LoopErr::Memory`]. Each record was handled to its end then, but perhaps one at which the handler failed.
pub fn serve_many<H: Handler, P: Ports, C: Clock>(
    alloc: Global,
    server: &mut H,
    ports: &mut P,
    clock: &mut C,
    connections: u32,
    turns: u64,
) -> Result<(), LoopErr>
    requires { H.goes_on server.old }
    ensures serves { Serves H.Handler (desk_at server.old (C.times clock.old)) (desk_at server.new (C.times clock.new))
        (P.told ports.old) (P.told ports.new) connections turns result }
    ensures listens { P.listens ports.new ≡ P.listens ports.old }
    ensures port { IsErrOf result PortFault → Rose (P.faults ports.old) (P.faults ports.new) }
    ensures handler { IsErrOf result HandlerFault → Rose (H.faults server.old) (H.faults server.new) }
{
    let connections = u64::from(connections);
    let mut table = empty(alloc);
    let mut space = Bytes::new(alloc);
    let mut over = 0;
    for _ in 0..turns {
        if over >= connections {
            return Ok(());
        }
        turn(
            alloc, server, ports, clock, &mut table, &mut space, &mut over,
        )?;
    }
    Ok(())
}
