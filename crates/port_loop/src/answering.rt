ghost use Rattle.std.specs.Prelude.{◌≤◌, [], ℕ, List, Option, IsErrOf, OnOk};
ghost use Rattle.osd_bytes.specs.Causes.{Rose};
ghost use Rattle.port_loop.specs.Points.{Leaves, around, holding, on};
ghost use Rattle.port_loop.specs.Serving.{desk_at};
ghost use Rattle.port_loop.specs.declared.ports.Happening.{Happening};
ghost use Rattle.port_loop.specs.Sessions.{Sess};
ghost use Rattle.port_loop.specs.declared.handler.HandlerErr.TheVariants.{Failed};

use crate::handler::{Handler, HandlerErr};
use crate::session::Session;
use osd_bytes::{ByteLists, Clock};
use std::alloc::Global;

/// Handles the records of a connection in order, each at the next time of the clock, and has its session owe the replies.
pub(crate) fn answer_all<H: Handler, C: Clock>(
    alloc: Global,
    server: &mut H,
    clock: &mut C,
    port: u64,
    session: &mut Session,
    records: &ByteLists,
) -> Result<(), HandlerErr>
    requires { H.goes_on server.old }
    ensures leaves { (opened over : ℕ) (told : Option (List Happening)) (at : ℕ → Option Sess) → Leaves 0 H.Handler
        (around opened told (desk_at server.old (C.times clock.old)) over) (on port records.now) (holding port session.old at)
        (around opened told (desk_at server.new (C.times clock.new)) over) (on port []) (holding port session.new at) result }
    ensures goes_on { OnOk result (H.goes_on server.new) }
    ensures handler { IsErrOf result Failed → Rose (H.faults server.old) (H.faults server.new) }
    ensures later { H.faults server.old ≤ H.faults server.new }
{
    let _ = port;
    for i in 0..records.len() {
        let now = clock.now();
        let reply = server.handle(alloc, now, records.get(i).as_slice())?;
        session.owe(reply.as_slice())?;
    }
    Ok(())
}
