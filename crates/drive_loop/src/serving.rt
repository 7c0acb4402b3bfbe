// A drive serves many connections.
ghost use Rattle.std.specs.Prelude.{◌≡◌, false, IsErrOf};
ghost use Rattle.osd_bytes.specs.Causes.{Rose};
ghost use Rattle.drive_command.specs.declared.serve_err.DriveServeErr.TheVariants.{DiskFault, LinkFault};
ghost use Rattle.drive_loop.specs.Serving.{EndsMany, seen_at, serve_err_of};

use crate::drive_handler::DriveHandler;
use drive_command::{DeviceServer, DriveServeErr};
use osd_bytes::Clock;
use port_loop::{LoopErr, Notes, Ports, serve_many};
use std::alloc::Global;

/// How often a drive waits for what happens next on its connections at most.
pub const MOST_TURNS: u64 = u64::MAX;

// Why serving stops if the loop ends for this reason.
fn serve_err_of(e: LoopErr) -> DriveServeErr
    ensures { result ≡ serve_err_of e }
{
    match e {
        LoopErr::PortFault => DriveServeErr::LinkFault,
        LoopErr::HandlerFault => DriveServeErr::DiskFault,
        LoopErr::Memory => DriveServeErr::Memory,
    }
}

/// Serves many connections at once, until so many of them are over.
///
/// Every whole record that comes is handled at the next time of the clock, in the order in which they are taken, and its
/// reply put on its connection after that as there is room. So no peer holds another up. Before the drive waits again, each
/// record that came whole was handled, and an open connection owes nothing unless it is full.
///
/// Whoever watches the drive is told in a line of a command that it refused, at most once in a second.
///
/// If the drive is kept on a disk, a crash at any moment leaves it there as some of the records that were handled left
/// it, none of them left out before another; and at the end it is there as it is. What was put are replies to records
/// that were handled to their ends.
///
/// # Errors
///
/// [`DriveServeErr::LinkFault`] only if the count of the ports rose, after all that came was served;
/// [`DriveServeErr::DiskFault`] only if the count of faults of the disk that keeps the drive rose;
/// [`DriveServeErr::Memory`]. The drive then is as the handled records leave it. Of the record at which the disk failed
/// nothing was put.
pub fn serve_drive<H: DeviceServer, N: Notes, P: Ports, C: Clock>(
    alloc: Global,
    handler: &mut DriveHandler<H, N>,
    ports: &mut P,
    clock: &mut C,
    connections: u32,
) -> Result<(), DriveServeErr>
    requires { H.is_over handler.old.server ≡ false }
    ensures ends { EndsMany H.DeviceServer connections handler.old.server handler.new.server
        (seen_at N.Notes handler.old (P.told ports.old) (C.times clock.old))
        (seen_at N.Notes handler.new (P.told ports.new) (C.times clock.new)) result }
    ensures listens { P.listens ports.new ≡ P.listens ports.old }
    ensures link { IsErrOf result LinkFault → Rose (P.faults ports.old) (P.faults ports.new) }
    ensures disk { IsErrOf result DiskFault → Rose (H.faults handler.old.server) (H.faults handler.new.server) }
{
    match serve_many(alloc, handler, ports, clock, connections, MOST_TURNS) {
        Ok(()) => Ok(()),
        Err(e) => Err(serve_err_of(e)),
    }
}
