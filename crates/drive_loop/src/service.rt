// What a drive serves once its ports listen, and the lines before and after.
ghost use Rattle.std.specs.Prelude.{◌≡◌, false, List, None, IfErr, OnOk};
ghost use Rattle.drive_command.specs.GoesOn.{WentOn};
ghost use Rattle.drive_loop.specs.Service.{Serves, StopsServer, network_at};
ghost use Rattle.drive_loop.specs.Serving.{records_in};
ghost use Rattle.port_loop.specs.Steps.{Step};

use crate::drive_handler::DriveHandler;
use crate::serving::serve_drive;
use cluster_text::{CommandStop, served_line};
use drive_command::{DeviceServer, StoredStop, stop_of_serving};
use osd_bytes::{Clock, Sink, put_all};
use port_loop::{Notes, Ports};
use std::alloc::Global;

// Serves many connections until so many of them are over, and tells when that begins and when it is over.
pub(crate) fn serve_told<H: DeviceServer, N: Notes, K: Sink, P: Ports, C: Clock>(
    alloc: Global,
    handler: &mut DriveHandler<H, N>,
    connections: u32,
    sink: &mut K,
    ports: &mut P,
    clock: &mut C,
) -> Result<(), StoredStop>
    requires goes_on { H.is_over handler.old.server ≡ false }
    requires untold { handler.old.last ≡ None }
    ensures serves { OnOk result ((steps : List Step)
        × Serves connections (H.drive handler.old.server) (H.drive handler.new.server)
        (network_at P.Ports N.Notes C.Clock ports.old handler.old.notes clock.old)
        (network_at P.Ports N.Notes C.Clock ports.new handler.new.notes clock.new)
        (K.taken sink.old) (K.taken sink.new) steps
        × WentOn H.DeviceServer (records_in steps) handler.old.server handler.new.server) }
    ensures stops { IfErr result (StopsServer H.DeviceServer connections handler.old.server handler.new.server
        (network_at P.Ports N.Notes C.Clock ports.old handler.old.notes clock.old)
        (network_at P.Ports N.Notes C.Clock ports.new handler.new.notes clock.new)
        (K.taken sink.old) (K.taken sink.new) (K.faults sink.old) (K.faults sink.new)) }
    ensures listens { P.listens ports.new ≡ P.listens ports.old }
{
    let served = served_line(alloc, connections)?;
    match put_all(sink, b"listening\n") {
        Ok(()) => {}
        Err(_) => return Err(StoredStop::Command(CommandStop::WriteFault)),
    }
    // Here and below, arms in place of `?` or of the bare call are for the prover (docs/dev/PROVER_FORMS.md).
    match serve_drive(alloc, handler, ports, clock, connections) {
        Ok(()) => {}
        Err(e) => return Err(stop_of_serving(e)),
    }
    match put_all(sink, served.as_bytes()) {
        Ok(()) => Ok(()),
        Err(_) => Err(StoredStop::Command(CommandStop::WriteFault)),
    }
}
