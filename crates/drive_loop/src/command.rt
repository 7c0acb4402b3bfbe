// The command of a drive in memory alone.
ghost use Rattle.std.specs.Prelude.{◌≡◌, IfErr, IfOk};
ghost use Rattle.osd_bytes.specs.Reading.{TakesAtMost};
ghost use Rattle.osd_bytes.specs.declared.lines.TheConstants.{MAX_READ};
ghost use Rattle.cluster_text.specs.Outside.{streams_at};
ghost use Rattle.drive_command.specs.declared.stored_stop.StoredStop.TheVariants.{Command};
ghost use Rattle.drive_loop.specs.Ends.{EndsDrive, HasServed, HasStopped, MayListenAs, MayListenAsText, OfDrive, ServesAs};
ghost use Rattle.drive_loop.specs.Ends.{StopsDrive, StopsIn};
ghost use Rattle.drive_loop.specs.Service.{network_at};

use crate::drive_handler::DriveHandler;
use crate::service::serve_told;
use cluster_text::{Cluster, ClusterKind, CommandStop, Reader, cluster_from, put_stop};
use drive_command::{StoredStop, new_core, own_drive};
use osd_bytes::{Clock, Sink, Source};
use osd_drive::DriveCore;
use port_loop::{Notes, Ports};
use std::alloc::Global;

// Serves many connections over ports that listen, as this drive. The notes come back.
fn serve_core<N: Notes, K: Sink, P: Ports, C: Clock>(
    alloc: Global,
    core: DriveCore,
    connections: u32,
    sink: &mut K,
    ports: &mut P,
    notes: N,
    clock: &mut C,
) -> Result<N, (CommandStop, N)>
    ensures serves { IfOk result (λ left. HasServed connections
        (network_at P.Ports N.Notes C.Clock ports.old notes clock.old)
        (network_at P.Ports N.Notes C.Clock ports.new left clock.new) (K.taken sink.old) (K.taken sink.new) core) }
    ensures stops { IfErr result (λ e. HasStopped connections
        (network_at P.Ports N.Notes C.Clock ports.old notes clock.old)
        (network_at P.Ports N.Notes C.Clock ports.new e.1 clock.new)
        (K.taken sink.old) (K.taken sink.new) (K.faults sink.old) (K.faults sink.new) e.0 core) }
    ensures listens { P.listens ports.new ≡ P.listens ports.old }
{
    let mut handler = DriveHandler {
        server: core,
        notes,
        last: None,
    };
    match serve_told(alloc, &mut handler, connections, sink, ports, clock) {
        Ok(()) => Ok(handler.notes),
        Err(StoredStop::Command(stop)) => Err((stop, handler.notes)),
        // A drive in memory alone has no disk.
        Err(StoredStop::DiskFault) | Err(StoredStop::BadStore { .. }) => unreachable!(),
    }
}

// Serves many connections as the drive of this number, in a cluster that was read.
fn serve_in<N: Notes, K: Sink, P: Ports, C: Clock>(
    alloc: Global,
    cluster: &Cluster,
    number: u32,
    connections: u32,
    sink: &mut K,
    ports: &mut P,
    notes: N,
    clock: &mut C,
) -> Result<N, (CommandStop, N)>
    ensures serves { IfOk result (λ left. OfDrive number cluster.now (P.listens ports.new) (HasServed connections
        (network_at P.Ports N.Notes C.Clock ports.old notes clock.old)
        (network_at P.Ports N.Notes C.Clock ports.new left clock.new) (K.taken sink.old) (K.taken sink.new))) }
    ensures stops { IfErr result (λ e. StopsIn number cluster.now
        (network_at P.Ports N.Notes C.Clock ports.old notes clock.old)
        (network_at P.Ports N.Notes C.Clock ports.new e.1 clock.new)
        (P.listens ports.new) (K.taken sink.new ≡ K.taken sink.old) (HasStopped connections
        (network_at P.Ports N.Notes C.Clock ports.old notes clock.old)
        (network_at P.Ports N.Notes C.Clock ports.new e.1 clock.new)
        (K.taken sink.old) (K.taken sink.new) (K.faults sink.old) (K.faults sink.new) e.0) (Command e.0)) }
    ensures listens { MayListenAs number cluster.now (P.listens ports.old) (P.listens ports.new) }
{
    let Some(drive) = own_drive(cluster.drives.as_slice(), number) else {
        return Err((CommandStop::BadCluster(ClusterKind::Missing), notes));
    };
    let Some(key) = drive.key else {
        return Err((CommandStop::BadCluster(ClusterKind::Missing), notes));
    };
    // Here and below, arms in place of `?` or of the bare call are for the prover (docs/dev/PROVER_FORMS.md).
    match ports.listen(drive.address.as_slice()) {
        Ok(()) => {}
        Err(_) => return Err((CommandStop::LinkFault, notes)),
    }
    let core = match new_core(alloc, number, key, drive.capacity) {
        Ok(core) => core,
        Err(_) => return Err((CommandStop::Memory, notes)),
    };
    match serve_core(alloc, core, connections, sink, ports, notes, clock) {
        Ok(notes) => Ok(notes),
        Err(stop) => Err(stop),
    }
}

// Serves as the drive of the cluster that the source describes. A stop isn't told here.
fn serve_cluster<S: Source, N: Notes, K: Sink, P: Ports, C: Clock>(
    alloc: Global,
    number: u32,
    connections: u32,
    source: &mut S,
    sink: &mut K,
    ports: &mut P,
    notes: N,
    clock: &mut C,
) -> Result<N, (CommandStop, N)>
    ensures serves { IfOk result (λ left. ServesAs number connections
        (streams_at S.Source K.Sink source.old sink.old) (streams_at S.Source K.Sink source.new sink.new)
        (network_at P.Ports N.Notes C.Clock ports.old notes clock.old)
        (network_at P.Ports N.Notes C.Clock ports.new left clock.new) (P.listens ports.new)) }
    ensures stops { IfErr result (λ e. StopsDrive number connections
        (streams_at S.Source K.Sink source.old sink.old) (streams_at S.Source K.Sink source.new sink.new)
        (network_at P.Ports N.Notes C.Clock ports.old notes clock.old)
        (network_at P.Ports N.Notes C.Clock ports.new e.1 clock.new) (P.listens ports.new) e.0) }
    ensures listens { MayListenAsText number (S.left source.old) (S.left source.new)
        (P.listens ports.old) (P.listens ports.new) }
    ensures input { TakesAtMost MAX_READ (S.left source.old) (S.left source.new) }
{
    let cluster = match cluster_from(alloc, Reader::Drive(number), source) {
        Ok(cluster) => cluster,
        Err(stop) => return Err((stop, notes)),
    };
    match serve_in(
        alloc,
        &cluster,
        number,
        connections,
        sink,
        ports,
        notes,
        clock,
    ) {
        Ok(notes) => Ok(notes),
        Err(stop) => Err(stop),
    }
}

/// Serves many connections at once, until so many of them are over, as the drive of a number of the cluster that the source
/// describes. The sink is told `listening` once the drive listens at its own address, and `served` with the number of
/// connections at the end; or else, in a line of its own, why the drive stopped before. The notes come back.
///
/// # Errors
///
/// [`CommandStop::BadCluster`] exactly if the text is refused; [`CommandStop::ReadFault`];
/// [`CommandStop::Full`] exactly if the text passes 67,108,864 bytes; [`CommandStop::LinkFault`] only if the count of faults
/// of the ports rose: they couldn't listen, or be waited for; [`CommandStop::WriteFault`]; [`CommandStop::Memory`].
pub fn drive_command<S: Source, N: Notes, K: Sink, P: Ports, C: Clock>(
    alloc: Global,
    number: u32,
    connections: u32,
    source: &mut S,
    sink: &mut K,
    ports: &mut P,
    notes: N,
    clock: &mut C,
) -> Result<N, (CommandStop, N)>
    ensures serves { IfOk result (λ left. ServesAs number connections
        (streams_at S.Source K.Sink source.old sink.old) (streams_at S.Source K.Sink source.new sink.new)
        (network_at P.Ports N.Notes C.Clock ports.old notes clock.old)
        (network_at P.Ports N.Notes C.Clock ports.new left clock.new) (P.listens ports.new)) }
    ensures stops { IfErr result (λ e. EndsDrive number connections
        (streams_at S.Source K.Sink source.old sink.old) (streams_at S.Source K.Sink source.new sink.new)
        (network_at P.Ports N.Notes C.Clock ports.old notes clock.old)
        (network_at P.Ports N.Notes C.Clock ports.new e.1 clock.new) (P.listens ports.new) e.0) }
    ensures listens { MayListenAsText number (S.left source.old) (S.left source.new)
        (P.listens ports.old) (P.listens ports.new) }
    ensures input { TakesAtMost MAX_READ (S.left source.old) (S.left source.new) }
{
    match serve_cluster(
        alloc,
        number,
        connections,
        source,
        sink,
        ports,
        notes,
        clock,
    ) {
        Ok(notes) => Ok(notes),
        Err(stop) => {
            put_stop(sink, stop.0);
            Err(stop)
        }
    }
}
