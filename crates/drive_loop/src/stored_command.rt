// The command of a drive with a store.
ghost use Rattle.std.specs.Prelude.{◌≡◌, IfErr, IfOk};
ghost use Rattle.osd_bytes.specs.Reading.{TakesAtMost};
ghost use Rattle.osd_bytes.specs.declared.lines.TheConstants.{MAX_READ};
ghost use Rattle.cluster_text.specs.Outside.{streams_at};
ghost use Rattle.drive_command.specs.Opened.{first_of};
ghost use Rattle.drive_loop.specs.Ends.{MayListenAs, MayListenAsText, OfDrive, StopsIn};
ghost use Rattle.drive_loop.specs.Service.{network_at};
ghost use Rattle.drive_loop.specs.StoredEnds.{EndsStored, IsAlone, ServesStoredAs, StopsStored};
ghost use Rattle.drive_loop.specs.StoredService.{ServesFrom, StopsFrom};

use crate::drive_handler::DriveHandler;
use crate::service::serve_told;
use cluster_text::{Cluster, ClusterKind, CommandStop, Reader, cluster_from};
use drive_command::{OwnStore, StoredStop, own_drive, put_stored_stop, store_on};
use osd_bytes::{Clock, Sink, Source};
use osd_disk::Disk;
use port_loop::{Notes, Ports};
use std::alloc::Global;

/// What a drive with a store is lent, and gives back.
#[derive(Drop)]
pub struct Lent<D, N> {
    /// The disk that has its store.
    pub disk: D,
    /// Whoever watches it.
    pub notes: N,
}

// Serves many connections over ports that listen, from the store of this drive on a disk.
fn serve_from<D: Disk, N: Notes, K: Sink, P: Ports, C: Clock>(
    alloc: Global,
    own: OwnStore,
    name: &str,
    connections: u32,
    sink: &mut K,
    ports: &mut P,
    lent: Lent<D, N>,
    clock: &mut C,
) -> Result<Lent<D, N>, (StoredStop, Lent<D, N>)>
    ensures serves { IfOk result (λ left. ServesFrom D.Disk connections
        (network_at P.Ports N.Notes C.Clock ports.old lent.notes clock.old)
        (network_at P.Ports N.Notes C.Clock ports.new left.notes clock.new)
        (K.taken sink.old) (K.taken sink.new) lent.disk left.disk (first_of own)) }
    ensures stops { IfErr result (λ e. StopsFrom D.Disk connections
        (network_at P.Ports N.Notes C.Clock ports.old lent.notes clock.old)
        (network_at P.Ports N.Notes C.Clock ports.new e.1.notes clock.new)
        (K.taken sink.old) (K.taken sink.new) (K.faults sink.old) (K.faults sink.new) lent.disk e.1.disk e.0 (first_of own)) }
    ensures listens { P.listens ports.new ≡ P.listens ports.old }
{
    let Lent { disk, notes } = lent;
    let store = match store_on(alloc, disk, name, own) {
        Ok(store) => store,
        Err((stop, disk)) => return Err((stop, Lent { disk, notes })),
    };
    let mut handler = DriveHandler {
        server: store,
        notes,
        last: None,
    };
    match serve_told(alloc, &mut handler, connections, sink, ports, clock) {
        Ok(()) => Ok(Lent {
            disk: handler.server.into_disk(),
            notes: handler.notes,
        }),
        Err(stop) => {
            let disk = handler.server.into_disk();
            let notes = handler.notes;
            Err((stop, Lent { disk, notes }))
        }
    }
}

// Serves many connections as the drive of this number, in a cluster that was read, from the store on a disk.
fn serve_stored_in<D: Disk, N: Notes, K: Sink, P: Ports, C: Clock>(
    alloc: Global,
    cluster: &Cluster,
    number: u32,
    connections: u32,
    name: &str,
    sink: &mut K,
    ports: &mut P,
    lent: Lent<D, N>,
    clock: &mut C,
) -> Result<Lent<D, N>, (StoredStop, Lent<D, N>)>
    ensures serves { IfOk result (λ left. OfDrive number cluster.now (P.listens ports.new) (ServesFrom D.Disk connections
        (network_at P.Ports N.Notes C.Clock ports.old lent.notes clock.old)
        (network_at P.Ports N.Notes C.Clock ports.new left.notes clock.new)
        (K.taken sink.old) (K.taken sink.new) lent.disk left.disk)) }
    ensures stops { IfErr result (λ e. StopsIn number cluster.now
        (network_at P.Ports N.Notes C.Clock ports.old lent.notes clock.old)
        (network_at P.Ports N.Notes C.Clock ports.new e.1.notes clock.new)
        (P.listens ports.new) (IsAlone (K.taken sink.old) (K.taken sink.new) lent.disk e.1.disk)
        (StopsFrom D.Disk connections (network_at P.Ports N.Notes C.Clock ports.old lent.notes clock.old)
        (network_at P.Ports N.Notes C.Clock ports.new e.1.notes clock.new)
        (K.taken sink.old) (K.taken sink.new) (K.faults sink.old) (K.faults sink.new) lent.disk e.1.disk e.0) e.0) }
    ensures listens { MayListenAs number cluster.now (P.listens ports.old) (P.listens ports.new) }
{
    let Some(drive) = own_drive(cluster.drives.as_slice(), number) else {
        return Err((
            StoredStop::Command(CommandStop::BadCluster(ClusterKind::Missing)),
            lent,
        ));
    };
    let Some(key) = drive.key else {
        return Err((
            StoredStop::Command(CommandStop::BadCluster(ClusterKind::Missing)),
            lent,
        ));
    };
    // Here and below, arms in place of `?` or of the bare call are for the prover (docs/dev/PROVER_FORMS.md).
    match ports.listen(drive.address.as_slice()) {
        Ok(()) => {}
        Err(_) => return Err((StoredStop::Command(CommandStop::LinkFault), lent)),
    }
    let own = OwnStore {
        number,
        key,
        capacity: drive.capacity,
    };
    match serve_from(alloc, own, name, connections, sink, ports, lent, clock) {
        Ok(lent) => Ok(lent),
        Err(refusal) => Err(refusal),
    }
}

// Serves as the drive of the cluster that the source describes. A stop isn't told here.
fn serve_stored_cluster<S: Source, D: Disk, N: Notes, K: Sink, P: Ports, C: Clock>(
    alloc: Global,
    number: u32,
    connections: u32,
    name: &str,
    source: &mut S,
    sink: &mut K,
    ports: &mut P,
    lent: Lent<D, N>,
    clock: &mut C,
) -> Result<Lent<D, N>, (StoredStop, Lent<D, N>)>
    ensures serves { IfOk result (λ left. ServesStoredAs D.Disk number connections
        (streams_at S.Source K.Sink source.old sink.old) (streams_at S.Source K.Sink source.new sink.new)
        (network_at P.Ports N.Notes C.Clock ports.old lent.notes clock.old)
        (network_at P.Ports N.Notes C.Clock ports.new left.notes clock.new) (P.listens ports.new) lent.disk left.disk) }
    ensures stops { IfErr result (λ e. StopsStored D.Disk number connections
        (streams_at S.Source K.Sink source.old sink.old) (streams_at S.Source K.Sink source.new sink.new)
        (network_at P.Ports N.Notes C.Clock ports.old lent.notes clock.old)
        (network_at P.Ports N.Notes C.Clock ports.new e.1.notes clock.new) (P.listens ports.new) lent.disk e.1.disk e.0) }
    ensures listens { MayListenAsText number (S.left source.old) (S.left source.new)
        (P.listens ports.old) (P.listens ports.new) }
    ensures input { TakesAtMost MAX_READ (S.left source.old) (S.left source.new) }
{
    let cluster = match cluster_from(alloc, Reader::Drive(number), source) {
        Ok(cluster) => cluster,
        Err(stop) => return Err((StoredStop::Command(stop), lent)),
    };
    match serve_stored_in(
        alloc,
        &cluster,
        number,
        connections,
        name,
        sink,
        ports,
        lent,
        clock,
    ) {
        Ok(lent) => Ok(lent),
        Err(refusal) => Err(refusal),
    }
}

/// Serves many connections at once, until so many of them are over, as the drive of a number of the cluster that the source
/// describes, from its store: the file of this name, if the disk is one. An empty disk becomes the store of a drive without
/// objects, which has the capacity that the text says. The sink is told `listening` and `served` as by
/// [`crate::drive_command`], or else, in a line of its own, why the drive stopped before. What was lent comes back.
///
/// # Errors
///
/// [`StoredStop::Command`] for the causes of [`crate::drive_command`], which come first; [`StoredStop::DiskFault`] only if
/// the disk's count of faults rose; [`StoredStop::BadStore`] exactly if what the disk has isn't in the form of a store from
/// this byte on, or is the store of another number, with 8.
pub fn stored_drive_command<S: Source, D: Disk, N: Notes, K: Sink, P: Ports, C: Clock>(
    alloc: Global,
    number: u32,
    connections: u32,
    name: &str,
    source: &mut S,
    sink: &mut K,
    ports: &mut P,
    lent: Lent<D, N>,
    clock: &mut C,
) -> Result<Lent<D, N>, (StoredStop, Lent<D, N>)>
    ensures serves { IfOk result (λ left. ServesStoredAs D.Disk number connections
        (streams_at S.Source K.Sink source.old sink.old) (streams_at S.Source K.Sink source.new sink.new)
        (network_at P.Ports N.Notes C.Clock ports.old lent.notes clock.old)
        (network_at P.Ports N.Notes C.Clock ports.new left.notes clock.new) (P.listens ports.new) lent.disk left.disk) }
    ensures stops { IfErr result (λ e. EndsStored D.Disk number connections
        (streams_at S.Source K.Sink source.old sink.old) (streams_at S.Source K.Sink source.new sink.new)
        (network_at P.Ports N.Notes C.Clock ports.old lent.notes clock.old)
        (network_at P.Ports N.Notes C.Clock ports.new e.1.notes clock.new) (P.listens ports.new) lent.disk e.1.disk e.0) }
    ensures listens { MayListenAsText number (S.left source.old) (S.left source.new)
        (P.listens ports.old) (P.listens ports.new) }
    ensures input { TakesAtMost MAX_READ (S.left source.old) (S.left source.new) }
{
    match serve_stored_cluster(
        alloc,
        number,
        connections,
        name,
        source,
        sink,
        ports,
        lent,
        clock,
    ) {
        Ok(lent) => Ok(lent),
        Err(refusal) => {
            let cause = put_stored_stop(alloc, sink, refusal.0);
            Err((cause, refusal.1))
        }
    }
}
