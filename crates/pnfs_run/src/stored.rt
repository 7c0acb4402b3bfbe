// The commands of a drive and of a server with a store.
ghost use Rattle.std.specs.Prelude.{Option, map, string_bytes};
ghost use Rattle.osd_bytes.specs.Connections.{Standing, Traffic};
ghost use Rattle.osd_bytes.specs.Counts.{Faults};
ghost use Rattle.osd_bytes.specs.Reading.{TakesAtMost};
ghost use Rattle.osd_bytes.specs.declared.lines.TheConstants.{MAX_READ};
ghost use Rattle.command_words.specs.declared.words.WordsErr.TheVariants as words_err;
ghost use Rattle.command_words.specs.Asked.{Refuses};
ghost use Rattle.command_words.specs.StoredAsked.{stored_drive_gives, stored_drive_options};
ghost use Rattle.command_words.specs.StoredAsked.{stored_server_gives, stored_server_options};
ghost use Rattle.pnfs_run.specs.Ends.{OnPorts, ends, ends_at, ports_at};
ghost use Rattle.pnfs_run.specs.Network.{Runs};
ghost use Rattle.pnfs_run.specs.Run.{JudgesWords};
ghost use Rattle.pnfs_run.specs.Stored.{LeavesDisk, StoredDriveEnds, StoredServerEnds};

use crate::network::words_refused;
use crate::status::Status;
use command_words::{stored_drive_words, stored_server_words};
use drive_loop::{Lent, stored_drive_command};
use osd_bytes::{Clock, Links, Sink, Source};
use osd_disk::Disk;
use port_loop::{Notes, Ports};
use std::alloc::Global;
use stored_server::stored_server_command;
use stripe_repair::Place;

/// Serves as a drive that is kept on the disk that is lent. What is lent comes back.
pub(crate) fn run_stored_drive<S: Source, K: Sink, P: Ports, N: Notes, C: Clock, D: Disk>(
    alloc: Global,
    words: &[String],
    source: &mut S,
    sink: &mut K,
    ports: &mut P,
    clock: &mut C,
    lent: Lent<D, N>,
) -> (Status, Lent<D, N>)
    ensures promise { (told : Option Traffic) (faults : Faults) (standing : Standing) →
        Runs stored_drive_options stored_drive_gives (StoredDriveEnds D.Disk lent.disk result.1.disk)
        (map string_bytes words.now)
        (ends (S.left source.old) (S.faults source.old) (K.taken sink.old) (K.faults sink.old) told faults standing
        (C.times clock.old) (ports_at P.Ports N.Notes ports.old lent.notes))
        (ends (S.left source.new) (S.faults source.new) (K.taken sink.new) (K.faults sink.new) told faults standing
        (C.times clock.new) (ports_at P.Ports N.Notes ports.new result.1.notes)) result.0 }
    ensures words { JudgesWords
        (Refuses stored_drive_options stored_drive_gives (map string_bytes words.now) words_err.Bad) result.0 }
    ensures disk { LeavesDisk lent.disk result.1.disk result.0 }
    ensures input { TakesAtMost MAX_READ (S.left source.old) (S.left source.new) }
{
    let asked = match stored_drive_words(alloc, words) {
        Ok(asked) => asked,
        Err(e) => return (words_refused(sink, e), lent),
    };
    let (number, connections) = (asked.drive.number, asked.drive.connections);
    let name = asked.store.as_str();
    match stored_drive_command(
        alloc,
        number,
        connections,
        name,
        source,
        sink,
        ports,
        lent,
        clock,
    ) {
        Ok(lent) => (Status::Done, lent),
        Err(refusal) => (Status::from(refusal.0), refusal.1),
    }
}

/// Serves as a metadata server that is kept on the disk, which comes back.
pub(crate) fn run_stored_server<S: Source, K: Sink, L: Links, C: Clock, D: Disk, P: Place>(
    alloc: Global,
    words: &[String],
    source: &mut S,
    sink: &mut K,
    links: &mut L,
    clock: &mut C,
    disk: D,
    placer: &P,
) -> (Status, D)
    requires { P.is_placer placer.now }
    ensures promise { (ports : OnPorts) →
        Runs stored_server_options stored_server_gives (StoredServerEnds D.Disk disk result.1) (map string_bytes words.now)
        (ends_at S.Source K.Sink L.Links C.Clock source.old sink.old links.old clock.old ports)
        (ends_at S.Source K.Sink L.Links C.Clock source.new sink.new links.new clock.new ports) result.0 }
    ensures words { JudgesWords
        (Refuses stored_server_options stored_server_gives (map string_bytes words.now) words_err.Bad) result.0 }
    ensures disk { LeavesDisk disk result.1 result.0 }
    ensures input { TakesAtMost MAX_READ (S.left source.old) (S.left source.new) }
{
    let asked = match stored_server_words(alloc, words) {
        Ok(asked) => asked,
        Err(e) => return (words_refused(sink, e), disk),
    };
    let connections = asked.server.connections;
    let name = asked.store.as_str();
    match stored_server_command(
        alloc,
        connections,
        name,
        source,
        sink,
        links,
        clock,
        placer,
        disk,
    ) {
        Ok(disk) => (Status::Done, disk),
        Err(refusal) => (Status::from(refusal.0), refusal.1),
    }
}
