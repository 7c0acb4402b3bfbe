// The top call: any command of the program, by its words.
ghost use Rattle.std.specs.Prelude.{◌≡◌, map, string_bytes};
ghost use Rattle.stripe_repair.specs.Placing.{IsPlacer};
ghost use Rattle.zone_place.specs.Choosing.{IsZonePlacer};
ghost use Rattle.pnfs_run.specs.Ends.{ends_at, ports_at};
ghost use Rattle.pnfs_run.specs.Party.{party_of};
ghost use Rattle.osd_bytes.specs.Reading.{TakesAtMost};
ghost use Rattle.osd_bytes.specs.declared.lines.TheConstants.{MAX_READ};
ghost use Rattle.pnfs_run.specs.Run.{AreBad, JudgesWords, Promises, RunsAlone};
ghost use Rattle.pnfs_run.specs.Stored.{KeepsDisk};

use crate::network::{run_client, run_drive, run_server};
use crate::party::{Party, party_named};
use crate::status::Status;
use crate::stored::{run_stored_drive, run_stored_server};
use drive_loop::Lent;
use osd_bytes::{Clock, Links, Sink, Source};
use osd_disk::Disk;
use osd_lists::{Memory, Numbers};
use port_loop::{Notes, Ports};
use std::alloc::Global;
use stripe_repair::{DriveLoad, Placement, Placer};
use zone_place::{ZoneAsk, ZoneLoad, ZonePlacer};

/// Runs the command that the words name over a source, a sink, links, ports, a clock and what is lent, and tells how it ended.
/// What is lent comes back. A drive serves over the ports, and all else asks over the links; a command without a store asks the
/// disk nothing. The two placers choose the drives of files: `zones` those of files that are spread over zones, and `placer`
/// those of all others.
pub fn run<S: Source, K: Sink, L: Links, P: Ports, N: Notes, C: Clock, D: Disk, F, Z>(
    alloc: Global,
    words: &[String],
    source: &mut S,
    sink: &mut K,
    links: &mut L,
    ports: &mut P,
    clock: &mut C,
    lent: Lent<D, N>,
    placer: &Placer<F>,
    zones: &ZonePlacer<Z>,
) -> (Status, Lent<D, N>)
where
    F: Fn(u32, &[DriveLoad]) -> Result<Numbers, Memory>,
    Z: Fn(&ZoneAsk, &[ZoneLoad]) -> Result<Numbers, Memory>,
    requires placer { IsPlacer F.Fn placer.now }
    requires zones { IsZonePlacer Z.Fn zones.now }
    ensures promise { Promises D.Disk lent.disk result.1.disk (party_of (map string_bytes words.now))
        (map string_bytes words.now)
        (ends_at S.Source K.Sink L.Links C.Clock source.old sink.old links.old clock.old
        (ports_at P.Ports N.Notes ports.old lent.notes))
        (ends_at S.Source K.Sink L.Links C.Clock source.new sink.new links.new clock.new
        (ports_at P.Ports N.Notes ports.new result.1.notes)) result.0 }
    ensures words { JudgesWords (AreBad (party_of (map string_bytes words.now)) (map string_bytes words.now)) result.0 }
    ensures disk { KeepsDisk (party_of (map string_bytes words.now)) lent.disk result.1.disk result.0 }
    ensures input { TakesAtMost MAX_READ (S.left source.old) (S.left source.new) }
{
    let placement = Placement {
        drives: placer,
        zones,
    };
    match party_named(words) {
        Some(Party::Drive) => {
            let Lent { disk, notes } = lent;
            let (status, notes) = run_drive(alloc, words, source, sink, ports, notes, clock);
            (status, Lent { disk, notes })
        }
        Some(Party::StoredDrive) => run_stored_drive(
            alloc, words, source, sink, ports, clock, lent,
        ),
        Some(Party::Server) => (
            run_server(alloc, words, source, sink, links, clock, &placement),
            lent,
        ),
        Some(Party::StoredServer) => {
            let Lent { disk, notes } = lent;
            let (status, disk) = run_stored_server(
                alloc, words, source, sink, links, clock, disk, &placement,
            );
            (status, Lent { disk, notes })
        }
        Some(Party::Client) => (run_client(alloc, words, source, sink, links), lent),
        None => (
            Status::from(osd_replay::run(alloc, words, source, sink, &placement)),
            lent,
        ),
    }
}
