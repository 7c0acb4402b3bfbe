// What is asked before a drive or a file is made, and how it is told that a file isn't.
ghost use Rattle.std.specs.Prelude.{◌≡◌, ◌↔◌, ◌==◌, ◌&&◌, nat_eq, is_some, IfOk, IsTrue};
ghost use Rattle.std.specs.List.{list_any};
ghost use Rattle.data_map.specs.Check.{HasAlgorithm};
ghost use Rattle.world_history.specs.Moves.{raw_of, has_algorithm};
ghost use Rattle.layout_world.specs.Making.{IsRefusedAs};

use data_map::{RAID_0, RAID_PQ, RawMap};
use layout_server::FileErr;
use osd_lists::Memory;
use scenario_text::{FileMap, FileName, Line, Note};
use server_rules::Drive;
use std::alloc::Global;
use world_network::{Act, told_map_err};

/// The map of an event.
pub fn raw_map(map: &FileMap) -> RawMap
    ensures { result ≡ raw_of map.now }
{
    RawMap {
        comps: map.components,
        unit: map.unit,
        width: map.width,
        depth: map.depth,
        mirrors: map.mirrors,
        algorithm: map.algorithm,
    }
}

/// Whether a map names one of the parity algorithms. The text of a scenario spells no other map.
pub fn has_algorithm(map: &FileMap) -> bool
    ensures value { result ≡ has_algorithm (raw_of map.now) }
    ensures fits { IsTrue result ↔ HasAlgorithm (raw_of map.now) }
{
    RAID_0 <= map.algorithm && map.algorithm <= RAID_PQ
}

/// Whether one of the drives has that number.
pub fn has_number(drives: &[Drive], number: u32) -> bool
    ensures { result ≡ list_any (λ d. nat_eq d.number number) drives.now }
{
    drives.iter().any(|drive| drive.number == number)
}

/// Whether one of the drives has that number and is in a zone.
pub fn is_in_zone(drives: &[Drive], number: u32) -> bool
    ensures { result ≡ list_any (λ d. (d.number == number) && is_some d.zone) drives.now }
{
    drives
        .iter()
        .any(|drive| drive.number == number && drive.zone.is_some())
}

/// Tells why a file isn't made.
///
/// # Errors
///
/// Want of memory alone, also where that is why.
pub fn tell_refusal(alloc: Global, file: FileName, why: FileErr) -> Result<Act, Memory>
    ensures { IfOk result (IsRefusedAs file why) }
{
    let note = match why {
        FileErr::FileExists => Note::Exists,
        FileErr::BadMap(error) => Note::BadMap {
            why: told_map_err(error),
        },
        FileErr::TooFewDrives { online } => Note::TooFew { online },
        FileErr::NoSpread { online } => Note::NoSpread { online },
        FileErr::Memory => return Err(Memory),
    };
    Act::line(alloc, Line::Note { file, note })
}
