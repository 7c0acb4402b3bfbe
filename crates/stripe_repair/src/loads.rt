ghost use Rattle.std.specs.Prelude.{◌≡◌, ◌≤◌, All, length, count_by, IfOk};
ghost use Rattle.zone_place.specs.Choosing.{FitsZoneLoad};
ghost use Rattle.zone_place.specs.declared.loads.TheConstants.{MAX_DRIVES};
ghost use Rattle.stripe_repair.specs.Loads.{zone_loads};

use osd_lists::{Memory, Sequence};
use std::alloc::Global;
use zone_place::ZoneLoad;

/// A drive, and what it holds.
#[derive(Clone, Copy, PartialEq, Eq)]
pub struct DriveLoad {
    /// The number of the drive.
    pub drive: u32,
    /// The drive wasn't declared as failed.
    pub online: bool,
    /// How many present components stand on it.
    pub objects: u32,
    /// The zone that it was put into, if any: a room, a rack or a power supply that fails as one.
    pub zone: Option<u32>,
}

/// How many of at most 64 drives are online.
pub fn online_count(loads: &[DriveLoad]) -> u32
    requires { length loads.now ≤ MAX_DRIVES }
    ensures { result ≡ count_by (λ l. l.online) loads.now }
{
    loads.iter().filter(|l| l.online).count() as u32
}

// A drive in a zone.
fn zone_load_of(drive: u32, online: bool, objects: u32, zone: u32) -> ZoneLoad
    ensures value { result ≡ record { drive = drive; online = online; objects = objects; zone = zone } }
    ensures fits { FitsZoneLoad result }
{
    ZoneLoad {
        drive,
        online,
        objects,
        zone,
    }
}

/// Those of these drives that were put into a zone, in their order.
pub fn zone_loads(alloc: Global, loads: &[DriveLoad]) -> Result<Sequence<ZoneLoad>, Memory>
    ensures value { IfOk result (λ zoned. zoned ≡ zone_loads loads.now) }
    ensures fits { IfOk result (λ zoned. All FitsZoneLoad zoned) }
{
    let mut zoned = Sequence::new(alloc);
    for load in loads {
        if let Some(zone) = load.zone {
            zoned.push(zone_load_of(load.drive, load.online, load.objects, zone))?;
        }
    }
    Ok(zoned)
}
