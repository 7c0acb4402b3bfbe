ghost use Rattle.std.specs.Prelude.{◌≡◌, length};
ghost use Rattle.zone_place.specs.Zones.{has_room, within};
ghost use Rattle.zone_place.specs.Choosing.{online_placed};

use crate::asks::ZoneAsk;
use crate::loads::ZoneLoad;

// How many online drives of these are in a zone.
fn online_in(zone: u32, loads: &[ZoneLoad]) -> usize
    ensures { result ≡ length (within zone (online_placed loads.now)) }
{
    loads
        .iter()
        .filter(|load| load.online && load.zone == zone)
        .count()
}

/// Whether the online drives have room for what is asked: each zone takes as many components as it has online drives,
/// but not more than all groups together may have in one zone.
pub fn zone_room(ask: &ZoneAsk, loads: &[ZoneLoad]) -> bool
    ensures { result ≡ has_room ask.now (online_placed loads.now) }
{
    let zone_most = u64::from(ask.groups) * u64::from(ask.most);
    let mut room = 0u64;
    let mut rest = loads;
    // A drive takes a component if fewer than a zone takes follow it in its zone.
    while let Some((load, following)) = rest.split_first() {
        if load.online && (online_in(load.zone, following) as u64) < zone_most {
            room += 1;
        }
        rest = following;
    }
    u64::from(ask.groups) * u64::from(ask.size) <= room
}
