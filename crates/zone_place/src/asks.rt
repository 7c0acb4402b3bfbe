ghost use Rattle.std.specs.Prelude.{◌≡◌, ◌<◌};
ghost use Rattle.zone_place.specs.Zones.{ask_of};

use data_map::DataMap;

/// What a file asks of zones: how many groups it has, of how many components, and how many of a group may
/// stand in one zone, so that its code brings them back if the zone fails.
#[derive(Clone, Copy, PartialEq, Eq)]
pub struct ZoneAsk {
    /// How many groups the file has.
    pub groups: u32,
    /// How many components a group has.
    pub size: u32,
    /// The most components of a group in one zone.
    pub most: u32,
}

/// What a file with this map asks of zones: of a group's components, with their mirrors, as many in one zone as can be
/// lost, whichever they are.
pub fn zone_ask(map: &DataMap) -> ZoneAsk
    ensures exact { result ≡ ask_of map.now }
    ensures some { 0 < result.size }
{
    ZoneAsk {
        groups: map.groups(),
        size: map.group_width() * map.replicas(),
        most: (map.parities() + 1) * map.replicas() - 1,
    }
}
