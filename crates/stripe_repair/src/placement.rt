ghost use Rattle.zone_place.specs.Choosing.{IsZonePlacer};

use crate::loads::DriveLoad;
use crate::placer::Place;
use osd_lists::{Memory, Numbers};
use std::alloc::Global;
use zone_place::{ZoneAsk, ZoneLoad, ZonePlacer};

/// A rule for files of any kind: one that chooses drives, beside one that spreads components over zones.
#[derive(Drop)]
pub struct Placement<'a, P, Z> {
    /// Chooses the drives of files that aren't spread.
    pub drives: &'a P,
    /// Chooses the drives of those that are.
    pub zones: &'a ZonePlacer<Z>,
}

impl<'a, P: Place, Z> Place for Placement<'a, P, Z>
where
    Z: Fn(&ZoneAsk, &[ZoneLoad]) -> Result<Numbers, Memory>,
{
    ghost is_placer = { λ p. P.is_placer p.drives.now × IsZonePlacer Z.Fn p.zones.now };

    fn place(&self, count: u32, loads: &[DriveLoad]) -> Result<Numbers, Memory> {
        self.drives.place(count, loads)
    }

    fn spread(&self, _: Global, ask: &ZoneAsk, loads: &[ZoneLoad]) -> Result<Numbers, Memory> {
        self.zones.place(ask, loads)
    }
}
