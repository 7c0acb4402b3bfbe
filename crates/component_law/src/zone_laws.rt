// Zoned files, for the crates above.
ghost use Rattle.component_law.specs.Failing.{NoneIsBeyond, OneZoneIsBorne};
ghost use Rattle.component_law.specs.Spread.{EachStepSpreads};
ghost use Rattle.component_law.specs.Zoned.{EachStepZones};

/// Each step leaves each zoned file spread: no zone has more components of a group than its code brings back, each counted,
/// present or missing, on the drive on which it stands or last stood. A component that is made anew comes into a zone that
/// has room for it.
pub fn each_step_spreads()
    ensures { EachStepSpreads }
{}

/// If all lost components of a zoned file stood in one zone, each stripe can be read and written.
pub fn one_zone_is_borne()
    ensures { OneZoneIsBorne }
{}

/// If all missing components of a zoned file stood in one zone, the server can bring each back.
pub fn none_is_beyond()
    ensures { NoneIsBeyond }
{}

/// Each step leaves each drive in its zone, and puts a drive into one only as the server is told.
pub fn each_step_zones()
    ensures { EachStepZones }
{}
