ghost use Rattle.std.specs.Prelude.{◌≡◌, ◌<◌, ◌≤◌, ◌+◌, ◌*◌, IfOk, Ok};
ghost use Rattle.data_map.specs.Check.{bad_depth, checked, HasAlgorithm, IsChecked};
ghost use Rattle.data_map.specs.Striping.{positions, replicas, group_width, groups, parities, data_units, stripe_length, replica_of};

use crate::check::{
    MAX_COMPONENTS, MAX_DEPTH, MAX_STRIPE_UNIT, MAX_WIDTH, MapErr, RAID_0, RAID_PQ, RawMap,
};
use std::marker::Model;

/// A checked map. Contracts see the map that was checked.
///
/// A position stands for a component and its mirrors. A group of positions holds whole stripes: a
/// unit of each data position, and the parity. Without groups all positions are one group.
#[derive(Clone, Copy)]
pub struct DataMap {
    raw: RawMap,
    positions: u32,
    group_width: u32,
    parities: u32,
}

impl Model for DataMap {
    ghost use Rattle.std.specs.Prelude.{◌≡◌, refl};
    ghost use Rattle.data_map.specs.Check.{IsChecked};
    ghost use Rattle.data_map.specs.Striping.{positions as positions_of, group_width as width_of, parities as parities_of};
    ghost use Rattle.data_map.specs.declared.check.RawMap.{RawMap as ARawMap};

    ghost Value = { ARawMap };

    ghost view = { λ m. m.raw };

    ghost invariant = { λ m. IsChecked m.raw × (m.positions ≡ positions_of m.raw) × (m.group_width ≡ width_of m.raw) ×
        (m.parities ≡ parities_of m.raw) };

    ghost inverse = { λ raw. record {
      raw = raw;
      positions = positions_of raw;
      group_width = width_of raw;
      parities = parities_of raw;
    } };

    ghost inverse_ok = { λ a h. rw (h.1, h.2, h.3) refl };
}

// The parity units of a stripe.
fn parities_of(raw: &RawMap) -> u32
    ensures value { result ≡ parities raw.now }
    ensures bound { result ≤ 2 }
{
    match raw.algorithm {
        RAID_0 => 0,
        RAID_PQ => 2,
        _ => 1,
    }
}

// Whether a depth doesn't go with a width.
fn is_bad_depth(raw: &RawMap) -> bool
    ensures { result ≡ bad_depth raw.now }
{
    if raw.width == 0 {
        raw.depth != 0
    } else {
        raw.depth == 0 || raw.depth > MAX_DEPTH
    }
}

impl DataMap {
    /// Checks a map. Each refusal comes exactly where it is the first of [`MapErr`] that applies.
    #[tactic(auto, unfolding(crate::specs::Check::checked))]
    pub fn check(raw: RawMap) -> Result<DataMap, MapErr>
        requires algorithm { HasAlgorithm raw }
        ensures value { result ≡ checked raw }
        ensures same { IfOk result (λ map. map ≡ raw) }
    {
        if raw.unit == 0 || raw.unit > MAX_STRIPE_UNIT {
            return Err(MapErr::Unit);
        }
        if raw.comps > MAX_COMPONENTS {
            return Err(MapErr::TooMany);
        }
        if raw.comps == 0 {
            return Err(MapErr::TooFew);
        }
        let replicas = u64::from(raw.mirrors) + 1;
        if u64::from(raw.comps) % replicas != 0 {
            return Err(MapErr::Multiple);
        }
        let positions = (u64::from(raw.comps) / replicas) as u32;
        let group_width = if raw.width == 0 { positions } else { raw.width };
        let parities = parities_of(&raw);
        if group_width > MAX_WIDTH || positions % group_width != 0 || group_width < parities + 1 {
            return Err(MapErr::Width);
        }
        if is_bad_depth(&raw) {
            return Err(MapErr::Depth);
        }
        Ok(DataMap {
            raw,
            positions,
            group_width,
            parities,
        })
    }

    /// The map that was checked. [`DataMap::check`] takes it again, and gives the same map.
    pub fn raw(&self) -> RawMap
        ensures value { result ≡ self.now }
        ensures usable { IsChecked self.now }
        ensures again { checked result ≡ Ok result }
    {
        self.raw
    }

    /// What is known of a checked map. Nothing runs.
    pub fn known(&self)
        ensures { IsChecked self.now }
    {
        let _ = self.raw();
    }

    /// The positions, each a component and its mirrors.
    pub fn positions(&self) -> u32
        ensures value { result ≡ positions self.now }
        ensures bound { (0 < result) × (result ≤ MAX_COMPONENTS) }
    {
        self.positions
    }

    /// The positions of a group.
    pub fn group_width(&self) -> u32
        ensures value { result ≡ group_width self.now }
        ensures bound { (0 < result) × (result ≤ MAX_WIDTH) }
    {
        self.group_width
    }

    /// The groups.
    pub fn groups(&self) -> u32
        ensures value { result ≡ groups self.now }
        ensures bound { (0 < result) × (result ≤ MAX_COMPONENTS) }
    {
        self.positions / self.group_width
    }

    /// The parity units of a stripe: none for RAID 0, one for RAID 4 and RAID 5, two for RAID P+Q.
    pub fn parities(&self) -> u32
        ensures { result ≡ parities self.now }
    {
        self.parities
    }

    /// The data units of a stripe.
    pub fn data_units(&self) -> u32
        ensures value { result ≡ data_units self.now }
        ensures bound { (0 < result) × (result ≤ MAX_WIDTH) }
    {
        self.group_width - self.parities
    }

    /// The bytes of the file in one stripe.
    pub fn stripe_length(&self) -> u64
        ensures value { result ≡ stripe_length self.now }
        ensures bound { (0 < result) × (result ≤ MAX_WIDTH * MAX_STRIPE_UNIT) }
    {
        u64::from(self.data_units()) * self.raw.unit
    }

    /// The replicas of a position: one more than the map has mirrors.
    pub fn replicas(&self) -> u32
        ensures value { result ≡ replicas self.now }
        ensures bound { (0 < result) × (result ≤ MAX_COMPONENTS) }
    {
        self.raw.mirrors + 1
    }

    /// The component that holds replica `i` of a position; a position has one replica more than the
    /// map has mirrors.
    pub fn replica(&self, position: u32, i: u32) -> u32
        requires position { position < positions self.now }
        requires replica { i < replicas self.now }
        ensures value { result ≡ replica_of self.now position i }
        ensures inside { position * replicas self.now + replicas self.now ≤ self.now.comps }
        ensures few { self.now.comps ≤ MAX_COMPONENTS }
    {
        position * (self.raw.mirrors + 1) + i
    }
}
