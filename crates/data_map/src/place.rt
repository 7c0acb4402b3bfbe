ghost use Rattle.std.specs.Prelude.{◌≡◌, ◌<◌, ◌≤◌, ◌↔◌, ◌+◌, ◌*◌, ℕ, Some, IsNone, IfSome};
ghost use Rattle.data_map.specs.Striping.{positions, group_width, groups, stripe_length, group_of, row_of, turned, position_of, place_of, p_of, q_of};
ghost use Rattle.data_map.specs.Inverse.{LiesAt, HasNoByte, stripe_in, unit_in, stripe_at, unit_at};

use crate::check::{MAX_COMPONENTS, RAID_5};
use crate::map::DataMap;

/// Where a byte of a file lies (RFC 5664 5.3 and 5.4).
#[derive(Clone, Copy, PartialEq, Eq)]
pub struct Place {
    /// The position of its component.
    pub position: u32,
    /// The offset of the byte in its component, in bytes.
    pub offset: u64,
    /// The number of its stripe in the file.
    pub stripe: u64,
}

impl DataMap {
    /// The group in which a stripe stands, from 0.
    pub fn group(&self, stripe: u64) -> u32
        ensures value { result ≡ group_of self.now stripe }
        ensures inside { result * group_width self.now + group_width self.now ≤ positions self.now }
        ensures few { positions self.now ≤ MAX_COMPONENTS }
    {
        let raw = self.raw();
        if raw.width == 0 {
            return 0;
        }
        (stripe / u64::from(raw.depth) % u64::from(self.groups())) as u32
    }

    /// The row of a stripe in its group: its units begin there in their components, at this many stripe units.
    pub fn row(&self, stripe: u64) -> u64
        ensures value { result ≡ row_of self.now stripe }
        ensures bound { result ≤ stripe }
    {
        let raw = self.raw();
        if raw.width == 0 {
            return stripe;
        }
        let depth = u64::from(raw.depth);
        let round = depth * u64::from(self.groups());
        stripe / round * depth + stripe % depth
    }

    // The place inside the group of unit `unit` of a stripe: data units, then P, then Q.
    fn turn(&self, stripe: u64, unit: u32) -> u32
        requires { unit < group_width self.now }
        ensures value { result ≡ turned self.now stripe unit }
        ensures bound { result < group_width self.now }
    {
        if self.raw().algorithm != RAID_5 {
            return unit;
        }
        let width = self.group_width();
        let turns = (stripe % u64::from(width)) as u32;
        (unit + width - turns) % width
    }

    /// The position of a unit of a stripe. Its units are those of data, then P, then Q, counted from 0.
    pub fn position(&self, stripe: u64, unit: u32) -> u32
        requires { unit < group_width self.now }
        ensures value { result ≡ position_of self.now stripe unit }
        ensures inside { result < positions self.now }
    {
        self.turn(stripe, unit) + self.group(stripe) * self.group_width()
    }

    /// The place of byte `l` of the file, `l` below 2 to the 40.
    pub fn place(&self, l: u64) -> Place
        requires { l < 1_099_511_627_776 }
        ensures value { result ≡ place_of self.now l }
        ensures inside { result.position < positions self.now }
    {
        let unit = self.raw().unit;
        let stripe = l / self.stripe_length();
        let rest = l % self.stripe_length();
        Place {
            position: self.position(stripe, (rest / unit) as u32),
            offset: self.row(stripe) * unit + rest % unit,
            stripe,
        }
    }

    /// The positions of P and Q of a stripe, where the map has them. The stripe's number is below 2
    /// to the 40.
    pub fn parity_positions(&self, stripe: u64) -> (Option<u32>, Option<u32>)
        requires { stripe < 1_099_511_627_776 }
        ensures p { result.0 ≡ p_of self.now stripe }
        ensures q { result.1 ≡ q_of self.now stripe }
        ensures inside { IfSome result.0 (λ p. p < positions self.now) × IfSome result.1 (λ q. q < positions self.now) }
    {
        let first = self.data_units();
        match self.parities() {
            0 => (None, None),
            1 => (Some(self.position(stripe, first)), None),
            _ => (
                Some(self.position(stripe, first)),
                Some(self.position(stripe, first + 1)),
            ),
        }
    }

    /// The unit of a stripe that lies at a place inside the group, counted from 0: what
    /// [`DataMap::position`] takes to that place.
    pub fn unit_in(&self, stripe: u64, place: u32) -> u32
        requires { place < group_width self.now }
        ensures value { result ≡ unit_in self.now stripe place }
        ensures bound { result < group_width self.now }
    {
        if self.raw().algorithm != RAID_5 {
            return place;
        }
        let width = self.group_width();
        let turns = (stripe % u64::from(width)) as u32;
        (place + turns) % width
    }

    // The stripe that has a row of a group.
    fn stripe_in(&self, group: u32, row: u64) -> u64
        requires group { group < groups self.now }
        requires row { row < 1_099_511_627_776 }
        ensures value { result ≡ stripe_in self.now group row }
    {
        let raw = self.raw();
        if raw.width == 0 {
            return row;
        }
        let depth = u64::from(raw.depth);
        let round = depth * u64::from(self.groups());
        row / depth * round + u64::from(group) * depth + row % depth
    }

    // The stripe, and the unit of that stripe, that an offset of a position belongs to.
    fn unit_at(&self, position: u32, offset: u64) -> (u64, u32)
        requires position { position < positions self.now }
        requires offset { offset < 1_099_511_627_776 }
        ensures stripe { result.0 ≡ stripe_at self.now position offset }
        ensures unit { result.1 ≡ unit_at self.now position offset }
        ensures bound { result.0 * stripe_length self.now < 4_503_599_627_370_496 }
    {
        let width = self.group_width();
        let stripe = self.stripe_in(position / width, offset / self.raw().unit);
        (stripe, self.unit_in(stripe, position % width))
    }

    /// The byte of the file that lies at an offset of a position: the only one that [`DataMap::place`]
    /// puts there. None where the position holds parity there, or is out of range. The offset is below
    /// 2 to the 40.
    pub fn logical(&self, position: u32, offset: u64) -> Option<u64>
        requires { offset < 1_099_511_627_776 }
        ensures byte { (l : ℕ) → (result ≡ Some l) ↔ LiesAt self.now l position offset }
        ensures none { IsNone result ↔ HasNoByte self.now position offset }
    {
        let unit = self.raw().unit;
        if position >= self.positions() {
            return None;
        }
        let (stripe, data_unit) = self.unit_at(position, offset);
        if data_unit >= self.data_units() {
            return None;
        }
        Some(stripe * self.stripe_length() + u64::from(data_unit) * unit + offset % unit)
    }
}
