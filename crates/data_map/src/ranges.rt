ghost use Rattle.std.specs.Prelude.{◌≡◌, ◌+◌, ◌*◌, ◌<◌, ◌≤◌, ℕ, flat_map, IfOk};
ghost use Rattle.data_map.specs.Striping.{left_in_unit};
ghost use Rattle.data_map.specs.Ranges.{HoldRange, part_in, extents_of, bytes_of_part, bytes_of_range};

use crate::map::DataMap;
use osd_lists::{Memory, Sequence};
use std::alloc::Global;

/// The longest file in bytes.
pub const MAX_FILE_SIZE: u64 = 16_777_216;

/// A part of a range of a file that lies in one unit: its bytes lie one after another.
#[derive(Clone, Copy, PartialEq, Eq)]
pub struct Extent {
    /// The position of its component.
    pub position: u32,
    /// The offset of the extent in its component, in bytes.
    pub offset: u64,
    /// The length of the extent in bytes.
    pub length: u64,
}

/// The parts of a range, in file order.
pub type Extents = Sequence<Extent>;

impl DataMap {
    /// How many bytes of the file from byte `l` on lie in one unit: at their places one after another.
    pub fn left_in_unit(&self, l: u64) -> u64
        ensures { result ≡ left_in_unit self.now l }
    {
        self.raw().unit - l % self.raw().unit
    }

    // The part of the range `off` to `end` that lies in unit number `unit` of the file's data.
    fn part_in(&self, off: u64, end: u64, unit: u64) -> Extent
        requires end { end ≤ MAX_FILE_SIZE }
        requires unit { unit * self.now.unit < end }
        requires touched { (off < end) × (off < (unit + 1) * self.now.unit) }
        ensures { result ≡ part_in self.now off end unit }
    {
        let length = self.raw().unit;
        let first = off.max(unit * length);
        let place = self.place(first);
        Extent {
            position: place.position,
            offset: place.offset,
            length: end.min((unit + 1) * length) - first,
        }
    }

    /// The parts of a range, one for each unit that it touches. The range ends at most at
    /// [`MAX_FILE_SIZE`].
    pub fn extents(&self, alloc: Global, off: u64, len: u64) -> Result<Extents, Memory>
        requires inside { off + len ≤ MAX_FILE_SIZE }
        ensures exact { IfOk result (λ parts. parts ≡ extents_of self.now off len) }
        ensures bytes { IfOk result (λ parts. flat_map bytes_of_part parts ≡ bytes_of_range self.now off len) }
    {
        let mut parts = Extents::new(alloc);
        if len == 0 {
            return Ok(parts);
        }
        let end = off + len;
        let unit = self.raw().unit;
        for number in off / unit..(end - 1) / unit + 1 {
            parts.push(self.part_in(off, end, number))?;
        }
        Ok(parts)
    }

    /// The first stripe that a range touches, and the end of the stripes that it touches. The range
    /// has at least one byte and ends at most at [`MAX_FILE_SIZE`].
    pub fn stripe_range(&self, off: u64, len: u64) -> (u64, u64)
        requires inside { off + len ≤ MAX_FILE_SIZE }
        requires some { 0 < len }
        ensures all { HoldRange self.now off len result.0 result.1 }
        ensures least { (first end : ℕ) → HoldRange self.now off len first end → (first ≤ result.0) × (result.1 ≤ end) }
    {
        let length = self.stripe_length();
        (off / length, (off + len - 1) / length + 1)
    }
}
