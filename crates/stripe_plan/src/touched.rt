// The stripes and columns that a range of a file touches.
ghost use Rattle.std.specs.Prelude.{◌≡◌, ◌+◌, ◌-◌, ◌*◌, ◌<◌, ◌≤◌, [], IfOk, OnOk};
ghost use Rattle.std.specs.List.{All, range_with_len};
ghost use Rattle.data_map.specs.Striping.{stripe_of, stripe_length, group_width};
ghost use Rattle.stripe_plan.specs.Touched.{end_of, stripes, unit_start, own, IsLow, low, high, columns_between};
ghost use Rattle.stripe_plan.specs.Touched.{columns, whole};

use crate::plan::{Interval, Intervals, Span};
use data_map::{DataMap, MAX_FILE_SIZE, MAX_STRIPE_UNIT, MAX_WIDTH};
use osd_lists::Memory;
use std::alloc::Global;

/// The first stripe that a range touches, and the end of the stripes that it touches; no stripe where it is empty. The
/// range ends at most at [`MAX_FILE_SIZE`].
#[tactic(auto, unfolding(crate::specs::Touched::stripes))]
pub fn touched_stripes(map: &DataMap, range: Span) -> (u64, u64)
    requires { range.offset + range.length ≤ MAX_FILE_SIZE }
    ensures value { stripes map.now range ≡ range_with_len result.0 (result.1 - result.0) }
    ensures some { 0 < range.length → (result.0 ≡ stripe_of map.now range.offset)
        × (result.1 ≡ stripe_of map.now (end_of range - 1) + 1) }
    ensures none { range.length ≡ 0 → result.1 ≡ 0 }
    ensures bound { result.1 ≤ MAX_FILE_SIZE }
{
    if range.length == 0 {
        return (0, 0);
    }
    let length = map.stripe_length();
    let end = range.offset + range.length;
    (range.offset / length, (end - 1) / length + 1)
}

// The byte of the file at which a stripe begins.
pub(crate) fn stripe_start(map: &DataMap, stripe: u64) -> u64
    requires { stripe ≤ MAX_FILE_SIZE + 1 }
    ensures value { result ≡ stripe * stripe_length map.now }
    ensures bound { result ≤ (MAX_FILE_SIZE + 1) * (MAX_WIDTH * MAX_STRIPE_UNIT) }
{
    stripe * map.stripe_length()
}

// The byte of the file at which a data unit of a stripe begins.
pub(crate) fn unit_start(map: &DataMap, stripe: u64, unit: u32) -> u64
    requires stripe { stripe ≤ MAX_FILE_SIZE }
    requires unit { unit < group_width map.now }
    ensures value { result ≡ unit_start map.now stripe unit }
    ensures bound { result ≤ (MAX_FILE_SIZE + 2) * (MAX_WIDTH * MAX_STRIPE_UNIT) }
{
    stripe_start(map, stripe) + u64::from(unit) * map.raw().unit
}

/// The columns of a range's own bytes in a data unit of a stripe, counted from the unit's begin.
#[tactic(auto, unfolding(crate::specs::Touched::own))]
pub fn own_columns(map: &DataMap, range: Span, stripe: u64, unit: u32) -> Interval
    requires inside { range.offset + range.length ≤ MAX_FILE_SIZE }
    requires stripe { stripe ≤ MAX_FILE_SIZE }
    requires unit { unit < group_width map.now }
    ensures value { result ≡ own map.now range stripe unit }
    ensures low { IsLow result }
{
    let start = unit_start(map, stripe, unit);
    let length = map.raw().unit;
    Interval {
        first: range.offset.max(start) - start,
        end: (range.offset + range.length)
            .min(start + length)
            .saturating_sub(start),
    }
}

/// The touched columns of a stripe, those of its data units taken together: one or two intervals that don't meet.
#[tactic(auto, unfolding(crate::specs::Touched::columns))]
pub fn touched_columns(
    alloc: Global,
    map: &DataMap,
    range: Span,
    stripe: u64,
) -> Result<Intervals, Memory>
    requires inside { range.offset + range.length ≤ MAX_FILE_SIZE }
    requires stripe { stripe ≤ MAX_FILE_SIZE }
    ensures value { IfOk result (λ is. is ≡ columns map.now range stripe) }
    ensures low { IfOk result (λ is. All IsLow is) }
    ensures unit { IfOk result (λ is. All (λ i. i.end ≤ map.now.unit) is) }
{
    let mut intervals = Intervals::new(alloc);
    push_touched(&mut intervals, map, range, stripe)?;
    Ok(intervals)
}

// The same, put into an empty list.
#[tactic(auto, unfolding(crate::specs::Touched::columns))]
pub(crate) fn push_touched(
    intervals: &mut Intervals,
    map: &DataMap,
    range: Span,
    stripe: u64,
) -> Result<(), Memory>
    requires inside { range.offset + range.length ≤ MAX_FILE_SIZE }
    requires stripe { stripe ≤ MAX_FILE_SIZE }
    requires none { intervals.old ≡ [] }
    ensures value { OnOk result (intervals.new ≡ columns map.now range stripe) }
    ensures low { OnOk result (All IsLow intervals.new) }
    ensures unit { OnOk result (All (λ i. i.end ≤ map.now.unit) intervals.new) }
{
    let start = stripe_start(map, stripe);
    let next = stripe_start(map, stripe + 1);
    let low = range.offset.max(start) - start;
    let high = (range.offset + range.length)
        .min(next)
        .saturating_sub(start);
    push_between(intervals, map.raw().unit, low, high)
}

// The columns of bytes `low` to `high` of a stripe's data, put into an empty list.
#[tactic(auto, unfolding(crate::specs::Touched::columns_between))]
fn push_between(intervals: &mut Intervals, unit: u64, low: u64, high: u64) -> Result<(), Memory>
    requires unit { (0 < unit) × (unit ≤ MAX_STRIPE_UNIT) }
    requires none { intervals.old ≡ [] }
    ensures value { OnOk result (intervals.new ≡ columns_between unit low high) }
    ensures low { OnOk result (All IsLow intervals.new) }
    ensures unit { OnOk result (All (λ i. i.end ≤ unit) intervals.new) }
{
    if high.saturating_sub(low) >= unit {
        return intervals.push(Interval {
            first: 0,
            end: unit,
        });
    }
    let first = low % unit;
    let end = high.saturating_sub(1) % unit + 1;
    if first < end {
        return intervals.push(Interval { first, end });
    }
    intervals.push(Interval { first: 0, end })?;
    intervals.push(Interval { first, end: unit })
}

/// Whether all data bytes of a stripe are in a range.
#[tactic(auto, unfolding(crate::specs::Touched::whole))]
pub fn holds_whole(map: &DataMap, range: Span, stripe: u64) -> bool
    requires inside { range.offset + range.length ≤ MAX_FILE_SIZE }
    requires stripe { stripe ≤ MAX_FILE_SIZE }
    ensures { result ≡ whole map.now range stripe }
{
    let start = stripe_start(map, stripe);
    let next = stripe_start(map, stripe + 1);
    range.offset <= start && next <= range.offset + range.length
}
