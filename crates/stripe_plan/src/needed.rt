// The columns of a unit that a plan needs.
ghost use Rattle.std.specs.Prelude.{◌≡◌, ◌+◌, ◌<◌, ◌≤◌, [], IfOk, OnOk};
ghost use Rattle.std.specs.List.{All};
ghost use Rattle.data_map.specs.Striping.{group_width};
ghost use Rattle.stripe_plan.specs.declared.plan.Aim.TheVariants.{Reads};
ghost use Rattle.stripe_plan.specs.Touched.{IsLow};
ghost use Rattle.stripe_plan.specs.Lost.{is_degraded};
ghost use Rattle.stripe_plan.specs.Asks.{own_columns, changed, gathered, needed};

use crate::lost::{is_hit, positions_out};
use crate::plan::{Aim, Intervals, Out, Span};
use crate::touched::{holds_whole, own_columns, push_touched};
use data_map::{DataMap, MAX_FILE_SIZE};
use osd_lists::Memory;
use std::alloc::Global;

/// Whether a position of a stripe's group is out.
#[tactic(auto, unfolding(crate::specs::Lost::is_degraded))]
pub fn is_degraded(alloc: Global, map: &DataMap, out: &Out, stripe: u64) -> Result<bool, Memory>
    ensures { IfOk result (λ b. b ≡ is_degraded map.now out.now.components stripe) }
{
    Ok(positions_out(alloc, map, out, stripe)?.len() > 0)
}

// The range's own columns of a unit, none of parity, put into an empty list.
#[tactic(auto, unfolding(crate::specs::Asks::own_columns, crate::specs::Touched::touches))]
fn push_own(
    intervals: &mut Intervals,
    map: &DataMap,
    range: Span,
    stripe: u64,
    unit: u32,
) -> Result<(), Memory>
    requires inside { range.offset + range.length ≤ MAX_FILE_SIZE }
    requires stripe { stripe ≤ MAX_FILE_SIZE }
    requires unit { unit < group_width map.now }
    requires none { intervals.old ≡ [] }
    ensures value { OnOk result (intervals.new ≡ own_columns map.now range stripe unit) }
    ensures low { OnOk result (All IsLow intervals.new) }
{
    if unit < map.data_units() {
        let own = own_columns(map, range, stripe, unit);
        if own.first < own.end {
            intervals.push(own)?;
        }
    }
    Ok(())
}

// The columns of a unit that a write changes, put into an empty list.
#[tactic(auto, unfolding(crate::specs::Asks::changed))]
fn push_changed(
    intervals: &mut Intervals,
    map: &DataMap,
    range: Span,
    stripe: u64,
    unit: u32,
) -> Result<(), Memory>
    requires inside { range.offset + range.length ≤ MAX_FILE_SIZE }
    requires stripe { stripe ≤ MAX_FILE_SIZE }
    requires unit { unit < group_width map.now }
    requires none { intervals.old ≡ [] }
    ensures value { OnOk result (intervals.new ≡ changed map.now range stripe unit) }
    ensures low { OnOk result (All IsLow intervals.new) }
{
    if unit < map.data_units() {
        return push_own(intervals, map, range, stripe, unit);
    }
    push_touched(intervals, map, range, stripe)
}

// The columns of a unit that a gather reads, put into an empty list.
#[tactic(auto, unfolding(crate::specs::Asks::gathered))]
fn push_gathered(
    intervals: &mut Intervals,
    alloc: Global,
    map: &DataMap,
    range: Span,
    out: &Out,
    stripe: u64,
    unit: u32,
) -> Result<(), Memory>
    requires inside { range.offset + range.length ≤ MAX_FILE_SIZE }
    requires stripe { stripe ≤ MAX_FILE_SIZE }
    requires unit { unit < group_width map.now }
    requires none { intervals.old ≡ [] }
    ensures value { OnOk result (intervals.new ≡ gathered map.now range out.now.components stripe unit) }
    ensures low { OnOk result (All IsLow intervals.new) }
{
    if holds_whole(map, range, stripe) {
        return Ok(());
    }
    if is_degraded(alloc, map, out, stripe)? {
        return push_touched(intervals, map, range, stripe);
    }
    push_changed(intervals, map, range, stripe, unit)
}

// The columns of a unit that a read asks for, put into an empty list.
fn push_read(
    intervals: &mut Intervals,
    map: &DataMap,
    range: Span,
    out: &Out,
    stripe: u64,
    unit: u32,
) -> Result<(), Memory>
    requires inside { range.offset + range.length ≤ MAX_FILE_SIZE }
    requires stripe { stripe ≤ MAX_FILE_SIZE }
    requires unit { unit < group_width map.now }
    requires none { intervals.old ≡ [] }
    ensures value { OnOk result (intervals.new ≡ needed Reads map.now range out.now.components stripe unit) }
    ensures low { OnOk result (All IsLow intervals.new) }
{
    if is_hit(map, range, out, stripe) {
        return push_touched(intervals, map, range, stripe);
    }
    push_own(intervals, map, range, stripe, unit)
}

// The columns of a unit that a plan needs, put into an empty list.
pub(crate) fn push_needed(
    intervals: &mut Intervals,
    alloc: Global,
    aim: Aim,
    map: &DataMap,
    range: Span,
    out: &Out,
    stripe: u64,
    unit: u32,
) -> Result<(), Memory>
    requires inside { range.offset + range.length ≤ MAX_FILE_SIZE }
    requires stripe { stripe ≤ MAX_FILE_SIZE }
    requires unit { unit < group_width map.now }
    requires none { intervals.old ≡ [] }
    ensures value { OnOk result (intervals.new ≡ needed aim map.now range out.now.components stripe unit) }
    ensures low { OnOk result (All IsLow intervals.new) }
{
    match aim {
        Aim::Reads => push_read(intervals, map, range, out, stripe, unit),
        Aim::Gathers => push_gathered(intervals, alloc, map, range, out, stripe, unit),
        Aim::Scatters => push_changed(intervals, map, range, stripe, unit),
    }
}
