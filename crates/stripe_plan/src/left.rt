// The bytes of a position that aren't had yet.
ghost use Rattle.std.specs.Prelude.{◌≡◌, ◌+◌, ◌*◌, ◌<◌, ◌≤◌, ◌++◌, flat_map, IfOk, OnOk};
ghost use Rattle.std.specs.List.{All};
ghost use Rattle.data_map.specs.Striping.{row_of};
ghost use Rattle.stripe_plan.specs.Touched.{IsLow};
ghost use Rattle.stripe_plan.specs.Asks.{at_row, at_rows, without, without_each, cut, some_of};
ghost use Rattle.stripe_plan.specs.Indexed.{Indexes, Sifts};

use crate::plan::{Interval, Intervals, Stretch};
use crate::row_index::RowIndex;
use data_map::{DataMap, MAX_FILE_SIZE, MAX_STRIPE_UNIT};
use osd_lists::Memory;
use std::alloc::Global;

// Columns of a stripe as bytes of a component.
fn at_row(map: &DataMap, stripe: u64, columns: Interval) -> Interval
    requires stripe { stripe ≤ MAX_FILE_SIZE }
    requires low { IsLow columns }
    ensures { result ≡ at_row map.now stripe columns }
{
    let start = map.row(stripe) * map.raw().unit;
    Interval {
        first: start + columns.first,
        end: start + columns.end,
    }
}

// Adds an interval, if it has bytes.
fn push_some(intervals: &mut Intervals, interval: Interval) -> Result<(), Memory>
    ensures { OnOk result (intervals.new ≡ intervals.old ++ some_of interval) }
{
    if interval.first < interval.end {
        intervals.push(interval)?;
    }
    Ok(())
}

// Intervals without the bytes of a stretch.
fn cut(alloc: Global, stretch: Stretch, intervals: &[Interval]) -> Result<Intervals, Memory>
    ensures { IfOk result (λ is. is ≡ flat_map (cut stretch) intervals.now) }
{
    let mut left = Intervals::new(alloc);
    for interval in intervals {
        let before = Interval {
            first: interval.first,
            end: interval.end.min(stretch.first),
        };
        let behind = Interval {
            first: interval.first.max(stretch.end),
            end: interval.end,
        };
        push_some(&mut left, before)?;
        push_some(&mut left, behind)?;
    }
    Ok(left)
}

// The stretches that are had, by the row that they lie in.
pub(crate) fn index_stretches(
    alloc: Global,
    map: &DataMap,
    had: &[Stretch],
) -> Result<RowIndex, Memory>
    ensures { IfOk result (Indexes had.now) }
{
    map.known();
    let mut index = RowIndex::new(alloc, map.raw().unit, had.len())?;
    for stretch in had {
        index.push(stretch.position, stretch.first, u128::from(stretch.end))?;
    }
    Ok(index)
}

// The bytes of an interval of a position that aren't had, by the stretches of these numbers, among which are all that
// have any of them.
#[tactic(auto, using(crate::proofs::Picking::chosen_below))]
fn left_among(
    alloc: Global,
    had: &[Stretch],
    numbers: &[usize],
    position: u32,
    interval: Interval,
) -> Result<Intervals, Memory>
    requires { Sifts position interval had.now 0 numbers.now }
    ensures { IfOk result (λ is. is ≡ without had.now position interval) }
{
    let mut left = Intervals::new(alloc);
    push_some(&mut left, interval)?;
    for number in numbers {
        let stretch = had[*number];
        if stretch.position == position {
            left = cut(alloc, stretch, left.as_slice())?;
        }
    }
    Ok(left)
}

// Adds the bytes of an interval of a position that aren't had.
fn push_left(
    left: &mut Intervals,
    alloc: Global,
    had: &[Stretch],
    index: &RowIndex,
    position: u32,
    interval: Interval,
) -> Result<(), Memory>
    requires { Indexes had.now index.now }
    ensures { OnOk result (left.new ≡ left.old ++ without had.now position interval) }
{
    let numbers = index.find(position, interval.first, u128::from(interval.end));
    if numbers.is_empty() {
        return push_some(left, interval);
    }
    let some = left_among(alloc, had, numbers, position, interval)?;
    left.extend_from_slice(some.as_slice())
}

// Adds the bytes of these columns of a stripe, at a position, that aren't had.
#[tactic(auto, unfolding(crate::specs::Asks::without_each))]
pub(crate) fn push_left_of_each(
    left: &mut Intervals,
    alloc: Global,
    map: &DataMap,
    had: &[Stretch],
    index: &RowIndex,
    stripe: u64,
    position: u32,
    columns: &[Interval],
) -> Result<(), Memory>
    requires stripe { stripe ≤ MAX_FILE_SIZE }
    requires low { All IsLow columns.now }
    requires index { Indexes had.now index.now }
    ensures { OnOk result (left.new ≡ left.old ++ without_each had.now position (at_rows map.now stripe columns.now)) }
{
    for interval in columns {
        let bytes = at_row(map, stripe, *interval);
        push_left(left, alloc, had, index, position, bytes)?;
    }
    Ok(())
}
