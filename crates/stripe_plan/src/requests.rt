// What a plan asks of which components.
ghost use Rattle.std.specs.Prelude.{◌≡◌, ◌+◌, ◌<◌, ◌≤◌, ◌++◌, IfOk, OnOk};
ghost use Rattle.data_map.specs.Striping.{group_width, positions};
ghost use Rattle.stripe_plan.specs.declared.plan.Aim.TheVariants.{Reads, Scatters};
ghost use Rattle.stripe_plan.specs.Touched.{stripes};
ghost use Rattle.stripe_plan.specs.Indexed.{Indexes};
ghost use Rattle.stripe_plan.specs.Asks.{asks_of, asks_position, asks_place, asks_stripe, asks};

use crate::left::{index_stretches, push_left_of_each};
use crate::lost::{is_among, source};
use crate::needed::push_needed;
use crate::plan::{Aim, Ask, Asks, Interval, Intervals, Out, Span, Stretch};
use crate::row_index::RowIndex;
use crate::touched::touched_stripes;
use data_map::{DataMap, MAX_FILE_SIZE};
use osd_lists::Memory;
use std::alloc::Global;

// What a plan is made for: its aim, the map, the range, what is out, and the stretches that are had already, with an
// index of them by row.
#[derive(Clone, Copy)]
struct Request<'a> {
    aim: Aim,
    map: &'a DataMap,
    range: Span,
    out: &'a Out,
    had: &'a [Stretch],
    index: &'a RowIndex,
}

// Lists that are made anew for each place of a stripe's group, in memory that is taken once.
#[derive(Drop)]
struct Drafts {
    // The columns that the plan needs.
    columns: Intervals,
    // Their bytes that aren't had.
    left: Intervals,
}

// These bytes of a component.
fn push_component(
    asks: &mut Asks,
    stripe: u64,
    position: u32,
    component: u32,
    bytes: &[Interval],
) -> Result<(), Memory>
    ensures { OnOk result (asks.new ≡ asks.old ++ asks_of stripe position component bytes.now) }
{
    for interval in bytes {
        asks.push(Ask {
            stripe,
            position,
            component,
            offset: interval.first,
            length: interval.end.saturating_sub(interval.first),
        })?;
    }
    Ok(())
}

// These bytes of the component of a position that is read.
fn push_source(
    asks: &mut Asks,
    map: &DataMap,
    out: &Out,
    stripe: u64,
    position: u32,
    bytes: &[Interval],
) -> Result<(), Memory>
    requires { position < positions map.now }
    ensures { OnOk result (asks.new ≡ asks.old
        ++ asks_position Reads map.now out.now.components stripe position bytes.now) }
{
    match source(map, out, position) {
        Some(component) => push_component(asks, stripe, position, component, bytes),
        None => Ok(()),
    }
}

// These bytes of each component of a position that isn't out.
fn push_each(
    asks: &mut Asks,
    map: &DataMap,
    out: &Out,
    stripe: u64,
    position: u32,
    bytes: &[Interval],
) -> Result<(), Memory>
    requires { position < positions map.now }
    ensures { OnOk result (asks.new ≡ asks.old
        ++ asks_position Scatters map.now out.now.components stripe position bytes.now) }
{
    let first = map.replica(position, 0);
    for component in first..first + map.replicas() {
        if !is_among(component, out) {
            push_component(asks, stripe, position, component, bytes)?;
        }
    }
    Ok(())
}

// What a plan needs and hasn't of one place of a stripe's group.
#[tactic(auto, unfolding(crate::specs::Asks::asks_place))]
fn push_place(
    asks: &mut Asks,
    drafts: &mut Drafts,
    alloc: Global,
    request: &Request<'_>,
    stripe: u64,
    place: u32,
) -> Result<(), Memory>
    requires inside { request.now.range.offset + request.now.range.length ≤ MAX_FILE_SIZE }
    requires stripe { stripe ≤ MAX_FILE_SIZE }
    requires place { place < group_width request.now.map.now }
    requires index { Indexes request.now.had.now request.now.index.now }
    ensures { OnOk result (asks.new ≡ asks.old
        ++ asks_place request.now.aim request.now.map.now request.now.range request.now.out.now.components
        request.now.had.now stripe place) }
{
    let map = request.map;
    let unit = map.unit_in(stripe, place);
    let position = map.group(stripe) * map.group_width() + place;
    drafts.columns.truncate(0);
    push_needed(
        &mut drafts.columns,
        alloc,
        request.aim,
        map,
        request.range,
        request.out,
        stripe,
        unit,
    )?;
    drafts.left.truncate(0);
    push_left_of_each(
        &mut drafts.left,
        alloc,
        map,
        request.had,
        request.index,
        stripe,
        position,
        drafts.columns.as_slice(),
    )?;
    let left = drafts.left.as_slice();
    match request.aim {
        Aim::Reads | Aim::Gathers => push_source(asks, map, request.out, stripe, position, left),
        Aim::Scatters => push_each(asks, map, request.out, stripe, position, left),
    }
}

// What a plan needs and hasn't of a stripe.
fn push_stripe(
    asks: &mut Asks,
    drafts: &mut Drafts,
    alloc: Global,
    request: &Request<'_>,
    stripe: u64,
) -> Result<(), Memory>
    requires inside { request.now.range.offset + request.now.range.length ≤ MAX_FILE_SIZE }
    requires stripe { stripe ≤ MAX_FILE_SIZE }
    requires index { Indexes request.now.had.now request.now.index.now }
    ensures { OnOk result (asks.new ≡ asks.old
        ++ asks_stripe request.now.aim request.now.map.now request.now.range request.now.out.now.components
        request.now.had.now stripe 0 (group_width request.now.map.now)) }
{
    for place in 0..request.map.group_width() {
        push_place(asks, drafts, alloc, request, stripe, place)?;
    }
    Ok(())
}

/// What a plan asks of which components, where these stretches of positions are had already: by stripe, component and
/// offset. A plan that reads asks a position's first component that isn't out, one that writes all that aren't. The
/// range ends at most at [`MAX_FILE_SIZE`].
pub fn asks(
    alloc: Global,
    aim: Aim,
    map: &DataMap,
    range: Span,
    out: &Out,
    had: &[Stretch],
) -> Result<Asks, Memory>
    requires { range.offset + range.length ≤ MAX_FILE_SIZE }
    ensures { IfOk result (λ xs. xs ≡ asks aim map.now range out.now.components had.now (stripes map.now range)) }
{
    let index = index_stretches(alloc, map, had)?;
    let (first, end) = touched_stripes(map, range);
    let request = Request {
        aim,
        map,
        range,
        out,
        had,
        index: &index,
    };
    let mut drafts = Drafts {
        columns: Intervals::new(alloc),
        left: Intervals::new(alloc),
    };
    let mut all = Asks::new(alloc);
    for stripe in first..end {
        push_stripe(&mut all, &mut drafts, alloc, &request, stripe)?;
    }
    Ok(all)
}
