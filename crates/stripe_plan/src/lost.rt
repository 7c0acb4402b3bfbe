// The positions that are out, and the stripes that lack too many.
ghost use Rattle.std.specs.Prelude.{◌≡◌, ℕ, ◌+◌, ◌-◌, ◌*◌, ◌<◌, ◌≤◌, ◌&&◌, IfOk, IfSome};
ghost use Rattle.std.specs.List.{range_with_len};
ghost use Rattle.data_map.specs.Striping.{group_width, group_of, positions, position_of, data_units};
ghost use Rattle.stripe_plan.specs.Touched.{stripes, touches};
ghost use Rattle.stripe_plan.specs.Lost.{among, source, is_out, positions_out, when, is_short, is_hit, turn_of};
ghost use Rattle.stripe_plan.specs.Lost.{unreadable, unwritable};
ghost use Rattle.stripe_plan.specs.Plans.{unless_lost, Gives};

use crate::plan::{Out, PlanErr, Span};
use crate::touched::{own_columns, touched_stripes};
use data_map::{DataMap, MAX_FILE_SIZE};
use osd_lists::{Memory, Numbers};
use std::alloc::Global;

// Whether a component is out.
pub(crate) fn is_among(component: u32, out: &Out) -> bool
    ensures { result ≡ among component out.now.components }
{
    for other in out.components.as_slice() {
        if *other == component {
            return true;
        }
    }
    false
}

/// The component of a position that is read: its first replica that isn't out.
#[tactic(auto, unfolding(crate::specs::Lost::source))]
pub fn source(map: &DataMap, out: &Out, position: u32) -> Option<u32>
    requires { position < positions map.now }
    ensures value { result ≡ source map.now out.now.components position }
    ensures bound { IfSome result (λ k. k < map.now.comps) }
{
    let first = map.replica(position, 0);
    for component in first..first + map.replicas() {
        if !is_among(component, out) {
            return Some(component);
        }
    }
    None
}

/// Whether a position is out: all its replicas are.
pub fn is_out(map: &DataMap, out: &Out, position: u32) -> bool
    requires { position < positions map.now }
    ensures { result ≡ is_out map.now out.now.components position }
{
    source(map, out, position).is_none()
}

/// The positions of a stripe's group that are out, rising.
#[tactic(auto, unfolding(crate::specs::Lost::positions_out))]
pub fn positions_out(
    alloc: Global,
    map: &DataMap,
    out: &Out,
    stripe: u64,
) -> Result<Numbers, Memory>
    ensures { IfOk result (λ ps. ps ≡ positions_out map.now out.now.components (group_of map.now stripe)) }
{
    let first = map.group(stripe) * map.group_width();
    let mut lost = Numbers::new(alloc);
    for position in first..first + map.group_width() {
        if is_out(map, out, position) {
            lost.push(position)?;
        }
    }
    Ok(lost)
}

// Whether the range touches a data unit of a stripe whose position is out.
#[tactic(auto, unfolding(crate::specs::Touched::touches))]
fn hits_unit(map: &DataMap, range: Span, out: &Out, stripe: u64, unit: u32) -> bool
    requires inside { range.offset + range.length ≤ MAX_FILE_SIZE }
    requires stripe { stripe ≤ MAX_FILE_SIZE }
    requires unit { unit < group_width map.now }
    ensures { result ≡ (touches map.now range stripe unit
        && is_out map.now out.now.components (position_of map.now stripe unit)) }
{
    let own = own_columns(map, range, stripe, unit);
    own.first < own.end && is_out(map, out, map.position(stripe, unit))
}

// Whether a data position of a stripe that the range touches is out.
pub(crate) fn is_hit(map: &DataMap, range: Span, out: &Out, stripe: u64) -> bool
    requires inside { range.offset + range.length ≤ MAX_FILE_SIZE }
    requires stripe { stripe ≤ MAX_FILE_SIZE }
    ensures { result ≡ is_hit map.now range out.now.components stripe }
{
    for unit in 0..map.data_units() {
        if hits_unit(map, range, out, stripe, unit) {
            return true;
        }
    }
    false
}

// The positions of a stripe's group that are out, where they are more than its parity.
#[tactic(auto, unfolding(crate::specs::Lost::is_short))]
fn excess(alloc: Global, map: &DataMap, out: &Out, stripe: u64) -> Result<Option<Numbers>, Memory>
    ensures { IfOk result (λ ps. ps ≡ when (is_short map.now out.now.components stripe)
        (positions_out map.now out.now.components (group_of map.now stripe))) }
{
    let positions = positions_out(alloc, map, out, stripe)?;
    if positions.len() > map.parities() as usize {
        return Ok(Some(positions));
    }
    Ok(None)
}

// The same where the range touches a data position that is out.
fn excess_of_read(
    alloc: Global,
    map: &DataMap,
    range: Span,
    out: &Out,
    stripe: u64,
) -> Result<Option<Numbers>, Memory>
    requires inside { range.offset + range.length ≤ MAX_FILE_SIZE }
    requires stripe { stripe ≤ MAX_FILE_SIZE }
    ensures { IfOk result (λ ps. ps
        ≡ when (is_hit map.now range out.now.components stripe && is_short map.now out.now.components stripe)
        (positions_out map.now out.now.components (group_of map.now stripe))) }
{
    if !is_hit(map, range, out, stripe) {
        return Ok(None);
    }
    excess(alloc, map, out, stripe)
}

/// Whether a range can be read: that no touched stripe has a touched data position out and more positions out than it
/// has parity, else `TooManyLost` of the first that has.
pub fn check_readable(alloc: Global, map: &DataMap, range: Span, out: &Out) -> Result<(), PlanErr>
    requires { range.offset + range.length ≤ MAX_FILE_SIZE }
    ensures { Gives (unless_lost (unreadable map.now range out.now.components (stripes map.now range)) tt) result }
{
    let (first, end) = touched_stripes(map, range);
    for stripe in first..end {
        if let Some(positions) = excess_of_read(alloc, map, range, out, stripe)? {
            return Err(PlanErr::TooManyLost { positions });
        }
    }
    Ok(())
}

// The first stripe behind a stripe at which the next group has its turn, or `end` where none has before.
fn next_turn(map: &DataMap, stripe: u64, end: u64) -> u64
    requires { (stripe < end) × (end ≤ MAX_FILE_SIZE) }
    ensures above { (stripe < result) × (result ≤ end) }
    ensures same { (s : ℕ) → stripe ≤ s → s < result → turn_of map.now s ≡ turn_of map.now stripe }
    ensures turn { result < end → turn_of map.now result ≡ turn_of map.now stripe + 1 }
{
    map.known();
    let raw = map.raw();
    if raw.width == 0 {
        return end;
    }
    let depth = u64::from(raw.depth);
    end.min((stripe / depth + 1) * depth)
}

/// Whether a range can be written: that no touched stripe has more positions out than it has parity, else
/// `TooManyLost` of the first that has. It looks at one stripe of each group at most.
pub fn check_writable(alloc: Global, map: &DataMap, range: Span, out: &Out) -> Result<(), PlanErr>
    requires { range.offset + range.length ≤ MAX_FILE_SIZE }
    ensures { Gives (unless_lost (unwritable map.now out.now.components (stripes map.now range)) tt) result }
{
    map.known();
    let groups = map.groups();
    let (first, end) = touched_stripes(map, range);
    let mut stripe = first;
    for _ in 0..groups {
        if stripe >= end {
            return Ok(());
        }
        if let Some(positions) = excess(alloc, map, out, stripe)? {
            return Err(PlanErr::TooManyLost { positions });
        }
        stripe = next_turn(map, stripe, end);
    }
    Ok(())
}
