// The grant of an answer to a LAYOUTGET.
ghost use Rattle.std.specs.Prelude.{◌≡◌, ◌≤◌, IfOk, Some, None, is_some, length, if◌then◌else◌};
ghost use Rattle.data_map.specs.declared.ranges.TheConstants.{MAX_FILE_SIZE};
ghost use Rattle.data_map.specs.Check.{HasAlgorithm};
ghost use Rattle.layout_types.specs.declared.parts.TheConstants.{MAX_MEMBERS};
ghost use Rattle.layout_types.specs.Grammar.{whole};
ghost use Rattle.layout_types.specs.Reading.{layout_in};
ghost use Rattle.client_rules.specs.Requests.{grant_in};
ghost use Rattle.client_rules.specs.Layouts.{is_map, first_why, reach_of, granted_span, is_lacking, enough, all_listed, with_listed, with_body, one_layout, taken};
ghost use Rattle.held_grants.specs.Ranges.{IsInFile, AsksInFile};
ghost use Rattle.held_grants.specs.Maps.{is_short, map_unless, with_creds};

use crate::calls::{asked_span, file_of};
use crate::components::missing_of;
use crate::cover::is_for;
use crate::credentials::{all_listed, any_secured};
use client_rules::{CallOp, Held, MAX_FILE_COMPONENTS, Reach, Why, is_write};
use data_map::{DataMap, MAX_FILE_SIZE, RawMap};
use layout_ops::{Answer, LAYOUTIOMODE4_RW, LayoutGetResult, LayoutSegment, Results, StateId};
use layout_types::{Layout, LayoutErr, Structure};
use osd_lists::{Memory, u32_at};
use std::alloc::Global;
use stripe_plan::{Out, PlanErr, Span, check_writable};

/// The number of the grant that a stateid names: its last 4 bytes.
pub fn grant_in(state: &StateId) -> u32
    ensures { result ≡ grant_in state.now }
{
    u32_at(&state.other, 8)
}

// Whether a map can be used, and the checked map where it can.
fn usable(raw: RawMap) -> Option<DataMap>
    requires { HasAlgorithm raw }
    ensures { result ≡ (if is_map raw then Some raw else None) }
{
    match DataMap::check(raw) {
        Ok(map) if raw.comps <= MAX_FILE_COMPONENTS => Some(map),
        _ => None,
    }
}

// What a grant is for, by the answer that gives it.
fn reach_of(size: u64, op: &CallOp, segment: &LayoutSegment) -> Reach
    requires { AsksInFile op.now }
    ensures { result ≡ reach_of size op.now segment.now }
{
    let rw = segment.iomode == LAYOUTIOMODE4_RW;
    let asked = asked_span(op);
    Reach {
        rw,
        extending: rw && size < asked.offset + asked.length,
        first: segment.offset,
        end: segment
            .offset
            .saturating_add(segment.length)
            .min(MAX_FILE_SIZE),
    }
}

// Whether some stripe of a range lacks more positions than its parity brings back.
fn lacks(alloc: Global, map: &DataMap, range: Span, out: &Out) -> Result<bool, Memory>
    requires { IsInFile range }
    ensures { IfOk result (λ yes. yes ≡ is_short map.now out.now.components range) }
{
    match check_writable(alloc, map, range, out) {
        Ok(()) => Ok(false),
        Err(PlanErr::TooManyLost { .. }) => Ok(true),
        Err(PlanErr::Memory) => Err(Memory),
    }
}

// The same of the bytes that were granted.
fn lacks_granted(alloc: Global, held: &Held, out: &Out) -> Result<bool, Memory>
    requires { held.now.reach.end ≤ MAX_FILE_SIZE }
    ensures { IfOk result (λ yes. yes ≡ is_short held.now.map out.now.components (granted_span held.now.reach)) }
{
    if held.reach.end <= held.reach.first {
        return Ok(false);
    }
    let granted = Span {
        offset: held.reach.first,
        length: held.reach.end - held.reach.first,
    };
    lacks(alloc, &held.map, granted, out)
}

// Whether some stripe of what was asked or granted lacks more positions than its parity brings back.
#[tactic(auto, unfolding(client_rules::specs::Layouts::is_lacking))]
fn is_lacking(alloc: Global, held: &Held, op: &CallOp) -> Result<bool, Memory>
    requires op { AsksInFile op.now }
    requires few { length held.now.components ≤ MAX_MEMBERS }
    requires held { held.now.reach.end ≤ MAX_FILE_SIZE }
    ensures { IfOk result (λ yes. yes ≡ is_lacking held.now op.now) }
{
    let components = missing_of(alloc, held.components.as_slice())?;
    if components.is_empty() {
        return Ok(false);
    }
    let out = Out { components };
    if lacks(alloc, &held.map, asked_span(op), &out)? {
        return Ok(true);
    }
    lacks_granted(alloc, held, &out)
}

// The grant, unless it or the call is for writing and a stripe lacks too much.
#[tactic(auto, unfolding(client_rules::specs::Layouts::enough))]
fn enough(alloc: Global, held: Held, op: &CallOp) -> Result<Result<Held, Why>, Memory>
    requires op { AsksInFile op.now }
    requires few { length held.components ≤ MAX_MEMBERS }
    requires held { held.reach.end ≤ MAX_FILE_SIZE }
    ensures { IfOk result (λ r. r ≡ enough held op.now) }
{
    if (is_write(op) || held.reach.rw) && is_lacking(alloc, &held, op)? {
        return Ok(Err(Why::Credential));
    }
    Ok(Ok(held))
}

// The map of a layout, unless something but a credential stands against that.
#[tactic(auto, unfolding(client_rules::specs::Layouts::first_why))]
fn usable_map(reach: &Reach, size: u64, op: &CallOp, layout: &Layout) -> Result<DataMap, Why>
    requires op { AsksInFile op.now }
    requires algorithm { HasAlgorithm layout.now.olo_map }
    ensures { result ≡ map_unless layout.now.olo_map (first_why reach.now size op.now layout.now) }
{
    if !is_for(reach, size, op) {
        return Err(Why::Unreadable);
    }
    if layout.olo_comps_index != 0 {
        return Err(Why::Index);
    }
    if layout.olo_components.len() != layout.olo_map.comps as usize {
        return Err(Why::Partial);
    }
    if any_secured(layout.olo_components.as_slice()) {
        return Err(Why::Ssv);
    }
    match usable(layout.olo_map) {
        Some(map) => Ok(map),
        None => Err(Why::Map),
    }
}

// The grant with the components of a layout whose map can be used.
fn with_components(
    alloc: Global,
    answer: &Answer,
    number: u32,
    op: &CallOp,
    reach: Reach,
    layout: &Layout,
    map: DataMap,
) -> Result<Result<Held, Why>, Memory>
    requires op { AsksInFile op.now }
    requires reach { reach.end ≤ MAX_FILE_SIZE }
    requires few { length layout.now.olo_components ≤ MAX_MEMBERS }
    requires map { map ≡ layout.now.olo_map }
    ensures { IfOk result (λ r. r ≡ with_creds answer.now number op.now reach layout.now) }
{
    let components = match all_listed(alloc, layout.olo_components.as_slice())? {
        Some(components) => components,
        None => return Ok(Err(Why::Credential)),
    };
    let held = Held {
        file: file_of(op),
        number,
        reach,
        size: answer.size,
        map,
        components,
        count: 0,
    };
    enough(alloc, held, op)
}

// The grant of the layout that a body spells.
fn with_body(
    alloc: Global,
    answer: &Answer,
    number: u32,
    op: &CallOp,
    reach: Reach,
    body: &[u8],
) -> Result<Result<Held, Why>, Memory>
    requires op { AsksInFile op.now }
    requires reach { reach.end ≤ MAX_FILE_SIZE }
    ensures { IfOk result (λ r. r ≡ with_body answer.now number op.now reach (whole layout_in body.now)) }
{
    let layout = match Layout::read(alloc, body) {
        Ok(layout) => layout,
        Err(LayoutErr::Memory) => return Err(Memory),
        Err(_) => return Ok(Err(Why::Unreadable)),
    };
    match usable_map(&reach, answer.size, op, &layout) {
        Ok(map) => with_components(alloc, answer, number, op, reach, &layout, map),
        Err(why) => Ok(Err(why)),
    }
}

// The grant of the one layout that there has to be.
fn one_layout(
    alloc: Global,
    answer: &Answer,
    number: u32,
    op: &CallOp,
    layouts: &[LayoutSegment],
) -> Result<Result<Held, Why>, Memory>
    requires { AsksInFile op.now }
    ensures { IfOk result (λ r. r ≡ one_layout answer.now number op.now layouts.now) }
{
    if layouts.len() != 1 {
        return Ok(Err(Why::Unreadable));
    }
    let segment = &layouts[0];
    let reach = reach_of(answer.size, op, segment);
    with_body(alloc, answer, number, op, reach, segment.body.as_slice())
}

/// The grant that a client takes from the answer to a call's LAYOUTGET (RFC 5661 18.43, RFC 5664 5.2), or why it
/// takes none: the first of [`Why`] that holds. The call's range ends at most at
/// [`MAX_FILE_SIZE`](data_map::MAX_FILE_SIZE).
#[tactic(auto, unfolding(client_rules::specs::Layouts::taken))]
pub fn grant_from(alloc: Global, answer: &Answer, op: &CallOp) -> Result<Result<Held, Why>, Memory>
    requires { AsksInFile op.now }
    ensures { IfOk result (λ r. r ≡ taken answer.now op.now) }
{
    match &answer.results {
        Results::LayoutGet(LayoutGetResult::Granted(granted)) => {
            let number = grant_in(&granted.stateid);
            one_layout(alloc, answer, number, op, granted.layouts.as_slice())
        }
        _ => Ok(Err(Why::Unreadable)),
    }
}
