ghost use Rattle.std.specs.Prelude.{◌≡◌, ◌≤◌, ◌+◌, ◌<◌, length, IfOk};
ghost use Rattle.data_map.specs.declared.check.TheConstants.{MAX_COMPONENTS, MAX_DEPTH};
ghost use Rattle.server_rules.specs.Maps.{rows_below, stands_in, rows_in};
ghost use Rattle.server_rules.specs.Standing.{lacked_from};
ghost use Rattle.server_rules.specs.Get.{lacked};
ghost use Rattle.server_requests.specs.Rows.{is_lacked};

use data_map::DataMap;
use osd_lists::Memory;
use server_rules::{Component, Grant, Kept, Stripes};
use std::alloc::Global;
use stripe_repair::{group_with, is_beyond};

/// How many stripes below one a group has, which is also the row of its next one.
#[tactic(auto, unfolding(server_rules::specs::Maps::rows_below))]
pub fn rows_below(map: &DataMap, group: u32, stripe: u64) -> u128
    ensures { result ≡ rows_below map.now group stripe }
{
    let raw = map.raw();
    let stripe = u128::from(stripe);
    if raw.width == 0 {
        return stripe;
    }
    let depth = u128::from(raw.depth);
    let round = depth * u128::from(map.groups());
    let before = u128::from(group) * depth;
    (stripe / round) * depth + (stripe % round).saturating_sub(before).min(depth)
}

/// Whether a stripe of a range stands in a group.
pub fn stands_in(map: &DataMap, group: u32, first: u64, end: u64) -> bool
    ensures { result ≡ stands_in map.now group first end }
{
    rows_below(map, group, first) < rows_below(map, group, end)
}

// Whether a component is missing from a group of the range that can't be decoded.
fn is_lacked(
    alloc: Global,
    kept: &Kept,
    grant: &Grant,
    component: u32,
    at: &Component,
) -> Result<bool, Memory>
    requires few { length kept.now.components ≤ MAX_COMPONENTS }
    requires inside { component < MAX_COMPONENTS }
    ensures { IfOk result (λ b. b ≡ is_lacked kept.now grant.now component at.now) }
{
    let group = group_with(&kept.map, component);
    if at.missing && stands_in(&kept.map, group, grant.first, grant.end) {
        return is_beyond(alloc, &kept.map, kept.components.as_slice(), group);
    }
    Ok(false)
}

/// The lowest missing component that a writer of these stripes would lack: that of a group in which one of
/// them stands and that can't be decoded.
#[tactic(auto, unfolding(server_rules::specs::Standing::lacked_from))]
pub fn lacked(alloc: Global, kept: &Kept, grant: &Grant) -> Result<Option<u32>, Memory>
    requires { length kept.now.components ≤ MAX_COMPONENTS }
    ensures { IfOk result (λ k. k ≡ lacked kept.now grant.now) }
{
    if !grant.rw {
        return Ok(None);
    }
    let mut component = 0u32;
    for at in kept.components.as_slice() {
        if is_lacked(alloc, kept, grant, component, at)? {
            return Ok(Some(component));
        }
        component += 1;
    }
    Ok(None)
}
