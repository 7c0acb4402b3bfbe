ghost use Rattle.std.specs.Prelude.{◌≡◌, ◌<◌, ◌≤◌, ◌+◌, ◌*◌, length, IfOk, IsTrue};
ghost use Rattle.data_map.specs.Striping.{group_width, positions, replicas};
ghost use Rattle.data_map.specs.declared.check.TheConstants.{MAX_COMPONENTS};
ghost use Rattle.server_rules.specs.Maps.{group_with};
ghost use Rattle.server_rules.specs.Standing.{replica, lacking, is_beyond, is_short};

use data_map::DataMap;
use osd_lists::{Memory, Numbers};
use server_rules::Component;
use std::alloc::Global;

/// The first present replica of a position.
#[tactic(auto, unfolding(server_rules::specs::Standing::replica_from))]
pub fn replica(map: &DataMap, components: &[Component], position: u32) -> Option<u32>
    requires { length components.now ≤ MAX_COMPONENTS }
    ensures { result ≡ replica map.now components.now position }
{
    let replicas = map.replicas();
    let mut k = 0u32;
    for at in components {
        if !at.missing && k / replicas == position {
            return Some(k);
        }
        k += 1;
    }
    None
}

/// The positions of a group that have no present replica.
#[tactic(auto, unfolding(server_rules::specs::Standing::lacking))]
pub fn lacking(
    alloc: Global,
    map: &DataMap,
    components: &[Component],
    group: u32,
) -> Result<Numbers, Memory>
    requires few { length components.now ≤ MAX_COMPONENTS }
    requires group { group < MAX_COMPONENTS }
    ensures { IfOk result (λ ps. ps ≡ lacking map.now components.now group) }
{
    let width = map.group_width();
    let mut out = Numbers::new(alloc);
    for i in 0..width {
        let position = group * width + i;
        if replica(map, components, position).is_none() {
            out.push(position)?;
        }
    }
    Ok(out)
}

/// Whether the group can't be decoded.
pub fn is_beyond(
    alloc: Global,
    map: &DataMap,
    components: &[Component],
    group: u32,
) -> Result<bool, Memory>
    requires few { length components.now ≤ MAX_COMPONENTS }
    requires group { group < MAX_COMPONENTS }
    ensures { IfOk result (λ b. b ≡ is_beyond map.now components.now group) }
{
    Ok(lacking(alloc, map, components, group)?.len() > map.parities() as usize)
}

/// The group in which a component stands.
pub fn group_with(map: &DataMap, component: u32) -> u32
    ensures { result ≡ group_with map.now component }
{
    component / map.replicas() / map.group_width()
}

/// Whether a position of the group has no present replica.
pub fn is_short(
    alloc: Global,
    map: &DataMap,
    components: &[Component],
    group: u32,
) -> Result<bool, Memory>
    requires few { length components.now ≤ MAX_COMPONENTS }
    requires group { group < MAX_COMPONENTS }
    ensures { IfOk result (λ b. b ≡ is_short map.now components.now group) }
{
    Ok(!lacking(alloc, map, components, group)?.is_empty())
}
