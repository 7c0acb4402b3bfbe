ghost use Rattle.std.specs.Prelude.{◌≡◌, ◌<◌, length, option_map};
ghost use Rattle.zone_place.specs.Zones.{stands_in as is_within, others_in as others_within};
ghost use Rattle.zone_place.specs.Picking.{chosen_of};
ghost use Rattle.zone_place.specs.Choosing.{all_placed, is_free as is_unheld, takes, comes_before as is_before, pick_of};

use crate::asks::ZoneAsk;
use crate::loads::{Holder, ZoneLoad};

// Whether the drive is among these, in that zone.
fn stands_in(drive: u32, zone: u32, loads: &[ZoneLoad]) -> bool
    ensures { result ≡ is_within (all_placed loads.now) drive zone }
{
    loads
        .iter()
        .any(|load| load.drive == drive && load.zone == zone)
}

// How many other components of the same group stand, or last stood, in a zone.
fn others_in(
    ask: &ZoneAsk,
    component: u32,
    zone: u32,
    holders: &[Holder],
    loads: &[ZoneLoad],
) -> usize
    requires { 0 < ask.now.size }
    ensures { result ≡ length (others_within ask.now (all_placed loads.now) component zone holders.now) }
{
    holders
        .iter()
        .filter(|holder| {
            holder.component / ask.size == component / ask.size
                && holder.component != component
                && stands_in(holder.drive, zone, loads)
        })
        .count()
}

// Whether no component of the file stands, or last stood, on the drive.
fn is_free(drive: u32, holders: &[Holder]) -> bool
    ensures { result ≡ is_unheld drive holders.now }
{
    !holders.iter().any(|holder| holder.drive == drive)
}

// Whether the drive may take the component.
fn may_take(
    ask: &ZoneAsk,
    component: u32,
    holders: &[Holder],
    loads: &[ZoneLoad],
    load: &ZoneLoad,
) -> bool
    requires { 0 < ask.now.size }
    ensures { result ≡ takes ask.now loads.now component holders.now load.now }
{
    load.online
        && is_free(load.drive, holders)
        && (others_in(ask, component, load.zone, holders, loads) as u64) < u64::from(ask.most)
}

// Whether the one drive is chosen before the other.
fn comes_before(first: &ZoneLoad, second: &ZoneLoad) -> bool
    ensures { result ≡ is_before first.now second.now }
{
    first.objects < second.objects || first.objects == second.objects && first.drive < second.drive
}

// Of the drive that was found so far and another, the one that is chosen before the other.
fn earlier_of(found: Option<ZoneLoad>, load: ZoneLoad) -> Option<ZoneLoad>
    ensures { result ≡ chosen_of found load }
{
    match found {
        Some(found) if comes_before(&found, &load) => Some(found),
        _ => Some(load),
    }
}

/// The drive for one component of a file: of the online drives on which none of the file's components stands or last
/// stood, and in whose zone fewer of the other components of its group stand or last stood than is asked, the one with
/// the fewest objects, and of equals that of the lowest number. `None` comes exactly where there is none.
///
/// `holders` are the components of the file, present or missing. One on a drive that isn't among `loads` counts for no
/// zone.
pub fn pick(ask: &ZoneAsk, component: u32, holders: &[Holder], loads: &[ZoneLoad]) -> Option<u32>
    requires { 0 < ask.now.size }
    ensures { result ≡ option_map (λ l. l.drive) (pick_of ask.now component holders.now loads.now) }
{
    let mut found: Option<ZoneLoad> = None;
    for load in loads {
        if may_take(ask, component, holders, loads, load) {
            found = earlier_of(found, *load);
        }
    }
    match found {
        Some(load) => Some(load.drive),
        None => None,
    }
}
