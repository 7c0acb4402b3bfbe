// Drives for missing components.
ghost use Rattle.std.specs.Prelude.{◌≡◌, ◌<◌, ◌≤◌, ◌^◌, true, All, drop, length, List, option_map, IfOk};
ghost use Rattle.server_rules.specs.declared.server.Drive.{Drive as ADrive};
ghost use Rattle.stripe_repair.specs.Placing.{AreDifferent, FitsLoad, drives_of};
ghost use Rattle.zone_place.specs.Choosing.{pick_of};
ghost use Rattle.zone_place.specs.Zones.{ask_of};
ghost use Rattle.zone_place.specs.declared.loads.TheConstants.{MAX_DRIVES};
ghost use Rattle.server_rules.specs.declared.limits.TheConstants.{MAX_FILE_COMPONENTS};
ghost use Rattle.server_rules.specs.Rebuild.{rebuilds};
ghost use Rattle.server_rules.specs.Standing.{free_drives};
ghost use Rattle.server_rules.specs.Zoning.{holders_from, takers_by};
ghost use Rattle.stripe_repair.specs.Loads.{zone_loads};
ghost use Rattle.file_jobs.specs.Sound.{IsSound, RestsSound};
ghost use Rattle.file_jobs.specs.Steps.{Chooses, IsSettled, MakesOn};
ghost use Rattle.file_jobs.specs.Placing.{AreLoadsOf, IsAmong, IsPick, free_loads};

use crate::components::stood_on;
use crate::effects::{note, rest};
use crate::job::{Turn, Work};
use osd_lists::{Memory, Sequence};
use server_rules::{AwaitedCommands, Component, Effects, JobKind, Kept, NoteKind, Target};
use std::alloc::Global;
use stripe_repair::{Ask, DriveLoad, Place, online_count, sent_to, zone_loads};
use zone_place::{Holder, zone_ask};

// A drive as the placer is told of it, online if it is free for the file.
fn load_of(drive: u32, online: bool, objects: u32, zone: Option<u32>) -> DriveLoad
    ensures value { result ≡ record { drive = drive; online = online; objects = objects; zone = zone } }
    ensures fits { FitsLoad result }
{
    DriveLoad {
        drive,
        online,
        objects,
        zone,
    }
}

// The drives as the placer is told of them: online are those that are free for the file.
fn free_loads(
    alloc: Global,
    loads: &[DriveLoad],
    components: &[Component],
) -> Result<Sequence<DriveLoad>, Memory>
    ensures value { IfOk result (λ free. free ≡ free_loads components.now loads.now) }
    ensures fits { IfOk result (λ free. All FitsLoad free) }
{
    let mut free = Sequence::new(alloc);
    for load in loads {
        let online = load.online && !stood_on(load.drive, components);
        free.push(load_of(load.drive, online, load.objects, load.zone))?;
    }
    Ok(free)
}

// A drive that is free for the file, by the placer; `None` exactly if there is none.
fn pick_free<P: Place>(
    alloc: Global,
    components: &[Component],
    loads: &[DriveLoad],
    placer: &P,
) -> Result<Option<u32>, Memory>
    requires few { length loads.now ≤ MAX_DRIVES }
    requires different { AreDifferent (drives_of loads.now) }
    requires placer { P.is_placer placer.now }
    ensures { IfOk result (λ found. (ds : List ADrive) → AreLoadsOf loads.now ds →
        IsAmong (free_drives ds components.now) found) }
{
    let free = free_loads(alloc, loads, components)?;
    if online_count(free.as_slice()) == 0 {
        return Ok(None);
    }
    let chosen = placer.place(1, free.as_slice())?;
    let drive = *chosen.get(0);
    Ok(Some(drive))
}

// The drives on which the components stand, or last stood.
#[tactic(auto, unfolding(server_rules::specs::Zoning::holders_from))]
fn holders_of(alloc: Global, components: &[Component]) -> Result<Sequence<Holder>, Memory>
    requires { length components.now ≤ MAX_FILE_COMPONENTS }
    ensures { IfOk result (λ holders. holders ≡ holders_from components.now 0) }
{
    let mut holders = Sequence::new(alloc);
    let mut component = 0u32;
    for at in components {
        holders.push(Holder {
            component,
            drive: at.drive,
        })?;
        component += 1;
    }
    Ok(holders)
}

// A drive that is free for the file and in a zone with room for the component: the one with the fewest objects, of
// equals that of the lowest number. `None` exactly if there is none.
fn pick_in_zones(
    alloc: Global,
    kept: &Kept,
    component: u32,
    loads: &[DriveLoad],
) -> Result<Option<u32>, Memory>
    requires sound { IsSound kept.now }
    ensures exact { IfOk result (λ found. found ≡ option_map (λ l. l.drive)
        (pick_of (ask_of kept.now.map) component (holders_from kept.now.components 0) (zone_loads loads.now))) }
    ensures among { IfOk result (λ found. (ds : List ADrive) → AreLoadsOf loads.now ds →
        IsAmong (takers_by true ds kept.now component) found) }
{
    let zones = zone_loads(alloc, loads)?;
    let holders = holders_of(alloc, kept.components.as_slice())?;
    let ask = zone_ask(&kept.map);
    Ok(zone_place::pick(&ask, component, holders.as_slice(), zones.as_slice()))
}

/// A drive that may take a component of the file, by the placer; `None` exactly if there is none. A file that is
/// spread over zones gets one by [`zone_place::pick`].
pub fn pick<P: Place>(
    alloc: Global,
    kept: &Kept,
    component: u32,
    loads: &[DriveLoad],
    placer: &P,
) -> Result<Option<u32>, Memory>
    requires few { length loads.now ≤ MAX_DRIVES }
    requires different { AreDifferent (drives_of loads.now) }
    requires placer { P.is_placer placer.now }
    requires sound { IsSound kept.now }
    ensures { IfOk result (λ found. (ds : List ADrive) → AreLoadsOf loads.now ds → IsPick ds kept.now component found) }
{
    if kept.zoned {
        return pick_in_zones(alloc, kept, component, loads);
    }
    pick_free(alloc, kept.components.as_slice(), loads, placer)
}

// Sends the CREATE of a missing component on a drive, with the next object number.
fn create_on(
    alloc: Global,
    kept: &Kept,
    effects: &mut Effects,
    component: u32,
    drive: u32,
) -> Result<Turn, Memory>
    requires low { effects.old.nonce < 2 ^ 63 }
    requires objects { effects.old.object < 2 ^ 63 }
    requires component { component < length kept.now.components }
    ensures turn { IfOk result (λ turn. MakesOn component drive kept.now effects.old turn effects.new) }
    ensures settled { IfOk result IsSettled }
    ensures sound { IfOk result (λ turn. RestsSound turn effects.old kept.now effects.new) }
{
    let target = Target {
        component,
        drive,
        object: effects.object,
    };
    effects.object += 1;
    let mut creates = AwaitedCommands::new(alloc);
    creates.push(sent_to(alloc, kept, Ask::Create, target, effects.nonce)?)?;
    rest(
        alloc,
        effects,
        JobKind::Rebuilding,
        Work::Targets { target },
        creates,
    )
}

/// Finds a drive for the first missing component from a number on; one that no drive can take is passed over.
#[tactic(auto, unfolding(server_rules::specs::Rebuild::rebuilds))]
pub fn place_missing<P: Place>(
    alloc: Global,
    kept: &Kept,
    effects: &mut Effects,
    from: u32,
    loads: &[DriveLoad],
    placer: &P,
) -> Result<Turn, Memory>
    requires few { length loads.now ≤ MAX_DRIVES }
    requires different { AreDifferent (drives_of loads.now) }
    requires placer { P.is_placer placer.now }
    requires sound { IsSound kept.now }
    requires low { effects.old.nonce < 2 ^ 63 }
    requires objects { effects.old.object < 2 ^ 63 }
    ensures turn { IfOk result (λ turn. Chooses (λ g. rebuilds g (drop from kept.now.components) from) loads.now
        kept.now effects.old turn kept.now effects.new) }
    ensures settled { IfOk result IsSettled }
    ensures sound { IfOk result (λ turn. RestsSound turn effects.old kept.now effects.new) }
{
    let mut k = from;
    while (k as usize) < kept.components.len() {
        if kept.components.get(k as usize).missing {
            match pick(alloc, kept, k, loads, placer)? {
                Some(drive) => return create_on(alloc, kept, effects, k, drive),
                None => note(effects, kept.number, NoteKind::NoDrive { component: k })?,
            }
        }
        k += 1;
    }
    Ok(Turn::Over)
}
