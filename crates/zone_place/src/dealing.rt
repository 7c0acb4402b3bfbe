ghost use Rattle.std.specs.Prelude.{◌≡◌, ◌<◌, ◌++◌, take, map, OnOk, IfOk};
ghost use Rattle.std.specs.Result.{ForOk};
ghost use Rattle.zone_place.specs.Zones.{within, in_line, dealt, every};
ghost use Rattle.zone_place.specs.Dealing.{lowered, zone_from};
ghost use Rattle.zone_place.specs.Choosing.{online_placed, CanSpread, Spreads};

use crate::asks::ZoneAsk;
use crate::loads::ZoneLoad;
use osd_lists::{Memory, Numbers};
use std::alloc::Global;

// Of a zone that was found and another, the lower.
fn lower_of(found: Option<u32>, zone: u32) -> Option<u32>
    ensures { result ≡ lowered found zone }
{
    match found {
        Some(found) if found <= zone => Some(found),
        _ => Some(zone),
    }
}

// The lowest zone with an online drive, of those from `lowest` on.
fn next_zone(lowest: u64, loads: &[ZoneLoad]) -> Option<u32>
    ensures { result ≡ zone_from lowest (online_placed loads.now) }
{
    let mut found = None;
    for load in loads {
        if load.online && lowest <= u64::from(load.zone) {
            found = lower_of(found, load.zone);
        }
    }
    found
}

// Adds the first online drives of a zone, but no more than `most`.
fn add_zone(line: &mut Numbers, zone: u32, most: u64, loads: &[ZoneLoad]) -> Result<(), Memory>
    ensures { OnOk result (line.new ≡ line.old ++ take most (map (λ d. d.drive) (within zone (online_placed loads.now)))) }
{
    let mut left = most;
    for load in loads {
        if 0 < left && load.online && load.zone == zone {
            line.push(load.drive)?;
            left -= 1;
        }
    }
    Ok(())
}

// As many drives as are asked, zone after zone, and none with more than all groups together may have in it.
fn drives_in_line(alloc: Global, ask: &ZoneAsk, loads: &[ZoneLoad]) -> Result<Numbers, Memory>
    ensures { IfOk result (λ line. line ≡ in_line ask.now (online_placed loads.now)) }
{
    let zone_most = u64::from(ask.groups) * u64::from(ask.most);
    let mut line = Numbers::new(alloc);
    let mut lowest = 0u64;
    while let Some(zone) = next_zone(lowest, loads) {
        add_zone(&mut line, zone, zone_most, loads)?;
        lowest = u64::from(zone) + 1;
    }
    line.truncate((u64::from(ask.groups) * u64::from(ask.size)) as usize);
    Ok(line)
}

// Adds each drive of the line whose turn is the group's.
fn add_every(chosen: &mut Numbers, groups: u32, group: u32, line: &[u32]) -> Result<(), Memory>
    requires { 0 < groups }
    ensures { OnOk result (chosen.new ≡ chosen.old ++ every groups group line.now) }
{
    let mut next = group as usize;
    while next < line.len() {
        chosen.push(line[next])?;
        next += groups as usize;
    }
    Ok(())
}

/// The online drives of these, dealt to the groups by turns: zone after zone, none with more than all groups together
/// may have in it, and group after group in the list. Where a spread may be asked of the drives, they are spread.
pub fn deal(alloc: Global, ask: &ZoneAsk, loads: &[ZoneLoad]) -> Result<Numbers, Memory>
    ensures exact { IfOk result (λ chosen. chosen ≡ dealt ask.now (online_placed loads.now)) }
    ensures spread { CanSpread ask.now loads.now → ForOk result (Spreads ask.now loads.now) }
{
    let line = drives_in_line(alloc, ask, loads)?;
    let mut chosen = Numbers::new(alloc);
    for group in 0..ask.groups {
        add_every(&mut chosen, ask.groups, group, line.as_slice())?;
    }
    Ok(chosen)
}
