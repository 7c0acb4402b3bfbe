ghost use Rattle.std.specs.Prelude.{◌≡◌, ◌≤◌, All, length, IfOk};
ghost use Rattle.server_state.specs.Counts.{told};
ghost use Rattle.stripe_repair.specs.Placing.{AreDifferent, FitsLoad, drives_of};
ghost use Rattle.zone_place.specs.declared.loads.TheConstants.{MAX_DRIVES};
ghost use Rattle.file_jobs.specs.Placing.{AreLoadsOf};
ghost use Rattle.server_state.specs.Drives.{AreDrives};
ghost use Rattle.server_state.specs.Standing.{AreCounted};
ghost use Rattle.layout_server.specs.Loads.{Tells};

use osd_lists::{Memory, Sequence};
use server_rules::Drive;
use server_state::{DriveCounts, State};
use std::alloc::Global;
use stripe_repair::DriveLoad;

// A drive as the placer sees it.
fn load_of(drive: u32, online: bool, objects: u32, zone: Option<u32>) -> DriveLoad
    ensures value { result ≡ record { drive = drive; online = online; objects = objects; zone = zone } }
    ensures fits { FitsLoad result }
{
    DriveLoad {
        drive,
        online,
        objects,
        zone,
    }
}

// The drives with these counts.
fn loads_with(
    alloc: Global,
    drives: &[Drive],
    counts: &DriveCounts,
) -> Result<Sequence<DriveLoad>, Memory>
    ensures drives { IfOk result (λ loads. AreLoadsOf loads drives.now) }
    ensures fits { IfOk result (λ loads. All FitsLoad loads) }
    ensures told { IfOk result (λ loads. All (λ l. l.objects ≡ told counts.now l.drive) loads) }
{
    let mut loads = Sequence::new(alloc);
    for drive in drives {
        let objects = counts.on(drive.number);
        loads.push(load_of(drive.number, drive.online, objects, drive.zone))?;
    }
    Ok(loads)
}

/// The drives as the placer sees them, with what they hold of all files.
pub fn loads_of(alloc: Global, state: &State) -> Result<Sequence<DriveLoad>, Memory>
    requires drives { AreDrives state.now.drives }
    requires counts { AreCounted state.now.counts state.now.files.entries }
    ensures drives { IfOk result (λ loads. AreLoadsOf loads state.now.drives) }
    ensures fits { IfOk result (λ loads. All FitsLoad loads) }
    ensures few { IfOk result (λ loads. length loads ≤ MAX_DRIVES) }
    ensures different { IfOk result (λ loads. AreDifferent (drives_of loads)) }
    ensures tells { IfOk result (λ loads. All (Tells state.now.files.entries) loads) }
{
    loads_with(alloc, state.drives.as_slice(), &state.counts)
}
