// Zones of drives.
ghost use Rattle.std.specs.Prelude.{◌≡◌, ◌↔◌, IsTrue, IsErr, OnErr};
ghost use Rattle.server_rules.specs.Zoning.{put_in_zone};
ghost use Rattle.server_state.specs.Drives.{AreDrives};
ghost use Rattle.layout_server.specs.Zones.{is_in_zone, is_known, place_in};

use server_rules::Drive;
use server_state::Drives;
use thiserror::Error;

/// Why a drive isn't put into a zone.
#[derive(Clone, Copy, Debug, PartialEq, Eq, Error)]
pub enum ZoneErr {
    /// The drive is in a zone.
    #[error("the drive is in a zone")]
    Taken,
}

// The place of the drive of that number, behind all if there is none.
#[tactic(auto, unfolding(crate::specs::Zones::place_in))]
fn place_of(drives: &[Drive], number: u32) -> usize
    ensures { result ≡ place_in drives.now number }
{
    for i in 0..drives.len() {
        if drives[i].number == number {
            return i;
        }
    }
    drives.len()
}

/// A drive that is in no zone is put into one.
///
/// # Errors
///
/// That the drive is in a zone. Then it stays there.
pub fn set_zone(drives: &mut Drives, number: u32, zone: u32) -> Result<(), ZoneErr>
    requires drives { AreDrives drives.old }
    requires known { IsTrue (is_known number drives.old) }
    ensures put { drives.new ≡ put_in_zone drives.old number zone }
    ensures drives { AreDrives drives.new }
    ensures taken { IsErr result ↔ IsTrue (is_in_zone number drives.old) }
    ensures stays { OnErr result (drives.new ≡ drives.old) }
{
    let place = place_of(drives.as_slice(), number);
    if drives.get(place).zone.is_some() {
        return Err(ZoneErr::Taken);
    }
    let drive = drives.get_mut(place);
    drive.zone = Some(zone);
    Ok(())
}
