// The rule by which the tests place components: the first online drives, in order.
ghost use Rattle.std.specs.Prelude.{◌≡◌, OnOk};
ghost use Rattle.std.specs.Result.{ForOk};
ghost use Rattle.stripe_repair.specs.Placing.{CanPlace, Places};
ghost use Rattle.core_tests.specs.Choosing.{with_load};

use osd_lists::{Memory, Numbers};
use std::alloc::Global;
use stripe_repair::{DriveLoad, Place};

// The drive of a load too, where it is online and more are wanted.
fn take(chosen: &mut Numbers, count: u32, load: &DriveLoad) -> Result<(), Memory>
    ensures { OnOk result (chosen.new ≡ with_load count load.now chosen.old) }
{
    if load.online && chosen.len() < count as usize {
        chosen.push(load.drive)?;
    }
    Ok(())
}

// So many of the first online drives.
fn first_online(alloc: Global, count: u32, loads: &[DriveLoad]) -> Result<Numbers, Memory>
    requires { CanPlace count loads.now }
    ensures { ForOk result (Places count loads.now) }
{
    let mut chosen = Numbers::new(alloc);
    for load in loads {
        take(&mut chosen, count, load)?;
    }
    Ok(chosen)
}

/// That rule.
#[derive(Clone, Copy)]
pub struct FirstOnline {
    pub alloc: Global,
}

impl Place for FirstOnline {
    fn place(&self, count: u32, loads: &[DriveLoad]) -> Result<Numbers, Memory> {
        first_online(self.alloc, count, loads)
    }
}
