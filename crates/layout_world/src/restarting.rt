// Drives and the server crash, and are opened again.
ghost use Rattle.std.specs.Prelude.{true, false, IfOk};
ghost use Rattle.scenario_text.specs.declared.event.Event.TheVariants as event;
ghost use Rattle.server_rules.specs.History.{Crashes, Opens as OpensAgain};
ghost use Rattle.world_history.specs.State.{with_down};
ghost use Rattle.world_history.specs.Drives.{crashed, reopened};
ghost use Rattle.world_history.specs.Moves.{Opens, changed, at_drive, gives, begins};
ghost use Rattle.layout_world.specs.Acting.{Acts, ActsWith, ends_by, ends_in};

use crate::parties::Parties;
use osd_lists::Memory;
use scenario_text::{DriveName, Machine};
use std::alloc::Global;
use world_network::Act;
use world_parties::drives_are_the_worlds;

// A drive is down from now on.
fn crash_drive(parties: &mut Parties, alloc: Global, drive: DriveName) -> Act
    ensures { Acts (λ w chosen. changed (at_drive w drive crashed)) parties.old parties.new result }
{
    drives_are_the_worlds();
    parties.drives.crash(alloc, drive);
    Act::nothing(alloc)
}

// Its store is opened, and it isn't down any more.
fn reopen_drive(parties: &mut Parties, alloc: Global, drive: DriveName) -> Result<Act, Memory>
    ensures { IfOk result (λ act. Acts (λ w chosen. changed (at_drive w drive reopened)) parties.old parties.new act) }
{
    drives_are_the_worlds();
    parties.drives.reopen(alloc, drive)?;
    Ok(Act::nothing(alloc))
}

// The server is down from now on, and no job runs.
fn crash_server(parties: &mut Parties, alloc: Global) -> Result<Act, Memory>
    ensures { IfOk result (λ act. ActsWith (λ w chosen. gives (with_down w true) chosen Crashes) (ends_by Crashes)
        parties.old parties.new act) }
{
    let act = parties.server.crash(alloc)?;
    parties.down = true;
    Ok(act)
}

// It isn't down any more, and ends what the crash cut off.
fn reopen_server(parties: &mut Parties, alloc: Global) -> Result<Act, Memory>
    ensures { IfOk result (λ act. ActsWith (λ w chosen. gives (with_down w false) chosen OpensAgain) (ends_by OpensAgain)
        parties.old parties.new act) }
{
    let act = parties.server.reopen(alloc)?;
    parties.down = false;
    Ok(act)
}

/// A drive or the server crashes.
pub fn crash(parties: &mut Parties, alloc: Global, machine: Machine) -> Result<Act, Memory>
    ensures { IfOk result (λ act. ActsWith (λ w chosen. begins w chosen (event.Crash machine))
        (ends_in (Opens (event.Crash machine))) parties.old parties.new act) }
{
    match machine {
        Machine::Drive { drive } => Ok(crash_drive(parties, alloc, drive)),
        Machine::Server => crash_server(parties, alloc),
    }
}

/// A drive or the server is opened again after a crash.
pub fn reopen(parties: &mut Parties, alloc: Global, machine: Machine) -> Result<Act, Memory>
    ensures { IfOk result (λ act. ActsWith (λ w chosen. begins w chosen (event.Reopen machine))
        (ends_in (Opens (event.Reopen machine))) parties.old parties.new act) }
{
    match machine {
        Machine::Drive { drive } => reopen_drive(parties, alloc, drive),
        Machine::Server => reopen_server(parties, alloc),
    }
}
