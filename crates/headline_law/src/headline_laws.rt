// The headline, from the laws of histories and of the machine.
ghost use Rattle.file_simulation.specs.Claim.{AuditsFindNone, HeadlineHolds};
ghost use Rattle.file_simulation.specs.Simulation.{EachFileIsCreated, EachMoveGoesOn};

use crate::world_laws::{histories_are_lawful, machine_is_lawful};
use file_simulation::{runs_give_the_headline, simulation_gives_runs};
use relation_law::files_are_shaped;

/// For a file that a move of a calm and unguessed history makes stands the machine of a file that was just made.
pub fn each_file_is_created()
    ensures { EachFileIsCreated }
{
    histories_are_lawful();
}

/// Each move of a calm and unguessed history takes the machine of each file further: its events can happen, keep the
/// run calm, and lead to a machine that is related to the world behind the move and shows its lines.
pub fn moves_go_on()
    ensures { EachMoveGoesOn }
{
    histories_are_lawful();
    machine_is_lawful();
}

/// The headline: of each calm and unguessed history of a scenario's text with few messages, also of one that is cut
/// inside a move, the judge accepts the log of each file. That is, each answered read gave, in order of start, what
/// was acknowledged before it, an unfinished write's bytes being old or new, once for all. And each stripe that isn't
/// disturbed is whole.
pub fn headline_holds()
    ensures { HeadlineHolds }
{
    histories_are_lawful();
    machine_is_lawful();
    simulation_gives_runs();
    runs_give_the_headline();
    files_are_shaped();
}

/// No audit of a calm and unguessed history finds a bad stripe.
pub fn audits_find_none()
    ensures { AuditsFindNone }
{
    histories_are_lawful();
    machine_is_lawful();
}
