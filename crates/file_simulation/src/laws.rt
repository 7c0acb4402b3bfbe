// What is proved of the simulation of files by the machine of a file.
ghost use Rattle.file_simulation.specs.Conclusion.{RunsGiveTheHeadline, SimulationGivesRuns};

use component_law::pending_is_read;
use fence_law::{judged, whole};
use plan_law::{columns_have_stripes, layouts_are_codes};
use world_history::{one_event_more, reading_goes_on};

/// If each move takes the machine of a file further, a file that is made begins as its machine does, and each cut of a
/// move shows the files that were there before and those that it makes, then each file of a calm and unguessed history
/// goes as a lawful and calm run that shows its lines, also where the history is cut inside a move.
pub fn simulation_gives_runs()
    ensures { SimulationGivesRuns }
{
    one_event_more();
    reading_goes_on();
    pending_is_read();
}

/// If each file of a calm and unguessed history goes as such a run, the headline holds: the judge accepts each file's
/// log, and each stripe that isn't disturbed is whole. Two things are asked beside: files have usable maps and as many
/// components, and a file that there isn't has no entry in the log.
pub fn runs_give_the_headline()
    ensures { RunsGiveTheHeadline }
{
    judged();
    whole();
    layouts_are_codes();
    columns_have_stripes();
}
