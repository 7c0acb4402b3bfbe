// What holds of every run of a cluster.
ghost use Rattle.cluster_history.specs.Laws.{EachRunHasAHistory, EachRunIsSound};
ghost use Rattle.cluster_history.specs.Laws.{EachRunIsOfScenario, UnhitRunsAreUnguessed, CalmRunsAreRight};
ghost use Rattle.cluster_history.specs.Laws.{LosslessRunsAreCalm, LosslessRunsAreRight};

use history_claims::histories_are_sound;
use lossless_law::lossless_is_calm;
use world_history::messages_are_read;

/// Each run of a cluster has a lawful history. Its lines are those of the run's steps, in order, and it leads to a
/// world that has each party as the cluster has it then, and the same messages.
pub fn each_run_has_a_history()
    ensures { EachRunHasAHistory }
{}

/// So all that is so of every lawful history is so of the history of each run.
pub fn each_run_is_sound()
    ensures { EachRunIsSound }
{
    each_run_has_a_history();
    histories_are_sound();
}

/// Where the numbers of the steps are such as a line of a scenario can have, and there are few messages, the history
/// is one of a scenario's text with few messages.
pub fn each_run_is_of_scenario()
    ensures { EachRunIsOfScenario }
{
    each_run_has_a_history();
    messages_are_read();
}

/// Where no bytes but messages of the parties come to a drive, nothing is guessed.
pub fn unhit_runs_are_unguessed()
    ensures { UnhitRunsAreUnguessed }
{}

/// So if such a run is calm, each answered read gives, in order of start, the acknowledged writes before it, an
/// unfinished write's bytes being old or new, once for all; and each stripe that isn't disturbed is whole.
pub fn calm_runs_are_right()
    ensures { CalmRunsAreRight }
{
    each_run_is_sound();
    each_run_is_of_scenario();
    unhit_runs_are_unguessed();
}

/// A run in which no drive is lost, none is declared, and no component is told to be missing, is calm.
pub fn lossless_runs_are_calm()
    ensures { LosslessRunsAreCalm }
{
    each_run_has_a_history();
    each_run_is_of_scenario();
    lossless_is_calm();
}

/// So if moreover no bytes but messages of the parties come to a drive, each answered read gives, in order of start,
/// the acknowledged writes before it, an unfinished write's bytes being old or new, once for all.
pub fn lossless_runs_are_right()
    ensures { LosslessRunsAreRight }
{
    lossless_runs_are_calm();
    calm_runs_are_right();
}
