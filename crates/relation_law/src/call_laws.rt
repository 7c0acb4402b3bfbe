// What is proved of clients' calls on the way to the induction over the moves of a calm history.
ghost use Rattle.relation_law.specs.Runs.{ClientsKeepRuns};
ghost use Rattle.relation_law.specs.Steps.{CallsGoOn};

use crate::relation_laws::kept_goes_on;
use cause_law::files_and_answers_are_readable;
use component_law::components_agree;
use exchange_law::{
    answers_are_own, clients_agree, clients_are_counted, clients_are_in_step, one_request,
    server_is_counted,
};
use history_law::{grants_are_counted, grants_are_safe};
use world_history::one_event_more;

/// Behind each move of a calm history the machine of a file has the clients' calls as they are, and the grants that they
/// hold: the entry of each read and write, the WRITEs that are under way, and what a commit or a report waits for.
pub fn calls_go_on()
    ensures { CallsGoOn }
{
    kept_goes_on();
    one_event_more();
    clients_are_in_step();
    clients_agree();
    clients_are_counted();
    server_is_counted();
    one_request();
    files_and_answers_are_readable();
    answers_are_own();
    grants_are_safe();
    grants_are_counted();
    components_agree();
}

/// A run of the machine stays one by a move of a client, up to each line of the move whose events can happen: it stays calm.
pub fn clients_keep_runs()
    ensures { ClientsKeepRuns }
{}
