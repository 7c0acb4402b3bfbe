// What is proved on the way to the induction over the moves of a calm history.
ghost use Rattle.file_simulation.specs.Conclusion.{FilesAreShaped};
ghost use Rattle.relation_law.specs.ComponentsFollow.{ComponentsFollow};
ghost use Rattle.relation_law.specs.KeptFollows.{KeptParts};
ghost use Rattle.relation_law.specs.RequestsGoing.{RequestsFollow};

use cause_law::{
    answers_are_fit, files_and_answers_are_readable, grants_are_fresh, places_are_enough,
};
use component_law::{
    components_agree, creates_are_first, each_step_is_sound, each_step_raises_tags,
    each_step_stands, each_tag_was_sent, no_command_is_ahead, server_sent_its_run,
    server_writes_to_others,
};
use exchange_law::{
    all_files_fit, answers_are_own, clients_agree, clients_are_in_step, counters_stay_low,
    one_request, server_is_counted,
};
use history_law::{grants_are_counted, grants_are_safe, holder_is_server, unguessed_are_unforged};
use world_history::one_event_more;

/// Each file that is read off the lines of a history, also where it is cut inside a step, has a map that can be used, and
/// a component for each that the map has.
pub fn files_are_shaped()
    ensures { FilesAreShaped }
{}

/// Behind each move of a calm history the machine of a file has the clients' requests as they are: their sequence
/// numbers, the server's slots, and the outstanding request with its answer. One thing is asked: that each move keeps what
/// the machine has of the components.
pub fn requests_go_on()
    ensures { RequestsFollow }
{
    kept_goes_on();
    one_event_more();
    clients_are_in_step();
    clients_agree();
    files_and_answers_are_readable();
    answers_are_own();
    grants_are_safe();
    components_agree();
}

/// What the server keeps of a file, and how high its grants reach, is as the machine has it behind each move of a calm
/// history.
pub fn kept_goes_on()
    ensures { KeptParts }
{
    one_event_more();
    counters_stay_low();
    files_and_answers_are_readable();
    clients_are_in_step();
    clients_agree();
    grants_are_safe();
    components_agree();
}

/// Behind each move of a calm history the machine of a file has its components as they are: what is lost and missing, the
/// tags, bytes and lanes of the objects. Two things are asked: that what a rebuild makes anew stands as the machine has it,
/// and that each WRITE that the server sends begins at an offset that fits its place.
pub fn components_go_on()
    ensures { ComponentsFollow }
{
    one_event_more();
    grants_are_counted();
    one_request();
    clients_are_in_step();
    clients_agree();
    components_agree();
    grants_are_safe();
    answers_are_own();
    files_and_answers_are_readable();
    counters_stay_low();
    server_is_counted();
    all_files_fit();
    server_writes_to_others();
    each_step_is_sound();
    each_step_raises_tags();
    unguessed_are_unforged();
    grants_are_fresh();
    answers_are_fit();
    places_are_enough();
    no_command_is_ahead();
    holder_is_server();
    each_tag_was_sent();
    each_step_stands();
    creates_are_first();
    server_sent_its_run();
}
