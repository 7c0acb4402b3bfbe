// The laws of histories and of the machine of a file that the headline is proved from, and two more of every history.
ghost use Rattle.file_simulation.specs.Claim.{EachRepairLeavesNone};
ghost use Rattle.file_simulation.specs.Conclusion.{NoneIsLogged};
ghost use Rattle.headline_law.specs.Histories.{HistoriesAreLawful, MachineIsLawful};
ghost use Rattle.headline_law.specs.Used.{EachObjectIsUsed};

use cause_law::{
    answers_are_fit, files_and_answers_are_readable, grants_are_fresh, places_are_enough,
};
use component_law::{
    components_agree, creates_are_first, each_step_is_sound, each_step_raises_tags,
    each_step_stands, each_step_tells, each_step_tells_tags, each_tag_was_sent, losses_are_told,
    no_command_is_ahead, offline_have_failed, pending_is_read, seen_is_sound, server_sent_its_run,
    server_writes_to_others,
};
use exchange_law::{
    all_files_fit, answers_are_own, clients_agree, clients_are_counted, clients_are_in_step,
    counters_stay_low, lanes_are_own, one_request, server_is_counted,
};
use fence_law::{audited, judged, whole};
use history_law::{
    book_is_read, grants_are_counted, grants_are_safe, holder_is_server, step_is_read,
    unguessed_are_unforged,
};
use name_law::{
    calls_of_text_are_pending, clients_send_to_named, each_server_step_is_named, outcomes_are_told,
    server_is_named, server_leaves_nothing_out, texts_are_named,
};
use plan_law::{columns_have_stripes, layouts_are_codes};
use relation_law::{
    calls_go_on, clients_keep_runs, components_go_on, drives_grow, each_send_is_awaited,
    jobs_ask_their_own, kept_goes_on, owned_follows, quiet_follows, requests_go_on,
};
use server_rules::each_step_is_safe;
use world_history::{one_event_more, reading_goes_on};

/// Every history is so: what is read off its lines goes on, the server's steps and numbers are safe and counted,
/// clients ask one request at a time and agree with the server, and drives only grow.
pub fn histories_are_lawful()
    ensures { HistoriesAreLawful }
{
    one_event_more();
    reading_goes_on();
    book_is_read();
    step_is_read();
    seen_is_sound();
    pending_is_read();
    losses_are_told();
    texts_are_named();
    calls_of_text_are_pending();
    outcomes_are_told();
    clients_send_to_named();
    server_leaves_nothing_out();
    server_is_named();
    each_server_step_is_named();
    each_step_is_safe();
    each_step_is_sound();
    each_step_raises_tags();
    each_step_tells();
    each_step_tells_tags();
    each_step_stands();
    grants_are_counted();
    grants_are_safe();
    grants_are_fresh();
    server_is_counted();
    counters_stay_low();
    all_files_fit();
    server_writes_to_others();
    server_sent_its_run();
    no_command_is_ahead();
    creates_are_first();
    offline_have_failed();
    jobs_ask_their_own();
    each_send_is_awaited();
    one_request();
    clients_are_counted();
    clients_are_in_step();
    clients_agree();
    components_agree();
    answers_are_own();
    answers_are_fit();
    files_and_answers_are_readable();
    places_are_enough();
    drives_grow();
    each_tag_was_sent();
    holder_is_server();
    lanes_are_own();
    unguessed_are_unforged();
}

/// The machine of a file is so: its layouts are codes, its log is accepted and its undisturbed columns are whole; and
/// these parts of its relation to the world go on in each move.
pub fn machine_is_lawful()
    ensures { MachineIsLawful }
{
    layouts_are_codes();
    columns_have_stripes();
    judged();
    whole();
    audited();
    components_go_on();
    kept_goes_on();
    requests_go_on();
    calls_go_on();
    clients_keep_runs();
    owned_follows();
    quiet_follows();
}

/// At each moment of a calm and unguessed history each object number in a command of a client or of the server, and
/// each that a drive has, is below the number that the server gives next.
pub fn each_object_is_used()
    ensures { EachObjectIsUsed }
{
    histories_are_lawful();
}

/// A file that there isn't has no entry in the log of a history of a scenario's text with few messages.
pub fn none_is_logged()
    ensures { NoneIsLogged }
{
    histories_are_lawful();
}

/// Right behind each note that a repair is over, in every lawful history whose events a text may have: the note
/// stands for a repair that counted the stripes of the grants that fences ended by the book, so many, and left so many
/// short; and if it left none, no stripe that it counted is disturbed there.
pub fn repairs_leave_none()
    ensures { EachRepairLeavesNone }
{
    histories_are_lawful();
}
