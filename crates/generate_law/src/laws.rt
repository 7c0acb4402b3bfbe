// What holds of the scenario that is made from a seed, for the crates above.
ghost use Rattle.generate_law.specs.Calm.{ScenarioIsCalm};
ghost use Rattle.generate_law.specs.Counts.{CallsAreOfEvents, ScenarioHasCounts};
ghost use Rattle.generate_law.specs.Few.{EachCallTakesFew, FirstCallTakesFew};
ghost use Rattle.generate_law.specs.Going.{CallsKeepRest};
ghost use Rattle.generate_law.specs.Kept.{FewAreKept, NoneFillsUp, ScenarioGoesWell, ScenarioIsFew};
ghost use Rattle.generate_law.specs.Opening.{EachCallRests, OpeningRests, ScenarioCallsEndInOk};
ghost use Rattle.generate_law.specs.Plays.{NoneIsRefused};
ghost use Rattle.generate_law.specs.Quiet.{ScenarioIsUnguessed, UninjectedIsUnguessed};
ghost use Rattle.generate_law.specs.Rests.{EachCallIsReady, FirstCallIsReady, FirstRestBegins, RestsGoOn};
ghost use Rattle.generate_law.specs.Sums.{SummaryIsPlain};

use cause_law::{
    answers_are_fit, clients_are_read, down_is_read, files_and_answers_are_readable,
    grants_are_fresh, places_are_enough,
};
use component_law::{
    components_agree, components_stand_apart, each_object_is_owned, grants_are_in_order,
    keys_are_known, no_tag_is_ahead, no_tag_is_behind, nothing_due_rests, offline_have_failed,
    server_sent_its_run, sizes_agree,
};
use exchange_law::{
    all_files_fit, awaited_are_taken, clients_agree, clients_are_counted, clients_are_in_step,
    counters_stay_low, files_have_shape, server_is_counted,
};
use headline_law::headline_holds;
use history_claims::ended_calls_are_logged;
use history_law::{book_is_read, drives_are_read, grants_are_safe, unguessed_are_unforged};
use lossless_law::lossless_is_calm;
use ready_law::{
    clear_commands_are_carried_out, events_stand_apart, lost_are_listed, ready_calls_end_in_ok,
    room_stays, scenes_are_read,
};
use world_history::{messages_are_read, one_event_more};

/// Behind each front of the scenario's events the next one isn't refused: the parties that it names are there, those that it
/// makes are new, and the server is up.
pub fn none_is_refused()
    ensures { NoneIsRefused }
{
    drives_are_read();
    clients_are_read();
    down_is_read();
}

/// A history counts just the calls of its events, and of these the writes and the reads.
pub fn calls_are_of_events()
    ensures { CallsAreOfEvents }
{}

/// So the scenario is counted as one call more than are asked for: a write, and then each second one is a write.
pub fn scenario_has_counts()
    ensures { ScenarioHasCounts }
{}

/// A history without an injected message is unguessed.
pub fn uninjected_is_unguessed()
    ensures { UninjectedIsUnguessed }
{}

/// So nothing is guessed in the scenario.
pub fn scenario_is_unguessed()
    ensures { ScenarioIsUnguessed }
{}

/// Where the parties rest with the file, each call of the scenario is ready; and so is its first one, where the file is empty.
pub fn calls_are_ready()
    ensures calls { EachCallIsReady }
    ensures first { FirstCallIsReady }
{
    grants_are_safe();
}

/// What a ready call leaves, where no component is lost, is such a rest again, also behind the first call.
pub fn rests_go_on()
    ensures calls { RestsGoOn }
    ensures first { FirstRestBegins }
{}

/// So from a rest on each further call of the scenario leaves the parties at rest, however many there are.
pub fn calls_keep_rest()
    ensures { CallsKeepRest }
{
    one_event_more();
    ready_calls_end_in_ok();
    grants_are_safe();
    scenes_are_read();
}

/// After the drives, the clients and the file of the scenario the parties rest: each component's CREATE was performed and
/// answered, so the file is made, and none of its components is missing.
pub fn opening_rests()
    ensures { OpeningRests }
{}

/// So the parties rest after each call of the scenario, if there are as few messages as in each history within the limit of
/// kept bytes.
pub fn each_call_rests()
    ensures { EachCallRests }
{
    one_event_more();
    ready_calls_end_in_ok();
    grants_are_safe();
    scenes_are_read();
}

/// Then each call of the scenario whose event is over ended in ok.
pub fn scenario_calls_end_in_ok()
    ensures { ScenarioCallsEndInOk }
{
    each_call_rests();
    ready_calls_end_in_ok();
    grants_are_safe();
    scenes_are_read();
    events_stand_apart();
}

/// No drive of the scenario fails or is declared. So where no line tells that a component is without space or reported,
/// it is calm.
pub fn scenario_is_calm()
    ensures { ScenarioIsCalm }
{
    lossless_is_calm();
}

/// Where the parties rest before it, a call of the scenario takes at most 208 messages, and so does its first one.
pub fn calls_take_few()
    ensures calls { EachCallTakesFew }
    ensures first { FirstCallTakesFew }
{
    ready_calls_end_in_ok();
    grants_are_safe();
    grants_are_in_order();
    scenes_are_read();
}

/// If its history is calm and has few messages, its whole summary is that of the same calls on one plain list of bytes,
/// and each of its calls ended in ok.
pub fn summary_is_plain()
    ensures { SummaryIsPlain }
{
    scenario_calls_end_in_ok();
    ended_calls_are_logged();
    headline_holds();
}

/// In the scenario of up to 1,000 calls each message of a call is short, and there are few. So few bytes are kept, no event
/// stops at the limit of kept bytes, the history is calm, and each call ended in ok.
pub fn scenario_goes_well()
    ensures kept { FewAreKept }
    ensures few { ScenarioIsFew }
    ensures full { NoneFillsUp }
    ensures well { ScenarioGoesWell }
{
    each_call_rests();
    scenario_is_calm();
    scenario_is_unguessed();
    scenario_calls_end_in_ok();
    one_event_more();
    grants_are_safe();
    grants_are_in_order();
    nothing_due_rests();
    clients_are_in_step();
    counters_stay_low();
    server_is_counted();
    clients_are_counted();
    all_files_fit();
    files_have_shape();
    clients_agree();
    components_agree();
    sizes_agree();
    keys_are_known();
    answers_are_fit();
    awaited_are_taken();
    grants_are_fresh();
    places_are_enough();
    no_tag_is_ahead();
    no_tag_is_behind();
    unguessed_are_unforged();
    book_is_read();
    messages_are_read();
    components_stand_apart();
    files_and_answers_are_readable();
    each_object_is_owned();
    server_sent_its_run();
    clear_commands_are_carried_out();
    room_stays();
    lost_are_listed();
    offline_have_failed();
    events_stand_apart();
    scenes_are_read();
}
