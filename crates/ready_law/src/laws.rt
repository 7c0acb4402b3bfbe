// Ready calls end in ok, and what that stands on.
ghost use Rattle.ready_law.specs.Answered.{ReadyIsAnswered};
ghost use Rattle.ready_law.specs.Clear.{ClearCommandsAreCarriedOut, RoomStays};
ghost use Rattle.ready_law.specs.Events.{EventsStandApart};
ghost use Rattle.ready_law.specs.Enough.{EnoughIsLeft, LostAreListed, NoneIsLacked};
ghost use Rattle.ready_law.specs.Examples.{ExamplesAreMet};
ghost use Rattle.ready_law.specs.Rested.{ReadyCallsLeaveRest};
ghost use Rattle.ready_law.specs.Worlds.{ScenesAreRead};
ghost use Rattle.ready_law.specs.Losses.{BorneIsEnough, LossesAreBorne};

use cause_law::{
    answers_are_fit, clients_are_read, down_is_read, files_and_answers_are_readable,
    grants_are_fresh, places_are_enough,
};
use component_law::{
    components_agree, components_stand_apart, each_object_is_owned, grants_are_in_order,
    keys_are_known, no_tag_is_ahead, no_tag_is_behind, nothing_due_rests, offline_have_failed,
    server_sent_its_run, sizes_agree,
};
use exchange_law::{
    all_files_fit, awaited_are_taken, clients_agree, clients_are_counted, clients_are_in_step,
    counters_stay_low, files_have_shape, server_is_counted,
};
use history_law::{book_is_read, drives_are_read, grants_are_safe, unguessed_are_unforged};
use world_history::{messages_are_read, one_event_more};

/// A READ or a WRITE to which no row of a drive's table of verdicts applies, but perhaps that of a repeat, is performed
/// or was performed before, and the reply says so.
pub fn clear_commands_are_carried_out()
    ensures { ClearCommandsAreCarriedOut }
{}

/// If a drive has room for an object to become so long that a WRITE ends inside it, there is such room behind the WRITE
/// too, whatever the verdict on it.
pub fn room_stays()
    ensures { RoomStays }
{}

/// Each event of a lawful history that is over stands apart: a world stands for the lines before it, and from there it
/// is carried to its end.
pub fn events_stand_apart()
    ensures { EventsStandApart }
{
    one_event_more();
}

/// Where only lost components are out, and no stripe has more positions lost than its parity brings back, a call can read
/// and write each.
pub fn enough_is_left()
    ensures { EnoughIsLeft }
{}

/// Examples: a call is ready where it asks a component that is there, where it can report a loss, where nothing is lost,
/// and where a grant that conflicts is given back. It isn't ready where it asks a lost component, where it has a loss to
/// report beside another client's grant, nor where any other thing fails that a ready call needs.
pub fn examples_are_met()
    ensures { ExamplesAreMet }
{}

/// A component that is missing, or whose drive has failed, is among those that are lost.
pub fn lost_are_listed()
    ensures { LostAreListed }
{}

/// Where no stripe of a range has more positions lost than its parity brings back, the server finds that a writer there
/// lacks no component.
pub fn none_is_lacked()
    ensures { NoneIsLacked }
{}

/// The parties that are read off a history are those of each world that stands for it: a call is ready by the lines
/// exactly if it is by the world.
pub fn scenes_are_read()
    ensures { ScenesAreRead }
{
    book_is_read();
    drives_are_read();
    clients_are_read();
    down_is_read();
}

/// At each moment of a history at which a file's components stand apart: if none of them is missing but where its drive
/// has failed, and fewer of their drives have failed than one position more than the parity has replicas, no stripe has
/// more positions lost than its parity brings back.
pub fn losses_are_borne()
    ensures { LossesAreBorne }
{}

/// Where losses are borne, no call on the file is kept from being ready by them, as far as a stripe may be short.
pub fn borne_is_enough()
    ensures { BorneIsEnough }
{}

/// In a lawful history of a scenario's text with few messages, each `do` whose call is ready where its event begins, and
/// whose event is over, tells once how the call ended, in ok, and within the call's bound of messages. Where no component of
/// its file is lost, the call leaves its client idle, which holds on the file what the server has of it there, and so it leaves
/// each other client that was so before.
pub fn ready_calls_end_in_ok()
    ensures ok { ReadyIsAnswered }
    ensures rest { ReadyCallsLeaveRest }
{
    one_event_more();
    grants_are_safe();
    grants_are_in_order();
    nothing_due_rests();
    clients_are_in_step();
    counters_stay_low();
    server_is_counted();
    clients_are_counted();
    all_files_fit();
    files_have_shape();
    clients_agree();
    components_agree();
    sizes_agree();
    keys_are_known();
    answers_are_fit();
    awaited_are_taken();
    grants_are_fresh();
    places_are_enough();
    no_tag_is_ahead();
    no_tag_is_behind();
    unguessed_are_unforged();
    book_is_read();
    messages_are_read();
    components_stand_apart();
    files_and_answers_are_readable();
    each_object_is_owned();
    server_sent_its_run();
    clear_commands_are_carried_out();
    room_stays();
    lost_are_listed();
    offline_have_failed();
    events_stand_apart();
    scenes_are_read();
}
