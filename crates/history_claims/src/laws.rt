// What holds of every history, for the crates above.
ghost use Rattle.history_claims.specs.Carried.{RepliesCarryBytes};
ghost use Rattle.history_claims.specs.Created.{EachFileIsCreated};
ghost use Rattle.history_claims.specs.LeftShort.{RepairsLeaveShort};
ghost use Rattle.history_claims.specs.Logged.{EndedAreLogged};
ghost use Rattle.history_claims.specs.Numbered.{MessagesAreNumbered};
ghost use Rattle.history_claims.specs.Delivered.{EachEventDelivers};
ghost use Rattle.history_claims.specs.Plain.{ReadyReadsArePlain};
ghost use Rattle.history_claims.specs.Recalled.{EachRecallIsCaused};
ghost use Rattle.history_claims.specs.Received.{MessagesAreReceived};
ghost use Rattle.history_claims.specs.Refused.{EachIsRefused};
ghost use Rattle.history_claims.specs.TimedOut.{EachIsTimedOut};
ghost use Rattle.history_claims.specs.Spread.{ComponentsStandSpread};
ghost use Rattle.history_claims.specs.Stored.{WritesAreStored};

use cause_law::ends_are_caused;
use component_law::{
    components_stand_apart, each_object_is_owned, each_step_is_apart, each_step_is_sound,
    each_step_spreads, each_step_zones, grants_are_in_order, keys_are_known, no_tag_is_ahead,
    no_tag_is_behind, nothing_due_rests, one_zone_is_borne, seen_is_sound, sizes_agree,
};
use exchange_law::{awaited_are_taken, files_have_shape};
use file_log::{plain, range_found};
use headline_law::{headline_holds, histories_are_lawful};
use history_law::{book_is_read, grants_are_safe};
use ready_law::{
    clear_commands_are_carried_out, events_stand_apart, lost_are_listed, ready_calls_end_in_ok,
    room_stays, scenes_are_read,
};
use server_rules::{conflicts_are_exact, files_are_put};
use world_history::{fronts_are_lawful, messages_are_read, one_event_more, reading_goes_on};

/// At each moment of a lawful history whose events lines can name, the components of each zoned file are spread over
/// zones: no zone has more of a group than the code brings back, each counted, present or missing, on the drive on
/// which it stands or last stood. If all lost ones were of one zone, each stripe can be read and written.
pub fn components_stand_spread()
    ensures { ComponentsStandSpread }
{
    each_step_is_sound();
    each_step_is_apart();
    each_step_spreads();
    each_step_zones();
    one_zone_is_borne();
}

/// In a whole history whose events a text may have, of each event that makes a file which isn't there: the CREATEs of
/// the event's step go to the drives of the file's components, in order and one each, as the book has the file behind
/// the step. Where the file is refused, there are none.
pub fn files_are_created()
    ensures { EachFileIsCreated }
{
    files_are_put();
    reading_goes_on();
    one_event_more();
}

/// In each lawful history the line of a message has the number of messages before it.
pub fn messages_are_numbered()
    ensures { MessagesAreNumbered }
{
    one_event_more();
}

/// In each lawful history, where a line tells that some bytes were written, a WRITE that was performed carried each of them
/// to each replica of its position that isn't out, and another something of each unit of parity in the same column; and
/// what timed out in the call was reported, and taken as a loss.
pub fn writes_are_stored()
    ensures { WritesAreStored }
{
    ends_are_caused();
}

/// In each lawful history what is delivered was sent, and its receiver is deaf to it exactly if it is a drive that has failed
/// or is down, a client that was stopped, or the server, and that is down.
pub fn messages_are_received()
    ensures { MessagesAreReceived }
{
    one_event_more();
}

/// In each lawful history an event that is over delivers just what it has to.
pub fn events_deliver()
    ensures { EachEventDelivers }
{
    one_event_more();
    events_stand_apart();
}

/// In each lawful history a component times out exactly where an event says so, or where the call of a `do` awaits it and
/// no message is left.
pub fn components_time_out()
    ensures { EachIsTimedOut }
{
    one_event_more();
    events_stand_apart();
}

/// In each lawful history a client refuses what it has to, and nothing else.
pub fn clients_refuse()
    ensures { EachIsRefused }
{
    one_event_more();
    events_stand_apart();
}

/// In each move of a history whose events lines can name, each message of the server to a client is an answer, or the
/// recall of a grant of this client. The grant is live in the file's book then, and an order to recall the file's grants
/// comes, or a new LAYOUTGET that asks for a grant which is opposed to it, and that is told to try later.
pub fn recalls_are_caused()
    ensures { EachRecallIsCaused }
{
    conflicts_are_exact();
    files_are_put();
    grants_are_safe();
    book_is_read();
}

/// If the messages of some lines are of bytes, what replies carry that the call of an answered read met are bytes.
pub fn replies_carry_bytes()
    ensures { RepliesCarryBytes }
{}

/// Right behind each note that a repair is over, in every lawful history whose events a text may have: each stripe that
/// the repair left short it counted, and a position of it has no present replica by the book.
pub fn repairs_leave_counted_short()
    ensures { RepairsLeaveShort }
{
    seen_is_sound();
}

/// In a lawful history of a scenario's text with few messages, where a line tells that a read was answered, or that some
/// bytes were written, the log of the file has an entry of this call, with its range, or its bytes.
pub fn ended_calls_are_logged()
    ensures { EndedAreLogged }
{
    histories_are_lawful();
}

/// In a lawful history of a scenario's text with few messages, each read that is ready where its event begins, if the
/// event is over and calm and each write that was started before it was acknowledged, gives the bytes that these
/// writes leave in order.
pub fn ready_reads_are_plain()
    ensures { ReadyReadsArePlain }
{
    histories_are_lawful();
    ended_calls_are_logged();
    headline_holds();
    ready_calls_end_in_ok();
    fronts_are_lawful();
    plain();
    range_found();
    messages_are_read();
    awaited_are_taken();
    files_have_shape();
    components_stand_apart();
    each_object_is_owned();
    grants_are_in_order();
    keys_are_known();
    no_tag_is_ahead();
    no_tag_is_behind();
    nothing_due_rests();
    sizes_agree();
    clear_commands_are_carried_out();
    events_stand_apart();
    lost_are_listed();
    room_stays();
    scenes_are_read();
}
