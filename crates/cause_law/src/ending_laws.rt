// What holds of every history, for the crates above.
ghost use Rattle.cause_law.specs.Reports.{ReportsAreAlwaysShort, RequestsCanBeRead};
ghost use Rattle.cause_law.specs.Rooms.{NoLaneIsWanting};
ghost use Rattle.cause_law.specs.Fresh.{GrantsAreFresh};
ghost use Rattle.cause_law.specs.Readable.{AnswersAreFit, FilesAreFit, KeptAnswersFit, ShortRequestsFit, FilesAndAnswersAreReadable, ObjectsAreEnough, NoncesAreEnough, PlacesAreEnough};
ghost use Rattle.cause_law.specs.Calls.{CallsEndSo};
ghost use Rattle.cause_law.specs.Endings.{NoCallEndsMisplaced};
ghost use Rattle.cause_law.specs.Texts.{CommandsOfTextArePlaced, NoCallOfTextEndsMisplaced};

use component_law::each_object_is_owned;
use exchange_law::{
    all_files_fit, answers_are_own, awaited_are_taken, calls_end_fair, clients_agree,
    clients_are_in_step, commands_are_placed, grants_are_later, messages_fit, no_slot_is_spent,
    refusals_were_awaited, refusals_were_judged,
};
use world_history::{fronts_are_lawful, one_event_more};

/// At each moment of any history the body of the LAYOUTRETURN whose answer a client awaits is no longer than the body
/// of a message may be.
pub fn reports_are_always_short()
    ensures { ReportsAreAlwaysShort }
{}

/// At each moment of any history the server would read what the request asks whose answer a client awaits.
pub fn requests_can_be_read()
    ensures { RequestsCanBeRead }
{}

/// No line of a lawful history of which nothing was guessed tells that a call ended since an object had no lane for
/// its client, or since a command of it was stale: where few messages were sent, each grant that clients took was
/// new to its objects, and the objects and nonces of their commands fit their places.
pub fn no_lane_is_wanting()
    ensures { NoLaneIsWanting }
{
    awaited_are_taken();
    refusals_were_awaited();
}

/// Each grant that a client takes is new to its objects, up to the end of a history with few messages in which what is
/// said between clients and the server fits its places.
pub fn grants_are_fresh()
    ensures { GrantsAreFresh }
{
    one_event_more();
    answers_are_own();
    clients_agree();
    each_object_is_owned();
    grants_are_later();
}

/// Each answer of the server in a lawful history of a scenario's text with few messages spells an envelope whose
/// numbers fit their places, and so do those of what it gives.
pub fn answers_are_fit()
    ensures { AnswersAreFit }
{
    messages_fit();
}

/// At each moment of such a history each file of the server has a usable map and components on drives that clients
/// take, and the numbers of its grants fit their places.
pub fn files_are_fit()
    ensures { FilesAreFit }
{
    all_files_fit();
}

/// And the answers that the server keeps fit their places.
pub fn kept_answers_fit()
    ensures { KeptAnswersFit }
{}

/// And so does each request whose answer a client awaits, but for the length of a report.
pub fn short_requests_fit()
    ensures { ShortRequestsFit }
{
    clients_are_in_step();
}

/// So what is said between clients and the server is read as it was said, up to the end of a lawful history of a
/// scenario's text with few messages.
pub fn files_and_answers_are_readable()
    ensures { FilesAndAnswersAreReadable }
{
    files_are_fit();
    kept_answers_fit();
    short_requests_fit();
    reports_are_always_short();
}

/// The objects of the commands that clients send and await fit their places, up to the end of a lawful history of a
/// scenario's text with few messages.
pub fn objects_are_enough()
    ensures { ObjectsAreEnough }
{
    answers_are_fit();
}

/// And so do their nonces.
pub fn nonces_are_enough()
    ensures { NoncesAreEnough }
{
    answers_are_fit();
}

/// So both do.
pub fn places_are_enough()
    ensures { PlacesAreEnough }
{
    objects_are_enough();
    nonces_are_enough();
}

/// No call of a client ends with a drive's verdict that a command has no right, is for another object, or lies out of
/// its range, where what the server sent so far fits its places.
pub fn no_call_ends_misplaced()
    ensures { NoCallEndsMisplaced }
{
    commands_are_placed();
    refusals_were_judged();
}

/// In each lawful history of a scenario's text with few messages, whatever was guessed: each message of a client to a
/// drive spells a command that is placed, and no drive gives a verdict on where it lies.
pub fn commands_of_text_are_placed()
    ensures { CommandsOfTextArePlaced }
{
    messages_fit();
    commands_are_placed();
}

/// So in such a history no call ends with such a verdict.
pub fn no_call_of_text_ends_misplaced()
    ensures { NoCallOfTextEndsMisplaced }
{
    messages_fit();
    no_call_ends_misplaced();
}

/// In such a history no call ends since its layout can't be used, and none with a status of the server, but that the
/// grant of its commit is over (RFC 5661 18.42). None is refused since its client has no sequence number left, or by
/// a drive since its command lies outside its capability. As far as nothing was guessed, none is refused by a drive
/// since the object has no lane for the client or a later nonce in it.
pub fn calls_end_so()
    ensures { CallsEndSo }
{
    fronts_are_lawful();
    calls_end_fair();
    files_and_answers_are_readable();
    no_call_of_text_ends_misplaced();
    no_lane_is_wanting();
    grants_are_fresh();
    places_are_enough();
    no_slot_is_spent();
}
