// What holds of every history, for the crates above.
ghost use Rattle.exchange_law.specs.ClientAnswers.{ReadsAreRight};
ghost use Rattle.exchange_law.specs.ClientNonces.{NoncesDiffer};
ghost use Rattle.exchange_law.specs.Requests.{OneRequest};
ghost use Rattle.exchange_law.specs.Doing.{MovesAreSteps};
ghost use Rattle.exchange_law.specs.InStep.{ClientsAreInStep};
ghost use Rattle.exchange_law.specs.Taking.{AnswersAreOwn};
ghost use Rattle.exchange_law.specs.Asked.{PlansStayInside};
ghost use Rattle.exchange_law.specs.Placed.{PlacedAreNeverMisplaced};
ghost use Rattle.exchange_law.specs.Histories.{CommandsArePlaced, HeldGrantsAreGiven};
ghost use Rattle.exchange_law.specs.Counters.{ClientsAreCounted, CountersStayLow, ServerIsCounted};
ghost use Rattle.exchange_law.specs.Exact.{CommandsAreIssuedExactly, UnforgedAreIssuedExactly};
ghost use Rattle.exchange_law.specs.Files.{AllFilesFit};
ghost use Rattle.exchange_law.specs.Fitting.{MessagesFit};
ghost use Rattle.exchange_law.specs.Refused.{NoSlotIsSpent};
ghost use Rattle.exchange_law.specs.Text.{EachMessageIsKept, WithinTheLimitAreFew};
ghost use Rattle.exchange_law.specs.Ends.{CallsEndFair};
ghost use Rattle.exchange_law.specs.Meeting.{ClientsAgree};
ghost use Rattle.exchange_law.specs.Shapes.{FilesHaveShape};
ghost use Rattle.exchange_law.specs.HeldTaken.{GivenIsTaken};
ghost use Rattle.exchange_law.specs.Judged.{RefusalsWereJudged};
ghost use Rattle.exchange_law.specs.Awaited.{RefusalsWereAwaited};
ghost use Rattle.exchange_law.specs.RefusalNonces.{CommandsDiffer, GrantsAreLater};
ghost use Rattle.exchange_law.specs.Lanes.{LanesAreOwn};
ghost use Rattle.exchange_law.specs.FairLanes.{LanesAreFair};
ghost use Rattle.exchange_law.specs.Latest.{AwaitedAreLatest};
ghost use Rattle.exchange_law.specs.LaneTaken.{AwaitedAreTaken};
ghost use Rattle.exchange_law.specs.Pending.{PendingIfTold};

use history_law::{
    commands_are_issued, grants_are_counted, grants_are_safe, parties_run, unforged_are_issued,
};
use server_rules::slots_are_kept;
use world_history::{fronts_are_lawful, one_event_more};

/// The nonces of a grant's commands rise in the order in which the commands are sent, and no two commands of a client
/// have one nonce, whatever came to it since it was new: as long as no two answers give one grant's number, and fewer
/// than 4,294,967,296 commands were sent in all. What is sent once more isn't counted again.
pub fn nonces_differ()
    ensures { NoncesDiffer }
{}

/// A client has at most one request outstanding, in every state and at everything that comes: a request is sent only
/// where none is outstanding, or its answer has just come, and one at a time, with the client's next number.
pub fn one_request()
    ensures { OneRequest }
{}

/// Whatever came to a client since it was new, an answered read has the bytes of every file that agrees with the
/// performed READs whose replies its call took: each is a byte of such a reply, or the one byte that fits them.
pub fn reads_are_right()
    ensures { ReadsAreRight }
{}

/// Each move is a step of one party: of the server, a client or a drive, on what it read in a message that was sent,
/// or there is a new client.
pub fn moves_are_steps()
    ensures { MovesAreSteps }
{}

/// At each moment of a history, whatever was guessed in it: each client's requests have its number and numbers up to
/// its last one, and all messages of its outstanding one are alike. The server's last answer to it is to its last
/// request, or to the one before the outstanding one. Where it is to the outstanding one it was made when that first
/// came.
pub fn clients_are_in_step()
    ensures { ClientsAreInStep }
{
    slots_are_kept();
    one_event_more();
}

/// An answer that a client takes is the one that the server made of the client's outstanding request, when that
/// request first came: never one to another request of the same number, and never one that says that it is
/// misordered.
pub fn answers_are_own()
    ensures { AnswersAreOwn }
{
    slots_are_kept();
    one_event_more();
}

/// What a read, a gather, a scatter or a probe asks of a component under a grant that the server gave lies in the
/// range of the component's capability, whichever components are missing or timed out.
pub fn plans_stay_inside()
    ensures { PlansStayInside }
{}

/// A command for its capability's own object, which has the right and lies in its range, is given no verdict on where
/// it lies, whatever the state of the drive and the time.
pub fn placed_are_never_misplaced()
    ensures { PlacedAreNeverMisplaced }
{}

/// At each line of a lawful history, where what the server sent so far fits its places: each message of a client to a
/// drive spells a command that is placed, and no drive gives a verdict on where it lies. Guesses don't matter.
pub fn commands_are_placed()
    ensures { CommandsArePlaced }
{}

/// Each grant that a client then holds is one that the server gave it, with the file's map and with the capabilities
/// of the components.
pub fn held_grants_are_given()
    ensures { HeldGrantsAreGiven }
{}

/// At each moment no more messages were sent than bytes are kept: each message has a byte.
pub fn each_message_is_kept()
    ensures { EachMessageIsKept }
{}

/// So a history within the limit of kept bytes has no more messages than this limit.
pub fn within_the_limit_are_few()
    ensures { WithinTheLimitAreFew }
{}

/// At each moment a client has used no more sequence numbers than messages were sent, and sent no more commands
/// under a grant.
pub fn clients_are_counted()
    ensures { ClientsAreCounted }
{}

/// No line of a history with few messages says that a call is refused since its client has no sequence number left.
pub fn no_slot_is_spent()
    ensures { NoSlotIsSpent }
{}

/// At each moment of a history of a scenario's text the server has used no more grant numbers, nonces, counts of
/// recalls and object numbers than messages were sent.
pub fn server_is_counted()
    ensures { ServerIsCounted }
{
    grants_are_counted();
}

/// So the server's counters have room at each moment with few messages: it takes what comes, and where it is opened it
/// opens all of its files.
pub fn counters_stay_low()
    ensures { CountersStayLow }
{
    server_is_counted();
}

/// At each moment of a history of a scenario's text the numbers of each file fit their places.
pub fn all_files_fit()
    ensures { AllFilesFit }
{}

/// Where few messages were sent, each of the server to a client spells an envelope whose numbers fit their places, and
/// so do those of the layout and the capabilities of what it gives.
pub fn messages_fit()
    ensures { MessagesFit }
{}

/// So what a drive performs of a client is for a component under a grant that the server gave this client.
pub fn commands_are_issued_exactly()
    ensures { CommandsAreIssuedExactly }
{
    commands_are_issued();
    fronts_are_lawful();
    messages_fit();
}

/// And what a drive performs of injected bytes, where nothing that was injected so far is forged, is the server's or
/// is for a component under a grant that the server gave a client.
pub fn unforged_are_issued_exactly()
    ensures { UnforgedAreIssuedExactly }
{
    unforged_are_issued();
    fronts_are_lawful();
    messages_fit();
}

/// Where the server tells a grant for the LAYOUTGET of a call that passes no limit, the client takes from the answer
/// just that grant, with the file's size and map and the server's credentials, and it covers the call.
pub fn given_is_taken()
    ensures { GivenIsTaken }
{}

/// At each moment of a history, whatever was guessed in it, where what is said between clients and the server fits its
/// places: what a client holds on a file is the grant that the server has of it there, if any. A pending call holds
/// what its phase needs, and the answer that the server keeps for its request is one that it can go on with.
pub fn clients_agree()
    ensures { ClientsAgree }
{
    slots_are_kept();
    one_event_more();
    grants_are_safe();
    answers_are_own();
    files_have_shape();
}

/// In such a history no call ends since its layout can't be used, and none with a status of the server, but that the
/// grant of its commit is over.
pub fn calls_end_fair()
    ensures { CallsEndFair }
{
    slots_are_kept();
    one_event_more();
    grants_are_safe();
    answers_are_own();
    files_have_shape();
}

/// At each moment of a history, whatever its events name, each file has a component for each that its map has.
pub fn files_have_shape()
    ensures { FilesHaveShape }
{
    parties_run();
}

/// In each lawful history, whatever its events name: where a line tells that a client's call was refused by a drive,
/// at an earlier line a message of this client was delivered to the drive, which judged it so.
pub fn refusals_were_judged()
    ensures { RefusalsWereJudged }
{
    one_event_more();
}

/// That message spelled a command that the client's call awaited at that moment, as long as few messages were sent.
pub fn refusals_were_awaited()
    ensures { RefusalsWereAwaited }
{
    clients_are_in_step();
    grants_are_counted();
    one_event_more();
    one_request();
}

/// As long as few messages were sent, no two commands that a client sent have one nonce: what has the same nonce is
/// the same message, sent once more perhaps.
pub fn commands_differ()
    ensures { CommandsDiffer }
{
    clients_are_in_step();
    grants_are_counted();
    one_event_more();
    one_request();
}

/// A grant that a client takes is later than each that it holds, and than each under which it sent a command: so the
/// nonces of its commands are later, too.
pub fn grants_are_later()
    ensures { GrantsAreLater }
{
    clients_are_in_step();
    grants_are_counted();
    one_event_more();
    one_request();
}

/// In a lawful history of which nothing was guessed each lane of an object is the server's or a client's, under its
/// own holder, and has the nonce of a command that it sent to the drive for that object. No holder has two, so there
/// are at most 17.
pub fn lanes_are_own()
    ensures { LanesAreOwn }
{}

/// In a lawful history in which nothing is forged each lane of an object is the server's, of a command that it sent
/// to the drive, or has a client's number, of a command that this client sent there or that carries a capability
/// that the server gave this client. No two have one holder, so there are no more than one for each client and the
/// server.
pub fn lanes_are_fair()
    ensures { LanesAreFair }
{}

/// At each moment each WRITE that a client awaits has the greatest nonce of the WRITEs that it sent to that object, as
/// far as each grant that clients took was new to its objects.
pub fn awaited_are_latest()
    ensures { AwaitedAreLatest }
{
    one_event_more();
}

/// So no drive finds a client's awaited command stale, or an object without a lane for it, at any moment of a
/// history of which nothing was guessed, where moreover the objects and nonces of clients' commands fit their
/// places.
pub fn awaited_are_taken()
    ensures { AwaitedAreTaken }
{
    one_event_more();
    lanes_are_own();
    awaited_are_latest();
}

/// If a line can tell each outcome of a call, the calls that are pending by the lines of a history are at each moment
/// those of the world's clients.
pub fn calls_are_pending()
    ensures { PendingIfTold }
{
    one_event_more();
}
