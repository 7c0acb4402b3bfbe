// How calls end, for the crates above.
ghost use Rattle.cause_law.specs.Caused.{OutcomesAreCaused};
ghost use Rattle.cause_law.specs.Ended.{ClientsAreRead, EndsAreCaused};
ghost use Rattle.cause_law.specs.Pending.{EachCallIsLeftSo};
ghost use Rattle.cause_law.specs.Read.{AnswersAreOfReplies};
ghost use Rattle.cause_law.specs.ReadBytes.{EachByteHasItsCause};
ghost use Rattle.cause_law.specs.Waiting.{PendingCallsWait};

use client_rules::each_rest_awaits_something;
use exchange_law::clients_agree;

/// How a call ends follows from what it met, whatever came to its client since that was new: from the answers and replies
/// that it took, and the timeouts of what it awaited.
pub fn outcomes_are_caused()
    ensures { OutcomesAreCaused }
{}

/// The clients that are read off the lines of a history are those of each world that stands for it.
pub fn clients_are_read()
    ensures { ClientsAreRead }
{}

/// Each line of a lawful history that tells how a call ended tells so by all that the call met in the lines before.
pub fn ends_are_caused()
    ensures { EndsAreCaused }
{}

/// Each line of a lawful history that tells that a read was answered gives bytes that follow from the performed READs whose
/// replies the call took in the lines before, of which there is at least one.
pub fn answers_are_of_replies()
    ensures { AnswersAreOfReplies }
{}

/// Each byte of a read that a line tells as answered is one that a reply gave for its place, or, if its position is out, the
/// data byte of the one codeword that has what replies gave of its column.
pub fn each_byte_has_its_cause()
    ensures { EachByteHasItsCause }
{}

/// In each move of a history a line tells that a call of a client is left pending exactly if the event is a `do` of this
/// client, who took the call, the move is the event's last one, and a call of the client is pending behind it. It
/// awaits nothing of a drive.
pub fn calls_are_left()
    ensures { EachCallIsLeftSo }
{}

/// At each moment up to which what clients and the server say fits its places, a client whose pending call awaits nothing of
/// a drive waits for the answer to a request.
pub fn pending_calls_wait()
    ensures { PendingCallsWait }
{
    each_rest_awaits_something();
    clients_agree();
}
