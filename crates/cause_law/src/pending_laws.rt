// Why a call is left pending, for the crates above.
ghost use Rattle.cause_law.specs.Down.{DownIsRead};
ghost use Rattle.cause_law.specs.Queue.{QueueIsDue};
ghost use Rattle.cause_law.specs.Unanswered.{PendingCallsAreUnanswered};

use crate::ending_laws::{files_and_answers_are_readable, requests_can_be_read};
use crate::outcome_laws::pending_calls_wait;
use exchange_law::{clients_are_in_step, counters_stay_low, one_request};
use history_law::grants_are_safe;
use world_history::one_event_more;

/// The next message that is due is the head of the queue of those that are pending from a number on. A delivery takes it,
/// any other action of a call leaves all, and what is sent comes behind.
pub fn queue_is_due()
    ensures { QueueIsDue }
{}

/// At each moment of a history the server is down exactly if the lines say so: it crashed, and wasn't opened since.
pub fn down_is_read()
    ensures { DownIsRead }
{
    one_event_more();
}

/// In a lawful history of a scenario's text with few messages a line tells that a call is left pending only in a `do` of its
/// client, and only if the request that the client waits for was outstanding already when the event began, or the server
/// was down then.
pub fn pending_calls_are_unanswered()
    ensures { PendingCallsAreUnanswered }
{
    one_request();
    clients_are_in_step();
    files_and_answers_are_readable();
    requests_can_be_read();
    counters_stay_low();
    grants_are_safe();
    one_event_more();
    pending_calls_wait();
}
