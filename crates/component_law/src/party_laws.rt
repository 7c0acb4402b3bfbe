// What holds of every history, for the crates above.
ghost use Rattle.component_law.specs.Keys.{KeysAreKnown};
ghost use Rattle.component_law.specs.Offline.{OfflineHaveFailed};
ghost use Rattle.component_law.specs.Rests.{NothingDueRests};
ghost use Rattle.component_law.specs.Sizes.{SizesAgree};
ghost use Rattle.component_law.specs.Listed.{ComponentsAgree};
ghost use Rattle.component_law.specs.Order.{EachStepOrders, GrantsAreInOrder, GrantsReadInOrder};

use crate::file_laws::server_writes_to_others;
use exchange_law::{answers_are_own, clients_agree};
use history_law::{grants_are_safe, parties_run};
use server_rules::slots_are_kept;
use world_history::one_event_more;

/// At each moment of any history each drive has one key, the one of the event that made it, and the server has that
/// key for it: a command that the server seals for the drive has the check value that the drive expects.
pub fn keys_are_known()
    ensures { KeysAreKnown }
{
    one_event_more();
}

/// At each moment of a history a drive that the server has offline has failed.
pub fn offline_have_failed()
    ensures { OfflineHaveFailed }
{
    one_event_more();
    server_writes_to_others();
}

/// In each world that is reached, a client without a call that awaits no answer has nothing to return, as long as a
/// number for a request is left.
pub fn nothing_due_rests()
    ensures { NothingDueRests }
{}

/// At each moment of a history in which what is said between clients and the server fits its places: a client that
/// holds a grant on a file on which the server has one of it knows the file's size, unless its own LAYOUTCOMMIT is
/// carried out, and the answer, which tells the size, isn't taken yet.
pub fn sizes_agree()
    ensures { SizesAgree }
{
    slots_are_kept();
    one_event_more();
    grants_are_safe();
    answers_are_own();
    clients_agree();
}

/// At each moment of a history in which what is said between clients and the server fits its places: where a client
/// holds a file and the server has a grant of it there, the client lists each component with the drive, the object, the
/// capability and the key that the server has for it now, and lists none without a credential but those that are missing.
/// One that is missing now, and was listed with a credential, stands on a drive that the server has offline.
pub fn components_agree()
    ensures { ComponentsAgree }
{
    slots_are_kept();
    one_event_more();
    parties_run();
    grants_are_safe();
    answers_are_own();
    clients_agree();
}

/// Each step of the server keeps that the numbers of each file's live grants rise, and are below the next one that it
/// gives.
pub fn each_step_orders()
    ensures { EachStepOrders }
{}

/// So it is at each moment of a history.
pub fn grants_are_in_order()
    ensures { GrantsAreInOrder }
{
    parties_run();
}

/// And behind any lines, of the live grants of each file, as they are read off them.
pub fn grants_read_in_order()
    ensures { GrantsReadInOrder }
{}
