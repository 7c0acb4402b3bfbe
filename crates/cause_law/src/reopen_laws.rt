// What a server that restarts promises, for the crates above.
ghost use Rattle.cause_law.specs.Numbers.{EachGrantIsNamedOnce, EachObjectIsOwn};
ghost use Rattle.cause_law.specs.Reopened.{EachCrashBars};

use crate::cause_laws::messages_are_caused;
use component_law::{
    each_object_is_owned, each_step_raises_tags, grants_are_in_order, seen_is_sound,
};
use exchange_law::counters_stay_low;
use history_law::{book_is_read, grants_are_safe, parties_run, server_moves, step_is_read};
use world_history::{one_event_more, reading_goes_on};

/// At each moment of a history of a scenario's text with few messages, of each file that had a live grant when the server
/// crashed, or a fence that no repair had followed: until a note says that a fence of it is over, each message of the server
/// to a client repeats what the client was sent before the crash, or gives no layout of the file. Once the server was
/// opened again, no grant of the file is live. A file with the greatest tag is refused instead, until the server crashes
/// once more.
pub fn crashes_bar()
    ensures { EachCrashBars }
{
    messages_are_caused();
    each_step_raises_tags();
    seen_is_sound();
    grants_are_safe();
    book_is_read();
    counters_stay_low();
    one_event_more();
}

/// In a whole history whose events a text may have, no two answers to new requests give a layout of one grant, whatever
/// crashes come between.
pub fn grants_are_named_once()
    ensures { EachGrantIsNamedOnce }
{
    grants_are_in_order();
    book_is_read();
    step_is_read();
    server_moves();
    one_event_more();
    reading_goes_on();
}

/// At each moment of such a history, no component has the object number of another one of any file, at this moment or at
/// one before: those that were rebuilt, and those that were lost, have their own.
pub fn objects_are_own()
    ensures { EachObjectIsOwn }
{
    each_object_is_owned();
    parties_run();
    seen_is_sound();
    book_is_read();
    step_is_read();
    server_moves();
    one_event_more();
    reading_goes_on();
}
