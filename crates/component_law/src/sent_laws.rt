// What holds of every history, for the crates above.
ghost use Rattle.component_law.specs.Objects.{EachObjectIsOwned};
ghost use Rattle.component_law.specs.Tagged.{NoCommandIsAhead};
ghost use Rattle.component_law.specs.Within.{PerformedStayWithin, TagsStayWithin};
ghost use Rattle.component_law.specs.First.{CreatesAreFirst};
ghost use Rattle.component_law.specs.Standing.{EachStepStands};
ghost use Rattle.component_law.specs.Sent.{ServerSentItsRun};

use crate::file_laws::{each_step_is_sound, each_step_raises_tags};
use world_history::one_event_more;

/// Whatever comes to a server, each object number that it gives a component is one file's for ever: no component of
/// another file has it, at whatever moment, and no other component of the same file has it at the same one.
pub fn each_object_is_owned()
    ensures { EachObjectIsOwned }
{}

/// Whatever comes to a server, each command that it sent to a drive so far goes to an object of one file, and its
/// capability has that file's tag or an earlier one. A SET TAG has an earlier one, or the file's fence is open.
pub fn no_command_is_ahead()
    ensures { NoCommandIsAhead }
{
    each_step_is_sound();
    each_step_raises_tags();
}

/// Where a drive performs a command, the tag of its object isn't past the file's behind it, if it wasn't before, as
/// long as the command isn't past the file or gives no tag: while the file's fence is open, the tag may be the next
/// one. No other object changes.
pub fn performed_stay_within()
    ensures { PerformedStayWithin }
{}

/// From any moment of a server's run on, a file stays there, and no command that wasn't past it comes to be past it,
/// nor does the tag of an object.
pub fn tags_stay_within()
    ensures { TagsStayWithin }
{
    each_step_is_sound();
    each_step_raises_tags();
}

/// Each step keeps that each component of a file that isn't missing, and what a rebuild makes anew, has an object with
/// the file's tag or a later one, or that its CREATE is awaited under this tag; and while the server is down, that this
/// is so of each file that is ready, and that no other has a grant or a fence. Given are that replies tell the truth,
/// that the server hears nothing while it is down, and that its counters have room where it is opened.
pub fn each_step_stands()
    ensures { EachStepStands }
{}

/// Over whatever comes to a new server, which hears nothing between a crash and the opening behind it: while its
/// counters have room, all that was sent to an object whose CREATE is awaited has the file's tag or a later one.
pub fn creates_are_first()
    ensures { CreatesAreFirst }
{}

/// At each moment of a history whose lines can name what its events make, some run of a new server ends in the
/// world's server, and sends each command that the server sent to a drive. Lines can name what comes to the server
/// in that run; nothing comes to it between a crash and the opening behind it, and it is down where the world's is.
pub fn server_sent_its_run()
    ensures { ServerSentItsRun }
{
    one_event_more();
}
