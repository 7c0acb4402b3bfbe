// What holds of every history, for the crates above.
ghost use Rattle.history_law.specs.Fenced.{FencesEnd, ReachedRefuses};
ghost use Rattle.history_law.specs.Holder.{EachHolderIsOwn, UnforgedHolderIsServer};
ghost use Rattle.history_law.specs.Fences.{UnforgedAreFenced};

use crate::history_laws::{book_is_read, commands_are_issued, unforged_are_issued};
use world_history::{fronts_are_lawful, one_event_more};

/// Behind each move in whose lines a fence is over, each component that isn't missing has an object with the file's
/// new tag or a later one, or its drive has failed. This is so as far as the server alone has commands performed under
/// its own holder.
pub fn fences_end()
    ensures { FencesEnd }
{}

/// Where an object has reached a tag, no command of an earlier one is performed on it from then on.
pub fn reached_refuses()
    ensures { ReachedRefuses }
{}

/// In each lawful history, whatever its events name: what a drive performs whose capability names the server's own
/// holder was sent to that drive by the server. So it is of each message that is delivered, and of injected bytes
/// where nothing that was injected so far is forged. Bytes are forged that a drive's key opens, and that were
/// neither sent to that drive before nor carry a capability that the server gave a client.
pub fn holders_are_own()
    ensures { EachHolderIsOwn }
{
    commands_are_issued();
    unforged_are_issued();
}

/// So in a lawful history in which nothing is forged the server's holder is its own at each line.
pub fn holder_is_server()
    ensures { UnforgedHolderIsServer }
{
    holders_are_own();
}

/// So in a whole history, of each note that a fence is over: if nothing is forged up to the end of its step, each object of a
/// present component has the file's new tag or a later one behind that, or its drive has failed; and from there on,
/// whatever is forged then, no command of an earlier tag is performed on it.
pub fn unforged_are_fenced()
    ensures { UnforgedAreFenced }
{
    book_is_read();
    one_event_more();
    fronts_are_lawful();
    holder_is_server();
}
