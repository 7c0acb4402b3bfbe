// What is kept of a run's lines is what is read off them, for the crates above.
ghost use Rattle.world_watch.specs.Laws.{EventsTell, WatchBegins, WatchGoesOn};

use crate::guess_laws::guesses_are_read;

/// What is kept stands for what the definitions read off the lines: before the first line, and after further lines
/// where it did so before, as long as the network has the messages of all lines so far. It has them behind each move of
/// an event that begins at a world that stands for a history.
pub fn watch_is_read()
    ensures begins { WatchBegins }
    ensures goes_on { WatchGoesOn }
    ensures events { EventsTell }
{
    guesses_are_read();
}
