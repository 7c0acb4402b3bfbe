// What holds of every history, for the crates above.
ghost use Rattle.calm_law.specs.Files.{FilesAreKept};
ghost use Rattle.calm_law.specs.Logs.{LogIsKept};
ghost use Rattle.calm_law.specs.Marks.{MarksAreKept};
ghost use Rattle.calm_law.specs.Harms.{CalmAlike};
ghost use Rattle.calm_law.specs.Performing.{WritesMark};
ghost use Rattle.calm_law.specs.Flagging.{BeginIsSeen};
ghost use Rattle.calm_law.specs.Following.{FollowsEvents, FollowsFirst, FollowsOn};
ghost use Rattle.calm_law.specs.Seeing.{MovesShowFiles};
ghost use Rattle.calm_law.specs.Sightings.{GuardsMessages, SightsTheWorld};
ghost use Rattle.calm_law.specs.Steps.{StepsTell};
ghost use Rattle.calm_law.specs.Moving.{EventFollows, MoveFollows, MovesGive};
ghost use Rattle.calm_law.specs.Watching.{WatchesEvent, WatchesNothing};

use component_law::{declared_have_failed, pending_is_read, server_writes_to_others};
use history_law::{book_is_read, drives_are_read, parties_run, server_moves, step_is_read};
use server_rules::files_are_put;
use world_history::{messages_are_read, reading_goes_on};
use world_watch::watch_is_read;

/// The files that are kept are those of the moment: before the first line, where a drive fails, at each note, and
/// behind a step, as long as the step changes no component of which its lines tell nothing. Then a stripe of a file
/// with parity is short by what is kept exactly where it is short at the moment.
pub fn files_are_kept()
    ensures { FilesAreKept }
{}

/// The calls and the entries that are kept are those of the log: before the first line, behind each line, and where a
/// report is taken as a loss.
pub fn log_is_kept()
    ensures { LogIsKept }
{}

/// The marks that are kept are those of the moments, of each file with parity and each entry that isn't finished:
/// before the first line, behind each line, where a report is taken as a loss, and at each note.
pub fn marks_are_kept()
    ensures { MarksAreKept }
{}

/// A moment for which what is kept stands is calm exactly where no stripe of a write that is left is short by what is
/// kept.
pub fn calm_is_kept()
    ensures { CalmAlike }
{}

/// A WRITE that is performed for an entry of the log marks the same stripes in what is kept as at the moment.
pub fn writes_are_marked()
    ensures { WritesMark }
{}

/// At the first moment of a step the flag says whether a stripe of a write that is left is short, though only what
/// the step changed is looked at.
pub fn begin_is_seen()
    ensures { BeginIsSeen }
{}

/// What is kept follows what is seen of a history, the flag with it: before the first line, with each step of which
/// the facts of `StepFacts` hold, and with the line of an event that a further step follows.
pub fn calm_is_followed()
    ensures first { FollowsFirst }
    ensures on { FollowsOn }
    ensures events { FollowsEvents }
{}

/// Each step of a history that is a move shows the files whose components are others than its notes told, and leaves
/// the same stripes short as behind the notes.
pub fn moves_show_files()
    ensures { MovesShowFiles }
{
    files_are_put();
}

/// The messages by which guesses are told are those that are read off the lines, so what is kept of a history finds
/// the messages of each world that stands for it.
pub fn sightings_are_the_worlds()
    ensures guards { GuardsMessages }
    ensures sights { SightsTheWorld }
{
    messages_are_read();
}

/// What each step of a move and the network behind it tell: that a report is taken as a loss, which grant is returned,
/// and which message's bytes a drive performed. A WRITE among these begins within what a drive performs.
pub fn steps_tell()
    ensures { StepsTell }
{
    parties_run();
}

/// Each move that is due at a moment of an event gives what `StepFacts` asks of a step, where the history and the move
/// have only events that the text of a scenario may have.
pub fn moves_give()
    ensures { MovesGive }
{
    book_is_read();
    step_is_read();
    server_moves();
    steps_tell();
    moves_show_files();
    declared_have_failed();
    server_writes_to_others();
    drives_are_read();
    sightings_are_the_worlds();
    messages_are_read();
    reading_goes_on();
}

/// So what is kept of the moments follows each move that is due, and all moves of an event. All that is kept for the
/// last line and the summary goes on with an event.
pub fn moves_follow()
    ensures one { MoveFollows }
    ensures all { EventFollows }
    ensures watched { WatchesEvent }
{
    moves_give();
    calm_is_followed();
    pending_is_read();
    reading_goes_on();
}

/// What is kept before the first line is what is read off a history without lines.
pub fn watch_begins()
    ensures { WatchesNothing }
{
    calm_is_followed();
    watch_is_read();
}
