// What the server notes of files, how far their grants for writing reached, and their formats.
ghost use Rattle.history_claims.specs.Audits.{EachFoundHasItsCause};
ghost use Rattle.history_claims.specs.Formats.{EachFormatHasItsCause};
ghost use Rattle.history_claims.specs.Heard.{EachHeardHasItsCause};
ghost use Rattle.history_claims.specs.Notes.{EachNoteHasItsCause};
ghost use Rattle.history_claims.specs.Reach.{EachReachHasItsCause};
ghost use Rattle.history_claims.specs.Refusals.{EachRefusalIsTold};
ghost use Rattle.history_claims.specs.Stages.{EachStageHasItsEnd};
ghost use Rattle.history_claims.specs.Waiting.{EachJobWaits};

use component_law::{each_step_raises_tags, seen_is_sound};
use history_law::{book_is_read, grants_are_safe, server_moves, step_is_read};
use server_rules::{conflicts_are_exact, each_step_is_safe, files_are_put};
use world_history::{one_event_more, reading_goes_on};

/// In a whole history whose events a text may have, each note of the server has its cause in what the books have of the
/// file before and behind its step: `ready` comes when no CREATE of the file is awaited any more, `busy` to an order
/// while a job waits, `spent` when a fence is needed and there is no further tag, `nodrive` when no drive may take the
/// component or that of its new object is taken out, `lost` when it can't be made from the others, `nospace` and
/// `reported` by a reply and a report that say so, and `audit` when no piece is left, with what was found.
pub fn notes_have_causes()
    ensures { EachNoteHasItsCause }
{
    conflicts_are_exact();
    grants_are_safe();
    server_moves();
    seen_is_sound();
    book_is_read();
    step_is_read();
    one_event_more();
    reading_goes_on();
}

/// In such a history, where the job of a file is at its CREATEs, its fence, its repair, a component that it makes anew,
/// or its audit, it is at the same behind the next step, or a line of the step tells that this is over, unless the
/// server crashes or is opened.
pub fn stages_have_ends()
    ensures { EachStageHasItsEnd }
{
    grants_are_safe();
    server_moves();
    seen_is_sound();
    book_is_read();
    step_is_read();
    one_event_more();
    reading_goes_on();
}

/// In such a history an order to revoke, rebuild or audit a file that comes while a job of the file waits is told as
/// `busy` with the lowest component that this waits for; and where a fence of a file is needed and there is no further
/// tag, that is told as `spent`.
pub fn refusals_are_told()
    ensures { EachRefusalIsTold }
{
    conflicts_are_exact();
    grants_are_safe();
    server_moves();
    seen_is_sound();
    book_is_read();
    step_is_read();
    one_event_more();
    reading_goes_on();
}

/// In such a history what an audit has left to read, and has found, it had before the step; or it goes on from the piece
/// whose rows, or from the lengths, that it has heard with a reply; or a component was lost, and its piece begins again.
/// So it goes through its pieces, and counts the stripes that are short, and those that are bad.
pub fn founds_have_causes()
    ensures { EachFoundHasItsCause }
{
    server_moves();
    seen_is_sound();
    book_is_read();
    step_is_read();
    one_event_more();
    reading_goes_on();
}

/// In such a history what a job has heard it had heard before the step, or it is what the reply that comes to a command
/// that it awaited carries, for that command's component.
pub fn heard_have_causes()
    ensures { EachHeardHasItsCause }
{
    server_moves();
    seen_is_sound();
    book_is_read();
    step_is_read();
    one_event_more();
    reading_goes_on();
}

/// In such a history `high` of a file stays in each step, or rises to the end of a grant for writing that is live behind
/// it; it reaches the end of each such grant that wasn't live before; and a file that is made begins with 0.
pub fn reaches_have_causes()
    ensures { EachReachHasItsCause }
{
    each_step_raises_tags();
    seen_is_sound();
    grants_are_safe();
    book_is_read();
    step_is_read();
    server_moves();
    one_event_more();
    reading_goes_on();
}

/// In such a history the format of a file stays in each step, unless a fence of it begins, with which it becomes the
/// server's if that is greater, or a command of its job is answered as of too old a format, which then goes again in
/// format 2, and so it is the file's. What its job awaits anew has its format. A file that is made begins with the
/// server's, which rises by an event that asks for more, and by nothing else.
pub fn formats_have_causes()
    ensures { EachFormatHasItsCause }
{
    files_are_put();
    each_step_raises_tags();
    seen_is_sound();
    grants_are_safe();
    book_is_read();
    step_is_read();
    server_moves();
    one_event_more();
    reading_goes_on();
}

/// By the book of any lines, a job that runs awaits some command. So one whose last answer comes goes on in the same
/// step, or is over.
pub fn jobs_wait()
    ensures { EachJobWaits }
{
    each_step_is_safe();
}
