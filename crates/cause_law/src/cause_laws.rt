// Why each answer comes and what changes, for the crates above.
ghost use Rattle.cause_law.specs.Answers.{EachRequestIsAnswered};
ghost use Rattle.cause_law.specs.Awaiting.{EachAwaitedHasItsCauses, EachAwaitedWasSent};
ghost use Rattle.cause_law.specs.AwaitedEnds.{EachAwaitedHasItsEnd};
ghost use Rattle.cause_law.specs.Changes.{EachGrantHasItsCauses};
ghost use Rattle.cause_law.specs.EndedGrants.{EachEndedHasItsCause};
ghost use Rattle.cause_law.specs.Components.{EachComponentHasItsCauses};
ghost use Rattle.cause_law.specs.Ends.{EachEndIsSaid};
ghost use Rattle.cause_law.specs.FenceTags.{EachTagHasItsCause};
ghost use Rattle.cause_law.specs.Losses.{EachLossHasItsCause};
ghost use Rattle.cause_law.specs.Told.{EachMessageIsCaused};

use component_law::{each_step_raises_tags, each_step_tells, each_step_tells_tags, seen_is_sound};
use exchange_law::clients_are_in_step;
use history_law::{book_is_read, grants_are_safe, server_moves, step_is_read};
use server_rules::{conflicts_are_exact, files_are_put};
use world_history::{one_event_more, reading_goes_on};

/// In a whole history whose events a text may have, each request that is new to the server is answered in its step. The
/// answer tells the first row that applies to what the book of its file has, and no other row is the first. The row says
/// which grants are live behind the step, and what size the file has.
pub fn requests_are_answered()
    ensures { EachRequestIsAnswered }
{
    conflicts_are_exact();
    files_are_put();
    grants_are_safe();
    book_is_read();
    step_is_read();
    server_moves();
    one_event_more();
    reading_goes_on();
}

/// In such a history nothing else makes a grant live or ends one, or changes the size of a file, but a fence that an
/// order to revoke, rebuild or audit the file begins, or an opening, and that ends all grants of the file. Each such order
/// does where no job of the file runs, and each opening where the file is unsettled, if there is a further tag.
pub fn grants_have_causes()
    ensures { EachGrantHasItsCauses }
{
    files_are_put();
    each_step_raises_tags();
    seen_is_sound();
    grants_are_safe();
    book_is_read();
    step_is_read();
    server_moves();
    one_event_more();
    reading_goes_on();
}

/// At each line of such a history at which something comes to the server, the grants of a file that fences ended go on so:
/// a repair that a line of the step tells to be over takes them all; else a fence that is open or over behind the step
/// adds those that were live; and else they stay.
pub fn ended_have_causes()
    ensures { EachEndedHasItsCause }
{
    files_are_put();
    each_step_raises_tags();
    seen_is_sound();
    grants_are_safe();
    book_is_read();
    step_is_read();
    server_moves();
    one_event_more();
    reading_goes_on();
}

/// In each move of a history a call of a client ends with `nofile`, `spent`, `degraded` or a status exactly if the client
/// takes an answer for which the call waits, and which says so: of its LAYOUTGET, or with a status of its LAYOUTCOMMIT.
pub fn ends_are_said()
    ensures { EachEndIsSaid }
{}

/// In each move of such a history each message of the server to a client tells a recall, or an answer to a request of this
/// client that the move hands the server. The request is new, and its answer is caused so; or it is the last one again, and
/// the answer that was sent to that is sent once more; or it is misordered, and the answer says so.
pub fn messages_are_caused()
    ensures { EachMessageIsCaused }
{
    conflicts_are_exact();
    files_are_put();
    grants_are_safe();
    book_is_read();
    clients_are_in_step();
    one_event_more();
}

/// At each line of such a history at which something comes to the server, each file goes on with its map, and with its
/// components as the notes of the step tell, after those on a drive that is declared and that the server knows became
/// missing.
pub fn components_have_causes()
    ensures { EachComponentHasItsCauses }
{
    each_step_tells();
    seen_is_sound();
    book_is_read();
    step_is_read();
    server_moves();
    one_event_more();
    reading_goes_on();
}

/// At each such line the tag of a file stays, unless one of the step's lines tells that a fence of the file is over. Then no
/// other line of the step does, its tag is the next one, and the file has it from then on. A file that is made has the tag
/// with which it is to be made.
pub fn tags_have_causes()
    ensures { EachTagHasItsCause }
{
    each_step_tells_tags();
    seen_is_sound();
    book_is_read();
    step_is_read();
    server_moves();
    one_event_more();
    reading_goes_on();
}

/// At each such line what the job of a file awaits behind the step it awaited before, and what comes isn't the answer to it;
/// or the step sends it, under a new nonce: the command's line is among those of the step, as far as a line can name its
/// drive.
pub fn awaited_have_causes()
    ensures { EachAwaitedHasItsCauses }
{
    files_are_put();
    seen_is_sound();
    book_is_read();
    step_is_read();
    server_moves();
    one_event_more();
    reading_goes_on();
}

/// What it awaits no more behind the step was answered by what comes, or its drive is taken out, or the server crashes or
/// is opened; or another component is lost, and the job begins a piece that it reads again, or gives a target up.
pub fn awaited_have_ends()
    ensures { EachAwaitedHasItsEnd }
{
    grants_are_safe();
    seen_is_sound();
    book_is_read();
    step_is_read();
    server_moves();
    one_event_more();
    reading_goes_on();
}

/// So at each moment of such a history each command that a job awaits was sent to its drive in the lines before, as far as a
/// line can name the drive.
pub fn awaited_were_sent()
    ensures { EachAwaitedWasSent }
{
    book_is_read();
    server_moves();
    one_event_more();
}

/// So at each such line a component of a file becomes missing only if its note `nospace` or `reported` is among the step's
/// lines, or what comes is the order to declare its drive, and the server knows that drive.
pub fn losses_have_causes()
    ensures { EachLossHasItsCause }
{
    components_have_causes();
}
