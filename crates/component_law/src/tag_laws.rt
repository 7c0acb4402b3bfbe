// What holds of every history, for the crates above.
ghost use Rattle.component_law.specs.Live.{EachAnswerIsLive};
ghost use Rattle.component_law.specs.Handed.{EachGivenWasLive};
ghost use Rattle.component_law.specs.Given.{GrantsAreOlder};
ghost use Rattle.component_law.specs.Barred.{GivenIsBarred};
ghost use Rattle.component_law.specs.Origin.{EachTagWasSent};
ghost use Rattle.component_law.specs.TagWithin.{NoTagIsAhead};
ghost use Rattle.component_law.specs.Least.{NoTagIsBehind};
ghost use Rattle.component_law.specs.TagTags.{EachTagIsItsFiles};

use crate::file_laws::{each_step_raises_tags, seen_is_sound};
use crate::sent_laws::{
    creates_are_first, each_step_stands, no_command_is_ahead, server_sent_its_run,
};
use exchange_law::{all_files_fit, server_is_counted};
use history_law::{
    book_is_read, commands_are_issued, fences_end, holder_is_server, reached_refuses,
    unforged_are_issued,
};
use server_rules::files_are_put;
use world_history::{fronts_are_lawful, one_event_more, reading_goes_on};

/// Each message of the server to a client, in a whole history whose events a text may have: the client was sent the same
/// bytes before, or where they spell an answer that gives a layout, this is of a grant that is live in the book at the end
/// of the message's step. The grant is of this client on the answer's file, with the file's tag, map and components and
/// with the drives' keys as the book has them then. So what clients are told is what the book keeps apart.
pub fn answers_are_live()
    ensures { EachAnswerIsLive }
{
    files_are_put();
    book_is_read();
    one_event_more();
}

/// So whatever credential an answer of the server gave a client before some place of a whole history of a scenario's text
/// with few messages: its answer was first sent at a line before that place, and at the end of this line's step the book
/// has the grant live, of this client on the answer's file. The credential's capability is for a present component of the
/// file as the book has it there, under this grant: so it has the tag that the file had when the grant was given.
pub fn given_was_live()
    ensures { EachGivenWasLive }
{
    answers_are_live();
}

/// In each whole history whose events a text may have, each grant of a file that the server gave a client before a
/// note that a fence of the file is over has an earlier tag than the note tells.
pub fn grants_are_older()
    ensures { GrantsAreOlder }
{
    each_step_raises_tags();
    files_are_put();
    reading_goes_on();
    seen_is_sound();
}

/// So a fence that is over bars what was given before it. In each whole history of a scenario's text with few messages, of
/// each note that a fence of a file is over: if nothing is forged up to the end of its step, no command is performed
/// behind that on the object of any component of the file that isn't missing there, if its capability is one that an
/// answer of the server gave a client for this file before the note.
pub fn given_is_barred()
    ensures { GivenIsBarred }
{
    book_is_read();
    one_event_more();
    fences_end();
    reached_refuses();
    fronts_are_lawful();
    holder_is_server();
    grants_are_older();
}

/// In a lawful history in which nothing is forged each object of each drive has its tag from a CREATE or a SET TAG
/// for it that the server sent to the drive: the tag of the command's capability after a CREATE, the next one after a
/// SET TAG.
pub fn each_tag_was_sent()
    ensures { EachTagWasSent }
{
    commands_are_issued();
    unforged_are_issued();
}

/// At each moment of a lawful history of a scenario's text with few messages in which nothing is forged: no object of
/// a component has a tag past its file's, but for the next one while the file's fence is open.
pub fn no_tag_is_ahead()
    ensures { NoTagIsAhead }
{
    server_sent_its_run();
    each_tag_was_sent();
    no_command_is_ahead();
    all_files_fit();
    server_is_counted();
}

/// At each moment of a lawful history of a scenario's text with few messages in which nothing is forged: each present
/// component of a file has an object with the file's tag or a later one, unless its CREATE is awaited, its drive has
/// failed, or the file isn't ready and no job of it runs: then a crash of the server cut its making off.
pub fn no_tag_is_behind()
    ensures { NoTagIsBehind }
{
    server_sent_its_run();
    each_tag_was_sent();
    no_command_is_ahead();
    all_files_fit();
    server_is_counted();
    holder_is_server();
    each_step_stands();
    creates_are_first();
    one_event_more();
}

/// So at each such moment each present component of a file has an object with exactly the file's tag, or with the next
/// one while a fence of the file is open, unless its CREATE is awaited, its drive has failed, or the file isn't ready
/// and no job of it runs: in the words of the lines, of the server and the drives that are read off them.
pub fn each_tag_is_its_files()
    ensures { EachTagIsItsFiles }
{
    no_tag_is_ahead();
    no_tag_is_behind();
    book_is_read();
}
