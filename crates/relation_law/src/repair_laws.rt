// What holds of the commands of jobs, for the crates above.
ghost use Rattle.relation_law.specs.Awaiting.{JobsAskTheirOwn};
ghost use Rattle.relation_law.specs.Growing.{DrivesGrow, SpentStays};
ghost use Rattle.relation_law.specs.Hearing.{HeardTellsOfWrites};
ghost use Rattle.relation_law.specs.Joined.{OwnedFollows, RebuiltFollow};
ghost use Rattle.relation_law.specs.Owning.{EachSendIsAwaited};
ghost use Rattle.relation_law.specs.Quiet.{QuietFollows};
ghost use Rattle.relation_law.specs.TargetWrites.{EachFillIsLatest};

use component_law::{each_step_raises_tags, no_command_is_ahead};
use exchange_law::{all_files_fit, counters_stay_low};
use history_law::{holder_is_server, unguessed_are_unforged};
use world_history::one_event_more;

/// Over each move of a history a drive that failed has failed, and its least format doesn't fall. Unless it fails, each
/// object stays there, its tag doesn't fall, and what a lane has passed it has passed.
pub fn drives_grow()
    ensures { DrivesGrow }
{}

/// So a command that is spent at a drive stays so.
pub fn spent_stays()
    ensures { SpentStays }
{}

/// Where the server hears of a WRITE that a job of it awaits that it was performed, the lane of its holder has passed its
/// nonce, unless the drive has failed since; and where it hears that the format is too old, the WRITE is spent.
pub fn heard_tells_of_writes()
    ensures { HeardTellsOfWrites }
{
    one_event_more();
    counters_stay_low();
    no_command_is_ahead();
}

/// What a job awaits goes to its file's components, or to the target of a rebuild, and does there what its work asks: a READ
/// is of the row of the work's first piece, and a WRITE within that piece.
pub fn jobs_ask_their_own()
    ensures { JobsAskTheirOwn }
{
    one_event_more();
}

/// What a step of the server sends to drives a job awaits behind it.
pub fn each_send_is_awaited()
    ensures { EachSendIsAwaited }
{}

/// Where a rebuild writes to its target, its job awaits one WRITE, and the server sent no later one there.
pub fn each_fill_is_latest()
    ensures { EachFillIsLatest }
{
    one_event_more();
}

/// Behind each move of a calm history, all that the server sent to the object of a component that was made anew in the move
/// is spent. It is asked that it is so where the last piece is of zeros, and isn't written.
pub fn rebuilt_follow()
    ensures { RebuiltFollow }
{
    one_event_more();
    counters_stay_low();
    no_command_is_ahead();
    all_files_fit();
    unguessed_are_unforged();
    holder_is_server();
    each_step_raises_tags();
}

/// Behind each move of a calm history what may still come to a present component of a file, of all that the server's jobs
/// sent, is of the repair that runs and awaits it, in its first piece; or no job runs since the server stopped in a repair,
/// or a fence is waited for again. Two things are asked: that each move keeps what the machine has of the components, and
/// that all that was sent to a rebuild's target is spent where its last piece is of zeros, and isn't written.
pub fn owned_follows()
    ensures { OwnedFollows }
{
    one_event_more();
    counters_stay_low();
    no_command_is_ahead();
    all_files_fit();
    unguessed_are_unforged();
    holder_is_server();
    each_step_raises_tags();
}

/// Behind each move of a calm history, while no grant of the file's tag was issued, each client's WRITE to the object of a
/// component that isn't lost is spent. It is asked that each move keeps what the machine has of the components, of what was
/// sent, and of what the server keeps.
pub fn quiet_follows()
    ensures { QuietFollows }
{
    one_event_more();
    all_files_fit();
}
