// What holds of every history, for the crates above.
ghost use Rattle.history_law.specs.Answered.{VerdictsAreAnswered};
ghost use Rattle.history_law.specs.Counters.{GrantsAreCounted};
ghost use Rattle.history_law.specs.Drives.{DrivesAreRead};
ghost use Rattle.history_law.specs.Grants.{GrantsAreSafe};
ghost use Rattle.history_law.specs.Parties.{AllPartiesRun};
ghost use Rattle.history_law.specs.Replied.{RepliesTell};
ghost use Rattle.history_law.specs.Safe.{HistoriesAreSafe};
ghost use Rattle.history_law.specs.Touching.{PerformedTouchesItsOwn};
ghost use Rattle.history_law.specs.Doing.{ServerMoves};
ghost use Rattle.history_law.specs.Placed.{PlacedIsChosen};
ghost use Rattle.history_law.specs.Read.{BookIsRead, FilesAreRead, StepIsRead};
ghost use Rattle.history_law.specs.Issued.{CommandsAreIssued};
ghost use Rattle.history_law.specs.Ranges.{RangesAreApart};
ghost use Rattle.history_law.specs.Unforged.{UnforgedAreIssued, UnguessedAreUnforged};

use server_rules::{each_step_is_safe, every_run_is_safe};
use world_history::reading_goes_on;

/// At each moment of a history the server is what its rules make of a new server and some inputs, and each client what
/// its rules make of a new client: nothing else changes them, so each law over lists of inputs holds of it.
pub fn parties_run()
    ensures { AllPartiesRun }
{}

/// At each moment of a history, of each file: no two live grants conflict, a client has at most one, none is live
/// while a job runs, and a job that rests awaits something.
pub fn grants_are_safe()
    ensures { GrantsAreSafe }
{
    every_run_is_safe();
}

/// At each moment the server has given no more grants than messages were sent: each is given in an answer.
pub fn grants_are_counted()
    ensures { GrantsAreCounted }
{}

/// A command that a drive performs is for its capability's object. It changes no other object, and of that one no byte
/// outside the capability's range; a READ tells bytes of that range alone.
pub fn performed_touches_its_own()
    ensures { PerformedTouchesItsOwn }
{}

/// The drives that are read off the lines of a history are those of each world that stands for it.
pub fn drives_are_read()
    ensures { DrivesAreRead }
{}

/// Each lawful history is safe, in the words of its lines: at each moment no two live grants of a file conflict, and a
/// client has at most one. Each command that a drive performs touches its capability's object and range alone. Each
/// message of a drive is its reply to what was delivered to it in the line before, and to a READ tells bytes of the
/// capability's range alone.
pub fn histories_are_safe()
    ensures { HistoriesAreSafe }
{
    each_step_is_safe();
}

/// In a whole history the line behind each verdict on a delivered message is the drive's reply: it goes to who sent
/// the message, and its bytes spell what the drive's rules reply, as the drive stood before. No other message is in
/// the step, and none in that of a verdict on injected bytes. So no drive performs a delivered command and stays silent.
pub fn verdicts_are_answered()
    ensures { VerdictsAreAnswered }
{
    histories_are_safe();
}

/// What a reply tells of its drive, as it is behind the line of the message to which it replies: a change that was
/// performed, now or before, is spent, and so is a command of an old format; where the tag is another, the reply has
/// the object's.
pub fn replies_tell()
    ensures { RepliesTell }
{}

/// In each move the server takes the step that the move is to it, or stays as it is.
pub fn server_moves()
    ensures { ServerMoves }
{}

/// A step of the server is the same where a placer names the drives to which the CREATEs of the step go.
pub fn placed_is_chosen()
    ensures { PlacedIsChosen }
{}

/// At each moment of a history the server that is read off its lines is the world's, with its clock and the messages.
pub fn book_is_read()
    ensures { BookIsRead }
{
    reading_goes_on();
}

/// The book of a file that is read off a history is that of each world that stands for it.
pub fn files_are_read()
    ensures { FilesAreRead }
{
    reading_goes_on();
}

/// What a move is to the server is read off its lines.
pub fn step_is_read()
    ensures { StepIsRead }
{
    reading_goes_on();
}

/// In each lawful history, whatever its events name: what a drive performs was sent to it by the server, or by a
/// client under a credential that an answer of the server gave this client before. It is for the credential's drive
/// and object, is sealed with its key, and carries exactly the capability that the client read there. So it is of
/// each message that is delivered, and, where nothing was guessed so far, of injected bytes.
pub fn commands_are_issued()
    ensures { CommandsAreIssued }
{}

/// Where none of the bytes that were injected so far are forged, those that a drive performs are the server's, or
/// were issued to a client, or carry a capability that an answer of the server gave a client before: then they are
/// for a component under that grant. Bytes are forged that the drive's key opens and that were neither sent to it
/// before nor carry such a capability.
pub fn unforged_are_issued()
    ensures { UnforgedAreIssued }
{}

/// A lawful history of which nothing was guessed is unforged: so what holds of each unforged history holds of it.
pub fn unguessed_are_unforged()
    ensures { UnguessedAreUnforged }
{}

/// At each moment of a lawful history, of two live grants of a file of which one is for writing: no byte of a
/// component is inside the capabilities of both. So no WRITE under the one touches a byte that a command under the
/// other may.
pub fn ranges_are_apart()
    ensures { RangesAreApart }
{
    histories_are_safe();
}
