// What lines can name, for the crates above.
ghost use Rattle.name_law.specs.ClientSends.{ClientsSendToNamed};
ghost use Rattle.name_law.specs.ClientTells.{CallsOfTextArePending, OutcomesOfTextAreTold};
ghost use Rattle.name_law.specs.DriveNames.{PartiesAreNamed, VerdictsNameTags};
ghost use Rattle.name_law.specs.DriveReplies.{DrivesReplyToNamed, MessagesAreNamed};
ghost use Rattle.name_law.specs.ServerNamed.{EachServerStepIsNamed};
ghost use Rattle.name_law.specs.ServerTells.{ServerIsNamed, ServerLeavesNothingOut, ServerSendsToNamed, TextsAreNamed};

use exchange_law::answers_are_own;
use history_law::{grants_are_safe, server_moves};
use world_history::one_event_more;

/// Let lines be able to name the drives and files of a server, the drives of components and those that jobs wait for,
/// and the holders of grants and the clients whose answers are kept. Then in each step they can name each party to which
/// it sends and tell each note, and all this is so of the server behind the step, as long as they can name the file or
/// the drive that comes to it.
pub fn each_server_step_is_named()
    ensures { EachServerStepIsNamed }
{}

/// Lines can name the drives and files that the events of a scenario's text make.
pub fn texts_are_named()
    ensures { TextsAreNamed }
{}

/// At each moment of a history whose events make drives and files that lines can name, they can name all of the server:
/// its drives and files, the drives of components and those that jobs wait for, the holders of grants, and the clients
/// whose answers are kept.
pub fn server_is_named()
    ensures { ServerIsNamed }
{
    one_event_more();
}

/// At each such moment, whatever the next move may hand the server: lines can name each party to which the server's step
/// sends, and tell each note of it.
pub fn server_sends_to_named()
    ensures { ServerSendsToNamed }
{
    one_event_more();
}

/// So in each move that is due at such a moment all that the server's step sends is sent, and all that it notes is told.
pub fn server_leaves_nothing_out()
    ensures { ServerLeavesNothingOut }
{
    server_moves();
    one_event_more();
}

/// At each moment of a history of a scenario's text, whatever comes to a client: a line can tell how its call ends. A
/// holder that it names is one of 16 clients, a drive that refused its command is one of 64, and a tag that this drive
/// named has 32 bits.
pub fn outcomes_are_told()
    ensures { OutcomesOfTextAreTold }
{
    answers_are_own();
    grants_are_safe();
    one_event_more();
}

/// So at each moment of such a history the calls that are pending by its lines are those of the world's clients.
pub fn calls_of_text_are_pending()
    ensures { CallsOfTextArePending }
{
    outcomes_are_told();
    one_event_more();
}

/// At each moment of any history, whatever comes to a client: what it sends is for the server, or for one of 64 drives. So
/// all of it is sent.
pub fn clients_send_to_named()
    ensures { ClientsSendToNamed }
{}

/// At each moment of a history of a scenario's text a line can name both parties of each message.
pub fn messages_are_named()
    ensures { MessagesAreNamed }
{
    one_event_more();
}

/// So a drive replies to nobody whom a line can't name.
pub fn drives_reply_to_named()
    ensures { DrivesReplyToNamed }
{
    one_event_more();
}

/// At each moment of a history of a scenario's text each drive is one of 64, and each client one of 16.
pub fn parties_are_named()
    ensures { PartiesAreNamed }
{
    one_event_more();
}

/// And each tag that a drive names in a verdict has 32 bits, whatever it reads.
pub fn verdicts_name_tags()
    ensures { VerdictsNameTags }
{
    one_event_more();
}
