// What a drive's reply says of the object that a CREATE is to make.
ghost use Rattle.std.specs.Prelude.{◌≡◌, IfOk};
ghost use Rattle.server_rules.specs.Replies.{is_create};
ghost use Rattle.reply_matching.specs.Creations.{created_object, creation_by, creation_told};

use osd_commands::{Action, Command, CommandErr, Reply, read_command, read_reply};
use osd_lists::Memory;
use server_rules::{EXISTS, OLD_FORMAT, PERFORMED};
use std::alloc::Global;

/// What a drive's reply says of the object that a CREATE is to make.
#[derive(Clone, Copy, Debug, PartialEq, Eq)]
pub enum Creation {
    /// The drive made it.
    Made { object: u64 },
    /// The drive holds it already.
    Held { object: u64 },
    /// The drive asks for a command of another format.
    OldFormat,
    /// Any other reply: the drive doesn't make it, or this is no reply to the command.
    Refused { object: u64 },
}

// What this reply says of the object of a CREATE.
fn creation_by(command: &Command, reply: &Reply) -> Creation
    ensures { result ≡ creation_by command.now reply.now }
{
    let object = command.object;
    if reply.nonce != command.nonce {
        Creation::Refused { object }
    } else if reply.verdict == PERFORMED {
        Creation::Made { object }
    } else if reply.verdict == EXISTS {
        Creation::Held { object }
    } else if reply.verdict == OLD_FORMAT {
        Creation::OldFormat
    } else {
        Creation::Refused { object }
    }
}

// Whether a command is a CREATE.
fn is_create(action: Action) -> bool
    ensures { result ≡ is_create action }
{
    match action {
        Action::Create => true,
        _ => false,
    }
}

/// What a drive's reply says of the object that this command is to make, `None` exactly if the command is no CREATE.
///
/// # Errors
///
/// [`Memory`], if the reading of either finds none.
pub fn creation_told(
    alloc: Global,
    message: &[u8],
    reply: &[u8],
) -> Result<Option<Creation>, Memory>
    ensures { IfOk result (λ said. said ≡ creation_told message.now reply.now) }
{
    let command = match read_command(alloc, message) {
        Ok(command) => command,
        Err(CommandErr::Memory) => return Err(Memory),
        Err(_) => return Ok(None),
    };
    if !is_create(command.action) {
        return Ok(None);
    }
    match read_reply(alloc, reply) {
        Ok(reply) => Ok(Some(creation_by(&command, &reply))),
        Err(CommandErr::Memory) => Err(Memory),
        Err(_) => Ok(Some(Creation::Refused {
            object: command.object,
        })),
    }
}

/// The object that a command is to make, `None` exactly if it is no CREATE.
///
/// # Errors
///
/// [`Memory`], if the reading finds none.
pub fn created_object(alloc: Global, message: &[u8]) -> Result<Option<u64>, Memory>
    ensures { IfOk result (λ object. object ≡ created_object message.now) }
{
    match read_command(alloc, message) {
        Ok(command) => {
            if is_create(command.action) {
                Ok(Some(command.object))
            } else {
                Ok(None)
            }
        }
        Err(CommandErr::Memory) => Err(Memory),
        Err(_) => Ok(None),
    }
}
