// The records of a store: the changes that a drive performed.
ghost use Rattle.std.specs.Prelude.{◌≡◌, IfOk, OnErr, IsTrue, length};
ghost use Rattle.osd_commands.specs.Commands.{allows};
ghost use Rattle.drive_store.specs.Records.{after_change, after_record, is_change, is_raise};
ghost use Rattle.drive_store.specs.Taking.{Takes};

use osd_commands::{Action, Command, CommandErr, read_command};
use osd_drive::{DriveCore, Verdict};
use osd_lists::Memory;
use osd_objects::FIRST_USER_ATTRIBUTE;
use std::alloc::Global;

/// The format of capabilities to which a record raises the least one, and its one byte.
pub const SECOND_FORMAT: u8 = 2;

/// Whether a command changes an object, and one that sets an attribute names a user's.
pub(crate) fn is_change(c: &Command) -> bool
    ensures { result ≡ is_change c.now }
{
    match c.action {
        Action::Read | Action::GetAttr => false,
        Action::SetAttr => c.attribute >= FIRST_USER_ATTRIBUTE,
        Action::Create | Action::Write | Action::SetTag => true,
    }
}

// Whether a record says that the least format was raised.
fn is_raise(bytes: &[u8]) -> bool
    ensures { result ≡ is_raise bytes.now }
{
    match bytes {
        [format] => *format == SECOND_FORMAT,
        _ => false,
    }
}

// Performs a change, whatever its capability says, and tells whether it is one and nothing on the object stands against it.
fn take_change(core: &mut DriveCore, alloc: Global, c: &Command) -> Result<bool, Memory>
    requires sized { IsTrue (allows c.now.action c.now.length (length c.now.payload)) }
    ensures taken { IfOk result (λ taken. Takes taken core.old core.new (after_change core.old c.now)) }
    ensures err { OnErr result (core.new ≡ core.old) }
{
    if !is_change(c) {
        return Ok(false);
    }
    match core.late(c) {
        Verdict::Perform => {
            core.perform(alloc, c)?;
            Ok(true)
        }
        _ => Ok(false),
    }
}

/// Takes a record into the drive that the records before it led to, and tells whether it is one. If it isn't,
/// or if there was no memory, the drive stays as it was.
#[tactic(auto, unfolding(crate::specs::Records::after_record))]
pub(crate) fn take_record(core: &mut DriveCore, alloc: Global, bytes: &[u8]) -> Result<bool, Memory>
    ensures taken { IfOk result (λ taken. Takes taken core.old core.new (after_record core.old bytes.now)) }
    ensures err { OnErr result (core.new ≡ core.old) }
{
    if is_raise(bytes) {
        core.raise_least(SECOND_FORMAT);
        return Ok(true);
    }
    match read_command(alloc, bytes) {
        Ok(c) => take_change(core, alloc, &c),
        Err(CommandErr::Memory) => Err(Memory),
        Err(_) => Ok(false),
    }
}
