// The commands that change a drive.
ghost use Rattle.std.specs.Prelude.{◌≡◌, IfOk, IfSome, IfNone, IsTrue, length};
ghost use Rattle.osd_commands.specs.Commands.{allows};
ghost use Rattle.osd_drive.specs.Effects.{drive_after};
ghost use Rattle.drive_store.specs.Records.{IsChange};

use crate::record::is_change;
use osd_commands::{Command, CommandErr, read_command};
use osd_drive::{DriveCore, Verdict};
use osd_lists::Memory;
use std::alloc::Global;

/// The command that a message spells, if a drive performs it at this time and it changes an object. The drive is as before,
/// and the next command with this capability costs it less.
pub(crate) fn change_in(
    alloc: Global,
    core: &mut DriveCore,
    now: u64,
    message: &[u8],
) -> Result<Option<Command>, Memory>
    ensures some { IfOk result (λ change. IfSome change (λ c. IsChange core.old now message.now c)) }
    ensures sized { IfOk result (λ change. IfSome change (λ c. IsTrue (allows c.action c.length (length c.payload)))) }
    ensures none { IfOk result (λ change. IfNone change (drive_after core.old now message.now ≡ core.old)) }
    ensures same { core.new ≡ core.old }
{
    match read_command(alloc, message) {
        Ok(c) => {
            if !is_change(&c) {
                return Ok(None);
            }
            match core.judge(now, &c) {
                Verdict::Perform => Ok(Some(c)),
                _ => Ok(None),
            }
        }
        Err(CommandErr::Memory) => Err(Memory),
        Err(_) => Ok(None),
    }
}
