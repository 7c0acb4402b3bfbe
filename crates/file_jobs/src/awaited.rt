// The commands that a job waits for.
ghost use Rattle.std.specs.Prelude.{◌≡◌, ◌<◌, ◌≤◌, ◌==◌, filter, find, map, length, take, slice_get, None, IfSome, IfNone, IfOk, OnOk, if◌then◌else◌};
ghost use Rattle.osd_commands.specs.declared.replies.Reply.{Reply as AReply};
ghost use Rattle.server_rules.specs.Commands.{again_in_2};
ghost use Rattle.server_rules.specs.Replies.{answers};
ghost use Rattle.file_jobs.specs.Awaiting.{stays};

use crate::effects::copy_of;
use osd_capability::FORMAT_SHA256;
use osd_commands::Reply;
use osd_lists::Memory;
use server_rules::{Awaited, AwaitedCommands};
use std::alloc::Global;

/// The place of the command that a reply of this drive answers, `None` if there is none.
pub fn answered_by(awaited: &[Awaited], drive: u32, reply: &Reply) -> Option<usize>
    ensures found { IfSome result (λ i. (i < length awaited.now)
        × (find (answers drive reply.now) awaited.now ≡ slice_get awaited.now i)) }
    ensures none { IfNone result (find (answers drive reply.now) awaited.now ≡ None) }
{
    for i in 0..awaited.len() {
        if awaited[i].command.nonce == reply.nonce && awaited[i].drive == drive {
            return Some(i);
        }
    }
    None
}

/// Which commands a job doesn't wait for any more.
#[derive(Clone, Copy)]
pub enum Gone {
    /// The one with this nonce, which is answered.
    Nonce { nonce: u64 },
    /// The commands to a drive, which was declared.
    Drive { drive: u32 },
}

// Whether a command is still waited for.
fn stays(awaited: &Awaited, gone: Gone) -> bool
    ensures { result ≡ stays gone awaited.now }
{
    match gone {
        Gone::Nonce { nonce } => awaited.command.nonce != nonce,
        Gone::Drive { drive } => awaited.drive != drive,
    }
}

// Brings the commands that are still waited for to the front, in order: how many they are.
fn shift(items: &mut [Awaited], gone: Gone) -> usize
    ensures left { take result items.new ≡ filter (stays gone) items.old }
    ensures bound { result ≤ length items.old }
{
    let mut left = 0;
    for i in 0..items.len() {
        if stays(&items[i], gone) {
            items.swap(left, i);
            left += 1;
        }
    }
    left
}

/// Waits no more for some commands; those that are left keep their order.
pub fn forget(awaited: &mut AwaitedCommands, gone: Gone)
    ensures { awaited.new ≡ filter (stays gone) awaited.old }
{
    let left = shift(awaited.as_mut_slice(), gone);
    awaited.truncate(left);
}

/// A copy of a command, in format 2 and with a new nonce.
pub fn again_in_2(alloc: Global, awaited: &Awaited, nonce: u64) -> Result<Awaited, Memory>
    ensures { IfOk result (λ again. again ≡ again_in_2 awaited.now nonce) }
{
    let mut again = copy_of(alloc, awaited)?;
    again.command.nonce = nonce;
    again.command.capability.format = FORMAT_SHA256;
    Ok(again)
}

/// Puts a command in the place of those with a nonce.
pub fn renew(
    alloc: Global,
    awaited: &mut AwaitedCommands,
    former: u64,
    again: &Awaited,
) -> Result<(), Memory>
    ensures { OnOk result (awaited.new ≡ map (λ c. if c.command.nonce == former then again.now else c) awaited.old) }
{
    for i in 0..awaited.len() {
        if awaited.get(i).command.nonce == former {
            *awaited.get_mut(i) = copy_of(alloc, again)?;
        }
    }
    Ok(())
}
