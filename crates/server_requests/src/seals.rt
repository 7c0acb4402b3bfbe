ghost use Rattle.std.specs.Prelude.{◌≡◌, ◌++◌, ◌∷◌, [], find, map, IfOk, OnOk};
ghost use Rattle.osd_commands.specs.Commands.{spelling, check_len};
ghost use Rattle.server_rules.specs.Commands.{sealed, key_at};
ghost use Rattle.server_rules.specs.Files.{to_drive, to_drives};
ghost use Rattle.server_requests.specs.Keys.{IsKeyAt, with_number};
ghost use Rattle.server_requests.specs.Sending.{sent_as, all_sent};

use crate::outgoing::{Sends, Sent};
use osd_capability::{DRIVE_KEY_BYTES, capability_key, check_value};
use osd_commands::{check_len, write_command};
use osd_lists::{Bytes, Memory, Node};
use server_rules::{Awaited, Drive};
use std::alloc::Global;

// The bytes of a command before its payload.
const BLOCK: usize = 256;

// The drive of that number.
fn drive_at(drives: &[Drive], number: u32) -> Option<Drive>
    ensures { result ≡ find (with_number number) drives.now }
{
    for drive in drives {
        if drive.number == number {
            return Some(*drive);
        }
    }
    None
}

/// A key that makes the capability keys of a drive: its own, and zeros where there is no such drive, which
/// are as no bytes to an HMAC.
#[tactic(auto, unfolding(server_rules::specs::Commands::key_at))]
pub fn key_of_drive(drives: &[Drive], number: u32) -> [u8; DRIVE_KEY_BYTES]
    ensures { IsKeyAt drives.now number result }
{
    match drive_at(drives, number) {
        Some(drive) => drive.key,
        None => [0; DRIVE_KEY_BYTES],
    }
}

/// The bytes of a command as it goes to its drive, with the check value under the drive's key.
pub fn sealed_bytes(alloc: Global, drives: &[Drive], awaited: &Awaited) -> Result<Bytes, Memory>
    ensures { IfOk result (λ bytes. bytes ≡ spelling (sealed drives.now awaited.now)) }
{
    let command = &awaited.command;
    let size = check_len(command.capability.format);
    let key = capability_key(&key_of_drive(drives, awaited.drive), &command.capability);
    let mut bytes = write_command(alloc, command)?;
    bytes.truncate(BLOCK - size);
    let check = check_value(&key, bytes.as_slice(), command.payload.as_slice());
    bytes.extend_from_slice(&check[..size])?;
    bytes.extend_from_slice(command.payload.as_slice())?;
    Ok(bytes)
}

/// Sends a command to its drive, sealed.
pub fn send_to_drive(
    alloc: Global,
    sends: &mut Sends,
    drives: &[Drive],
    awaited: &Awaited,
) -> Result<(), Memory>
    ensures { OnOk result (sends.new ≡ sends.old ++ sent_as (to_drive drives.now awaited.now) ∷ []) }
{
    let bytes = sealed_bytes(alloc, drives, awaited)?;
    let to = Node::Drive(awaited.drive);
    sends.push(Sent { to, bytes })
}

/// Sends commands to their drives, sealed, in order.
pub fn send_to_drives(
    alloc: Global,
    sends: &mut Sends,
    drives: &[Drive],
    commands: &[Awaited],
) -> Result<(), Memory>
    ensures { OnOk result (sends.new ≡ sends.old ++ all_sent (to_drives drives.now commands.now)) }
{
    for command in commands {
        send_to_drive(alloc, sends, drives, command)?;
    }
    Ok(())
}
