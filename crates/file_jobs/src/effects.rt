ghost use Rattle.std.specs.Prelude.{◌≡◌, ◌≢◌, ◌≤◌, ◌<◌, ◌+◌, ◌^◌, ◌++◌, ◌∷◌, [], length, IfOk, OnOk};
ghost use Rattle.file_jobs.specs.Sound.{RestsAs};
ghost use Rattle.file_jobs.specs.Works.{noted, sends, work_of};
ghost use Rattle.file_jobs.specs.Steps.{GoesOnAs, IsSettled, RestsOr};

use crate::job::{RunningJob, Turn, Work};
use osd_commands::Command;
use osd_lists::{Bytes, Memory, Sequence};
use server_rules::{Awaited, AwaitedCommands, Effects, JobKind, Note, NoteKind};
use std::alloc::Global;

/// A copy of a command that a job waits for.
pub fn copy_of(alloc: Global, awaited: &Awaited) -> Result<Awaited, Memory>
    ensures { IfOk result (λ copy. copy ≡ awaited.now) }
{
    let command = &awaited.command;
    let payload = Bytes::copied(alloc, command.payload.as_slice())?;
    Ok(Awaited {
        component: awaited.component,
        drive: awaited.drive,
        command: Command {
            action: command.action,
            partition: command.partition,
            object: command.object,
            offset: command.offset,
            length: command.length,
            nonce: command.nonce,
            attribute: command.attribute,
            capability: command.capability,
            payload,
            check: command.check,
        },
    })
}

/// Notes something of a file.
pub fn note(effects: &mut Effects, file: u32, kind: NoteKind) -> Result<(), Memory>
    ensures { OnOk result (effects.new ≡ noted effects.old file kind) }
{
    effects.notes.push(Note { file, kind })
}

/// Sends a command.
pub fn send(alloc: Global, effects: &mut Effects, command: &Awaited) -> Result<(), Memory>
    requires { effects.old.nonce < 2 ^ 63 }
    ensures { OnOk result (effects.new ≡ sends effects.old (command.now ∷ [])) }
{
    effects.sent.push(copy_of(alloc, command)?)?;
    effects.nonce += 1;
    Ok(())
}

/// Sends commands, in order.
pub fn send_all(alloc: Global, effects: &mut Effects, commands: &[Awaited]) -> Result<(), Memory>
    requires { effects.old.nonce + length commands.now < 2 ^ 64 }
    ensures { OnOk result (effects.new ≡ sends effects.old commands.now) }
{
    for command in commands {
        effects.sent.push(copy_of(alloc, command)?)?;
    }
    effects.nonce += commands.len() as u64;
    Ok(())
}

/// Sends these commands, for which the job waits.
pub fn rest(
    alloc: Global,
    effects: &mut Effects,
    kind: JobKind,
    work: Work,
    awaited: AwaitedCommands,
) -> Result<Turn, Memory>
    requires some { awaited ≢ [] }
    requires low { effects.old.nonce + length awaited < 2 ^ 64 }
    ensures turn { IfOk result (λ turn. RestsOr awaited kind work effects.old turn effects.new) }
    ensures settled { IfOk result IsSettled }
    ensures kind { IfOk result (GoesOnAs kind) }
    ensures job { IfOk result (RestsAs (record { kind = kind; work = work_of work; awaited = awaited; heard = [] })) }
{
    send_all(alloc, effects, awaited.as_slice())?;
    Ok(Turn::Rests(RunningJob {
        kind,
        work,
        awaited,
        heard: Sequence::new(alloc),
    }))
}
