// What answers the records of a drive.
ghost use Rattle.std.specs.Prelude.{◌≡◌, None, OnOk, OnErr};
ghost use Rattle.drive_command.specs.Refusals.{last_told, lines_told};
ghost use Rattle.drive_command.specs.declared.device_server.HandleErr.TheVariants.{DiskFault};
ghost use Rattle.drive_loop.specs.Handling.{handler_err_of};
ghost use Rattle.port_loop.specs.Ports.{after_notes};

use drive_command::{DeviceServer, HandleErr, is_told, refusal_line};
use osd_bytes::{Bytes, Memory};
use osd_commands::{Reply, write_reply};
use port_loop::{Handler, HandlerErr, Notes};
use std::alloc::Global;

/// A drive that answers records, and tells whoever watches it of the commands that it refuses.
#[derive(Drop)]
pub struct DriveHandler<H, N> {
    pub(crate) server: H,
    pub(crate) notes: N,
    // The second of the newest line.
    pub(crate) last: Option<u64>,
}

impl<H, N> DriveHandler<H, N> {
    /// Of a drive of which no refusal was told yet.
    pub fn new(server: H, notes: N) -> Self
        ensures { (result.server ≡ server) × (result.notes ≡ notes) × (result.last ≡ None) }
    {
        DriveHandler {
            server,
            notes,
            last: None,
        }
    }

    /// The drive, and who watches it.
    pub fn into_parts(self) -> (H, N)
        ensures { (result.0 ≡ self.server) × (result.1 ≡ self.notes) }
    {
        (self.server, self.notes)
    }
}

// A handler fails if the disk does.
fn handler_err_of(e: HandleErr) -> HandlerErr
    ensures { result ≡ handler_err_of e }
{
    match e {
        HandleErr::DiskFault => HandlerErr::Failed,
        HandleErr::Memory => HandlerErr::Memory,
    }
}

// Tells of a refusal, unless a line was told in this second or a later one: `last` is the second of the newest line.
fn tell_refusal<N: Notes>(
    alloc: Global,
    notes: &mut N,
    last: &mut Option<u64>,
    drive: u32,
    time: u64,
    reply: &Reply,
) -> Result<(), Memory>
    ensures lines { OnOk result (N.noted notes.new ≡ after_notes (lines_told drive last.old time reply.now) (N.noted notes.old)) }
    ensures last { OnOk result (last.new ≡ last_told last.old time reply.now) }
    ensures err { OnErr result (N.noted notes.new ≡ N.noted notes.old) }
{
    if !is_told(*last, time, reply) {
        return Ok(());
    }
    let line = refusal_line(alloc, drive, reply)?;
    notes.note(line.as_bytes())?;
    *last = Some(time);
    Ok(())
}

impl<H: DeviceServer, N: Notes> Handler for DriveHandler<H, N> {
    ghost use Rattle.std.specs.Prelude.{false};
    ghost use Rattle.osd_drive.specs.State.{DriveState};
    ghost use Rattle.osd_drive.specs.Effects.{drive_after};
    ghost use Rattle.drive_command.specs.Records.{reply_bytes};
    ghost use Rattle.drive_loop.specs.Handling.{AnswersOne, BreaksOne};

    ghost State = { DriveState };

    ghost state = { λ d. H.drive d.server };

    ghost faults = { λ d. H.faults d.server };

    ghost reply_to = { reply_bytes };

    ghost state_after = { drive_after };

    ghost goes_on = { λ d. H.is_over d.server ≡ false };

    ghost handles = { λ time message old new. AnswersOne H.DeviceServer N.Notes time message old new };

    ghost fails = { λ time message is_handled old new. BreaksOne H.DeviceServer N.Notes time message is_handled old new };

    fn handle(&mut self, alloc: Global, now: u64, message: &[u8]) -> Result<Bytes, HandlerErr> {
        let number = self.server.number();
        let reply = match self.server.handle(alloc, now, message) {
            Ok(reply) => reply,
            Err(e) => return Err(handler_err_of(e)),
        };
        tell_refusal(alloc, &mut self.notes, &mut self.last, number, now, &reply)?;
        let bytes = write_reply(alloc, &reply)?;
        Ok(bytes)
    }
}
