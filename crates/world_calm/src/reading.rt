ghost use Rattle.std.specs.Prelude.{◌≡◌, ◌==◌, drop, IfOk};
ghost use Rattle.client_rules.specs.Answers.{is_loss_taken};
ghost use Rattle.client_rules.specs.Requests.{grant_in};
ghost use Rattle.client_rules.specs.Results.{status_of};
ghost use Rattle.layout_ops.specs.Reading.{envelope_of};
ghost use Rattle.layout_ops.specs.declared.statuses.TheConstants.{NFS4_OK};
ghost use Rattle.osd_commands.specs.declared.commands.TheConstants.{BLOCK};
ghost use Rattle.osd_commands.specs.Commands.{reading};
ghost use Rattle.world_history.specs.Calm.{is_told_taken, return_in, sent_taken};
ghost use Rattle.world_calm.specs.Read.{command_of, command_with, message_of};

use client_rules::LOSS_TAKEN;
use layout_ops::{
    Answer, Args, Envelope, LayoutCommitResult, LayoutGetResult, LayoutReturnResult, NFS4_OK,
    OpErr, Results, StateId, read_envelope,
};
use osd_commands::{CommandBlock, read_block};
use osd_lists::{Memory, u32_at};
use scenario_text::{Line, Party};
use std::alloc::Global;

/// The block of the command that bytes spell: the rest of them is its payload. It takes no memory.
pub fn block_in(bytes: &[u8]) -> Option<CommandBlock>
    ensures { command_of (reading bytes.now) ≡ command_with (drop BLOCK bytes.now) result }
{
    match read_block(bytes) {
        Ok(block) => Some(block),
        Err(_) => None,
    }
}

// The message between a client and the server that bytes spell.
fn envelope_in(alloc: Global, bytes: &[u8]) -> Result<Option<Envelope>, Memory>
    ensures { IfOk result (λ e. e ≡ message_of (envelope_of bytes.now)) }
{
    match read_envelope(alloc, bytes) {
        Ok(envelope) => Ok(Some(envelope)),
        Err(OpErr::Memory) => Err(Memory),
        Err(_) => Ok(None),
    }
}

// The number of the grant that a stateid names: its last 4 bytes.
fn grant_in(state: &StateId) -> u32
    ensures { result ≡ grant_in state.now }
{
    u32_at(&state.other, 8)
}

/// The grant that is returned by bytes that come to the server.
pub fn returned_by(alloc: Global, bytes: &[u8]) -> Result<Option<u32>, Memory>
    ensures { IfOk result (λ grant. grant ≡ return_in (envelope_of bytes.now)) }
{
    match envelope_in(alloc, bytes)? {
        Some(Envelope::Request(request)) => match &request.args {
            Args::LayoutReturn(args) => Ok(Some(grant_in(&args.stateid))),
            _ => Ok(None),
        },
        _ => Ok(None),
    }
}

// Whether a result has the status of success (`NFS4_OK`, RFC 5661 15.1).
fn is_ok(results: &Results) -> bool
    ensures { result ≡ (status_of results.now == NFS4_OK) }
{
    match results {
        Results::LayoutGet(LayoutGetResult::Granted(_)) => true,
        Results::LayoutGet(LayoutGetResult::TryLater { .. }) => false,
        Results::LayoutGet(LayoutGetResult::Refused { status }) => *status == NFS4_OK,
        Results::LayoutCommit(LayoutCommitResult::Committed { .. }) => true,
        Results::LayoutCommit(LayoutCommitResult::Refused { status }) => *status == NFS4_OK,
        Results::LayoutReturn(LayoutReturnResult::Returned { .. }) => true,
        Results::LayoutReturn(LayoutReturnResult::Refused { status }) => *status == NFS4_OK,
    }
}

// Whether an answer says that a report was taken as a loss.
fn is_loss_taken(answer: &Answer) -> bool
    ensures { result ≡ is_loss_taken answer.now }
{
    is_ok(&answer.results) && answer.detail == LOSS_TAKEN
}

// Whether a line is an answer of the server that says so.
fn says_taken(alloc: Global, line: &Line) -> Result<bool, Memory>
    ensures { IfOk result (λ b. b ≡ sent_taken line.now) }
{
    match line {
        Line::Message {
            from: Party::Server,
            bytes,
            ..
        } => match envelope_in(alloc, bytes.as_slice())? {
            Some(Envelope::Answer(answer)) => Ok(is_loss_taken(&answer)),
            _ => Ok(false),
        },
        _ => Ok(false),
    }
}

/// Whether one of these lines is an answer that says that a report was taken as a loss.
pub fn is_told_taken(alloc: Global, lines: &[Line]) -> Result<bool, Memory>
    ensures { IfOk result (λ b. b ≡ is_told_taken lines.now) }
{
    for line in lines {
        if says_taken(alloc, line)? {
            return Ok(true);
        }
    }
    Ok(false)
}
