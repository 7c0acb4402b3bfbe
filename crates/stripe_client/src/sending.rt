// What a step sends, as bytes.
ghost use Rattle.std.specs.Prelude.{◌≡◌, ◌++◌, map, IfOk, OnOk};
ghost use Rattle.client_rules.specs.Messages.{to_drive, closed};
ghost use Rattle.client_rules.specs.declared.client.Outgoing.TheVariants.{AnswersRecall, Asks};
ghost use Rattle.stripe_client.specs.States.{list_of, client_of, done_of};
ghost use Rattle.stripe_client.specs.Sending.{sent_of, IsStep};

use crate::outstanding::Outstanding;
use crate::state::{Made, State};
use client_rules::{Awaited, Outcome};
use layout_ops::{Envelope, RecallAnswer, write_envelope};
use osd_commands::write_command;
use osd_lists::{Bytes, Memory, Node, Sequence};
use std::alloc::Global;

/// A message that a client sends.
#[derive(PartialEq, Drop)]
pub struct Sent {
    pub to: Node,
    pub bytes: Bytes,
}

/// Messages that a client sends, in order.
pub type Sends = Sequence<Sent>;

/// What a step of a client does for others: messages, and how a call ended.
#[derive(Drop)]
pub struct CStep {
    /// The answer to a recall, then a request, then commands by stripe, component and offset.
    pub sends: Sends,
    /// How the pending call ended, where it did.
    pub outcome: Option<Outcome>,
}

// The answer to a recall.
fn push_recall(sends: &mut Sends, alloc: Global, recall: Option<RecallAnswer>) -> Result<(), Memory>
    ensures { OnOk result (sends.new ≡ sends.old ++ map sent_of (map AnswersRecall (list_of recall))) }
{
    if let Some(answer) = recall {
        let envelope = Envelope::RecallAnswer(answer);
        let bytes = write_envelope(alloc, &envelope)?;
        sends.push(Sent {
            to: Node::Server,
            bytes,
        })?;
    }
    Ok(())
}

/// The outstanding request.
pub fn push_request(
    sends: &mut Sends,
    alloc: Global,
    outstanding: &Outstanding,
) -> Result<(), Memory>
    ensures { OnOk result (sends.new ≡ sends.old ++ map sent_of (map Asks (list_of outstanding.now))) }
{
    if let Some(bytes) = outstanding.spelled(alloc)? {
        sends.push(Sent {
            to: Node::Server,
            bytes,
        })?;
    }
    Ok(())
}

/// Commands to the drives.
pub fn push_commands(sends: &mut Sends, alloc: Global, commands: &[Awaited]) -> Result<(), Memory>
    ensures { OnOk result (sends.new ≡ sends.old ++ map sent_of (map to_drive commands.now)) }
{
    for awaited in commands {
        let bytes = write_command(alloc, &awaited.command)?;
        sends.push(Sent {
            to: Node::Drive(awaited.drive),
            bytes,
        })?;
    }
    Ok(())
}

/// What was done, as a step.
pub fn close(alloc: Global, state: &State, made: Made) -> Result<CStep, Memory>
    ensures { IfOk result (λ s. IsStep (closed (done_of state.now made)) (client_of state.now) s) }
{
    let mut sends = Sends::new(alloc);
    push_recall(&mut sends, alloc, made.recall)?;
    if made.asked {
        push_request(&mut sends, alloc, &state.outstanding)?;
    }
    push_commands(&mut sends, alloc, made.commands.as_slice())?;
    Ok(CStep {
        sends,
        outcome: made.outcome,
    })
}
