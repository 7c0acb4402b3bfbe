ghost use Rattle.std.specs.Prelude.{◌≡◌, ◌++◌, ◌∷◌, [], OnOk};
ghost use Rattle.layout_ops.specs.Spelling.{ResultsWritable};
ghost use Rattle.server_rules.specs.declared.server.Outgoing.TheVariants.{Answers};
ghost use Rattle.server_rules.specs.Slots.{keep};
ghost use Rattle.server_requests.specs.Sending.{sent_as};

use crate::slots::{KeptAnswer, Slots, keep};
use layout_ops::Answer;
use osd_lists::{Bytes, Memory, Node};
use server_requests::{Sends, Sent, answer_bytes};
use std::alloc::Global;

/// Sends an answer to its client, which no slot keeps.
pub fn send_answer(alloc: Global, sends: &mut Sends, answer: Answer) -> Result<(), Memory>
    requires { ResultsWritable answer.results }
    ensures { OnOk result (sends.new ≡ sends.old ++ sent_as (Answers answer) ∷ []) }
{
    let to = Node::Client(answer.client);
    let bytes = answer_bytes(alloc, answer)?;
    sends.push(Sent { to, bytes })
}

/// Sends an answer to its client, and keeps it as the last one in the client's slot.
pub fn answer_to(
    alloc: Global,
    slots: &mut Slots,
    sends: &mut Sends,
    answer: Answer,
) -> Result<(), Memory>
    requires { ResultsWritable answer.results }
    ensures kept { OnOk result (slots.new
        ≡ keep slots.old (record { client = answer.client; last = answer.sequence; kept = answer })) }
    ensures sent { OnOk result (sends.new ≡ sends.old ++ sent_as (Answers answer) ∷ []) }
{
    let client = answer.client;
    let sequence = answer.sequence;
    let bytes = answer_bytes(alloc, answer)?;
    let copy = Bytes::copied(alloc, bytes.as_slice())?;
    keep(slots, KeptAnswer::new(client, sequence, copy))?;
    let to = Node::Client(client);
    sends.push(Sent { to, bytes })
}
