ghost use Rattle.std.specs.Prelude.{◌≡◌, ◌<◌, ◌+◌, ◌^◌, ◌++◌, ◌∷◌, [], Ok, length, IfOk, OnOk};
ghost use Rattle.layout_ops.specs.declared.envelope.Envelope.TheVariants as envelope;
ghost use Rattle.layout_ops.specs.Reading.{envelope_of};
ghost use Rattle.layout_ops.specs.Spelling.{IsFileHandle, ResultsWritable};
ghost use Rattle.server_rules.specs.declared.server.Outgoing.TheVariants.{Recalls, Answers, AnswersOrder};
ghost use Rattle.server_rules.specs.Answers.{recall_of, recalls_from};
ghost use Rattle.server_rules.specs.Envelopes.{bytes_of};
ghost use Rattle.server_requests.specs.Sending.{sent_as, all_sent};

use crate::layout_answer::stateid_of;
use crate::outgoing::{Sends, Sent};
use layout_ops::{
    Answer, Envelope, LAYOUTIOMODE4_ANY, LayoutRecallArgs, OrderAnswer, Recall, write_envelope,
};
use osd_lists::{Bytes, Memory, Node};
use server_rules::{Grant, RECALL_NUMBERS, WHOLE_FILE};
use std::alloc::Global;

// The recall of a grant: all layouts of the file, by the low 32 bits of the count.
fn recall_of(alloc: Global, grant: &Grant, count: u64) -> Result<Recall, Memory>
    ensures value { IfOk result (λ recall. recall ≡ recall_of grant.now count) }
    ensures handle { IfOk result (λ recall. IsFileHandle recall.args.file) }
{
    Ok(Recall {
        client: grant.client,
        number: (count % RECALL_NUMBERS) as u32,
        file: grant.file,
        args: LayoutRecallArgs {
            iomode: LAYOUTIOMODE4_ANY,
            changed: false,
            file: Bytes::copied(alloc, &grant.file.to_be_bytes())?,
            offset: 0,
            length: WHOLE_FILE,
            stateid: stateid_of(grant.number),
        },
    })
}

// Sends the recall of a grant to its holder.
fn send_recall(alloc: Global, sends: &mut Sends, grant: &Grant, count: u64) -> Result<(), Memory>
    ensures { OnOk result (sends.new ≡ sends.old ++ sent_as (Recalls (recall_of grant.now count)) ∷ []) }
{
    let recall = recall_of(alloc, grant, count)?;
    let to = Node::Client(recall.client);
    let bytes = write_envelope(alloc, &Envelope::Recall(recall))?;
    sends.push(Sent { to, bytes })
}

/// Sends the recalls of some grants to their holders, in order, counted from `first`.
#[tactic(auto, unfolding(server_rules::specs::Answers::recalls_from))]
pub fn send_recalls(
    alloc: Global,
    sends: &mut Sends,
    grants: &[Grant],
    first: u64,
) -> Result<(), Memory>
    requires { first + length grants.now < 2 ^ 64 }
    ensures { OnOk result (sends.new ≡ sends.old ++ all_sent (recalls_from first grants.now)) }
{
    let mut count = first;
    for grant in grants {
        send_recall(alloc, sends, grant, count)?;
        count += 1;
    }
    Ok(())
}

/// The bytes of an answer.
pub fn answer_bytes(alloc: Global, answer: Answer) -> Result<Bytes, Memory>
    requires { ResultsWritable answer.results }
    ensures spelled { IfOk result (λ bytes. bytes ≡ bytes_of (Answers answer)) }
    ensures read_back { IfOk result (λ bytes. envelope_of bytes ≡ Ok (envelope.Answer answer)) }
{
    write_envelope(alloc, &Envelope::Answer(answer))
}

/// Sends the answer to an order.
pub fn send_order_answer(
    alloc: Global,
    sends: &mut Sends,
    answer: OrderAnswer,
) -> Result<(), Memory>
    ensures { OnOk result (sends.new ≡ sends.old ++ sent_as (AnswersOrder answer) ∷ []) }
{
    let bytes = write_envelope(alloc, &Envelope::OrderAnswer(answer))?;
    let to = Node::Server;
    sends.push(Sent { to, bytes })
}
