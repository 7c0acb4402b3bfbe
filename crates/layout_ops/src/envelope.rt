ghost use Rattle.std.specs.Prelude.{◌≡◌, ◌++◌, Ok, IfOk, OnOk};
ghost use Rattle.layout_types.specs.Grammar.{BeginsNoOther};
ghost use Rattle.layout_ops.specs.Grammar.{Gives, GivesOrMemory};
ghost use Rattle.layout_ops.specs.Spelling.{envelope_item, EnvelopeFits, EnvelopeWritable};
ghost use Rattle.layout_ops.specs.Reading.{envelope_in, envelope_of};

use crate::err::OpErr;
use crate::messages::{Answer, Request, put_answer, put_request, read_answer, read_request};
use crate::orders::{
    Order, OrderAnswer, put_order, put_order_answer, read_order, read_order_answer,
};
use crate::parts::read_u32;
use crate::recalls::{
    Recall, RecallAnswer, put_recall, put_recall_answer, read_recall, read_recall_answer,
};
use layout_types::LayoutErr;
use osd_lists::{Bytes, Memory};
use std::alloc::Global;
use xdr_codec::{Reader, Writer};

/// A message between a client and the server. Its form is this project's own.
#[derive(PartialEq, Drop)]
pub enum Envelope {
    /// 1: a client asks the server.
    Request(Request),
    /// 2: the server answers.
    Answer(Answer),
    /// 3: the server asks a layout back.
    Recall(Recall),
    /// 4: the client answers that.
    RecallAnswer(RecallAnswer),
    /// 5: an order to the server.
    Order(Order),
    /// 6: what the server says to it.
    OrderAnswer(OrderAnswer),
}

#[tactic(auto, unfolding(crate::specs::Reading::envelope_in))]
fn read_message(alloc: Global, reader: &mut Reader<'_>) -> Result<Envelope, OpErr>
    ensures { Gives (envelope_in reader.old) result reader.new }
{
    let at = reader.place();
    let value = read_u32(reader)?;
    match value {
        1 => Ok(Envelope::Request(read_request(alloc, reader)?)),
        2 => Ok(Envelope::Answer(read_answer(alloc, reader)?)),
        3 => Ok(Envelope::Recall(read_recall(alloc, reader)?)),
        4 => Ok(Envelope::RecallAnswer(read_recall_answer(reader)?)),
        5 => Ok(Envelope::Order(read_order(reader)?)),
        6 => Ok(Envelope::OrderAnswer(read_order_answer(reader)?)),
        _ => Err(OpErr::Layout(LayoutErr::BadEnum { at, value })),
    }
}

fn put_message(writer: &mut Writer, envelope: &Envelope) -> Result<(), Memory>
    requires { EnvelopeWritable envelope.now }
    ensures written { OnOk result (writer.new ≡ writer.old ++ envelope_item envelope.now) }
    ensures fits { OnOk result (EnvelopeFits envelope.now) }
{
    match envelope {
        Envelope::Request(request) => {
            writer.u32(1)?;
            put_request(writer, request)
        }
        Envelope::Answer(answer) => {
            writer.u32(2)?;
            put_answer(writer, answer)
        }
        Envelope::Recall(recall) => {
            writer.u32(3)?;
            put_recall(writer, recall)
        }
        Envelope::RecallAnswer(answer) => {
            writer.u32(4)?;
            put_recall_answer(writer, answer)
        }
        Envelope::Order(order) => {
            writer.u32(5)?;
            put_order(writer, order)
        }
        Envelope::OrderAnswer(answer) => {
            writer.u32(6)?;
            put_order_answer(writer, answer)
        }
    }
}

// The message that all of the bytes spell, or the first refusal.
#[tactic(auto, unfolding(crate::specs::Reading::envelope_of, crate::specs::Grammar::whole))]
fn read_whole(alloc: Global, bytes: &[u8]) -> Result<Envelope, OpErr>
    ensures { GivesOrMemory (envelope_of bytes.now) result }
{
    let mut reader = Reader::new(bytes);
    let envelope = read_message(alloc, &mut reader)?;
    reader.finish()?;
    Ok(envelope)
}

fn write_whole(alloc: Global, envelope: &Envelope) -> Result<Bytes, Memory>
    requires { EnvelopeWritable envelope.now }
    ensures spelled { IfOk result (λ b. b ≡ envelope_item envelope.now) }
    ensures fits { OnOk result (EnvelopeFits envelope.now) }
{
    let mut writer = Writer::new(alloc);
    put_message(&mut writer, envelope)?;
    Ok(writer.into_bytes())
}

/// The message that the bytes spell, all of them.
///
/// # Errors
///
/// The refusal at the first place at which the bytes are outside the grammar: [`OpErr::Layout`] for
/// an item that isn't well formed, and for the number of a kind of message, of an order or of its
/// result that isn't listed; [`OpErr::UnknownOp`] for an operation that the kind of message can't
/// carry; [`OpErr::WrongLayoutType`] for a layout type other than 2; [`OpErr::WrongReturn`] for a
/// return or a recall of a kind other than 1. Bytes that follow are refused last, as `Trailing`.
/// [`OpErr::Memory`] where there is no memory.
pub fn read_envelope(alloc: Global, bytes: &[u8]) -> Result<Envelope, OpErr>
    // What is read is spelled so.
    ensures found { IfOk result (λ v. EnvelopeFits v × (bytes.now ≡ envelope_item v)) }
    // What is read may be written again.
    ensures writable { IfOk result EnvelopeWritable }
    // What is spelled so is read.
    ensures only { (v : Envelope) → EnvelopeFits v → bytes.now ≡ envelope_item v → GivesOrMemory (Ok v) result }
    // No spelling begins another.
    ensures alone { IfOk result (λ v. BeginsNoOther EnvelopeFits envelope_item bytes.now) }
    // Which refusal it is.
    ensures exact { GivesOrMemory (envelope_of bytes.now) result }
{
    read_whole(alloc, bytes)
}

/// The one spelling of a message. The caller has to know that bodies, file names and lists are within
/// their largest lengths, and that the status of a refusal isn't one that has fields of its own:
/// [`NFS4_OK`](crate::NFS4_OK), and for LAYOUTGET also
/// [`NFS4ERR_LAYOUTTRYLATER`](crate::NFS4ERR_LAYOUTTRYLATER).
pub fn write_envelope(alloc: Global, envelope: &Envelope) -> Result<Bytes, Memory>
    requires { EnvelopeWritable envelope.now }
    // What is written spells the message.
    ensures spelled { IfOk result (λ b. b ≡ envelope_item envelope.now) }
    ensures fits { OnOk result (EnvelopeFits envelope.now) }
    // What is written is read back.
    ensures read_back { IfOk result (λ b. envelope_of b ≡ Ok envelope.now) }
{
    write_whole(alloc, envelope)
}
