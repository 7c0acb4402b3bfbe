ghost use Rattle.std.specs.Prelude.{◌≡◌, IfOk, Some};
ghost use Rattle.std.specs.Option.{option_map};
ghost use Rattle.layout_types.specs.Grammar.{whole};
ghost use Rattle.layout_types.specs.Reading.{update_in, ioerrs_in};
ghost use Rattle.layout_ops.specs.Reading.{envelope_of};
ghost use Rattle.layout_ops.specs.declared.envelope.Envelope.TheVariants as envelope;
ghost use Rattle.server_rules.specs.Envelopes.{commit_in, return_in, asked_in, in_envelope, by_envelope, by_reply, message_in};
ghost use Rattle.osd_commands.specs.Replies.{reading};
ghost use Rattle.server_requests.specs.Reading.{message_rule, messages_rule};

use layout_ops::{
    Args, Envelope, LayoutCommitArgs, LayoutReturnArgs, OpErr, Order, Request, read_envelope,
};
use layout_types::{IoErrs, LayoutErr, LayoutUpdate, Structure};
use osd_commands::{CommandErr, Reply, read_reply};
use osd_lists::{Memory, Node};
use server_rules::{ClientRequest, RequestArgs};
use std::alloc::Global;

/// What the server takes.
#[derive(Drop)]
pub enum Message {
    /// A client's request.
    Asks(ClientRequest),
    /// A drive's reply.
    Replies(Reply),
    /// An order.
    Orders(Order),
}

// A commit whose update can be read.
fn commit_in(alloc: Global, args: &LayoutCommitArgs) -> Result<Option<RequestArgs>, Memory>
    ensures { IfOk result (λ asked. asked ≡ commit_in args.now.last_write_offset (whole update_in args.now.body)) }
{
    match LayoutUpdate::read(alloc, args.body.as_slice()) {
        Ok(_) => Ok(Some(RequestArgs::Commit {
            last: args.last_write_offset,
        })),
        Err(LayoutErr::Memory) => Err(Memory),
        Err(_) => Ok(None),
    }
}

// A return whose report can be read.
fn return_in(alloc: Global, args: &LayoutReturnArgs) -> Result<Option<RequestArgs>, Memory>
    ensures { IfOk result (λ asked. asked ≡ return_in (whole ioerrs_in args.now.body)) }
{
    match IoErrs::read(alloc, args.body.as_slice()) {
        Ok(errors) => Ok(Some(RequestArgs::Return {
            report: errors.olr_ioerr_report,
        })),
        Err(LayoutErr::Memory) => Err(Memory),
        Err(_) => Ok(None),
    }
}

// What a request asks, where its body can be read.
fn asked_in(alloc: Global, args: &Args) -> Result<Option<RequestArgs>, Memory>
    ensures { IfOk result (λ asked. asked ≡ asked_in args.now) }
{
    match args {
        Args::LayoutGet(args) => Ok(Some(RequestArgs::Get {
            iomode: args.iomode,
            offset: args.offset,
            length: args.length,
        })),
        Args::LayoutCommit(args) => commit_in(alloc, args),
        Args::LayoutReturn(args) => return_in(alloc, args),
    }
}

// The request, where its body can be read.
fn request_in(alloc: Global, request: &Request) -> Result<Option<Message>, Memory>
    ensures { IfOk result (λ m. messages_rule m ≡ in_envelope (envelope.Request request.now)) }
{
    match asked_in(alloc, &request.args)? {
        Some(args) => Ok(Some(Message::Asks(ClientRequest {
            client: request.client,
            sequence: request.sequence,
            file: request.file,
            args,
        }))),
        None => Ok(None),
    }
}

// Requests and orders are for the server; it takes no other envelope.
fn in_envelope(alloc: Global, envelope: &Envelope) -> Result<Option<Message>, Memory>
    ensures { IfOk result (λ m. messages_rule m ≡ in_envelope envelope.now) }
{
    match envelope {
        Envelope::Request(request) => request_in(alloc, request),
        Envelope::Order(order) => Ok(Some(Message::Orders(*order))),
        _ => Ok(None),
    }
}

// The message of an envelope that the bytes spell.
fn by_envelope(alloc: Global, bytes: &[u8]) -> Result<Option<Message>, Memory>
    ensures { IfOk result (λ m. messages_rule m ≡ by_envelope (envelope_of bytes.now)) }
{
    match read_envelope(alloc, bytes) {
        Ok(envelope) => in_envelope(alloc, &envelope),
        Err(OpErr::Memory) => Err(Memory),
        Err(_) => Ok(None),
    }
}

// A reply that the bytes spell.
fn by_reply(alloc: Global, bytes: &[u8]) -> Result<Option<Message>, Memory>
    ensures { IfOk result (λ m. messages_rule m ≡ by_reply (reading bytes.now)) }
{
    match read_reply(alloc, bytes) {
        Ok(reply) => Ok(Some(Message::Replies(reply))),
        Err(CommandErr::Memory) => Err(Memory),
        Err(_) => Ok(None),
    }
}

/// The message that bytes from a node are to the server, `None` exactly where they are none: drives send
/// replies, and all others requests and orders. A request whose body can't be read is none either.
#[tactic(auto, unfolding(server_rules::specs::Envelopes::message_in))]
pub fn message_in(alloc: Global, from: Node, bytes: &[u8]) -> Result<Option<Message>, Memory>
    ensures { IfOk result (λ m. messages_rule m ≡ message_in from bytes.now) }
{
    match from {
        Node::Drive(_) => by_reply(alloc, bytes),
        Node::Server | Node::Client(_) => by_envelope(alloc, bytes),
    }
}
