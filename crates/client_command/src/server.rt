// An exchange with the server.
ghost use Rattle.std.specs.Prelude.{◌≡◌, ◌↔◌, IfOk, IsTrue, IsErrOf, OnOk};
ghost use Rattle.osd_lists.specs.declared.node.Node.TheVariants.{Server};
ghost use Rattle.cluster_text.specs.Peers.{KeepsAddresses};
ghost use Rattle.client_command.specs.declared.exchanges.DealErr.TheVariants.{LinkFault, Memory as NoMemory};
ghost use Rattle.client_command.specs.Exchanges.{CutsExchange, AsksServer, AwaitsStill, IsRequest, LosesServer, dealing_at};

use crate::drive::hear_reply;
use crate::exchanges::DealErr;
use crate::notices::Notices;
use osd_bytes::{Links, asked};
use osd_lists::{Memory, Node};
use reply_matching::is_answer_to;
use std::alloc::Global;
use stripe_client::{ClientCore, Sends, Sent};

// Whether what is sent is this message to the server.
fn is_request(sent: &Sent, message: &[u8]) -> bool
    ensures { IsTrue result ↔ IsRequest sent.now message.now }
{
    match sent.to {
        Node::Server => sent.bytes.as_slice() == message,
        Node::Drive(_) | Node::Client(_) => false,
    }
}

// Whether the answer to a request is awaited still. The outstanding request is the first of what is sent once more.
fn awaits_still(core: &ClientCore, message: &[u8]) -> Result<bool, Memory>
    ensures { IfOk result (λ still. IsTrue still ↔ AwaitsStill core.now message.now) }
{
    let sends = core.resend()?;
    if sends.is_empty() {
        return Ok(false);
    }
    Ok(is_request(sends.get(0), message))
}

/// Sends a message to the server, and gives the client the record that comes, if that answers the message. A server
/// answers the last sequence number of a client with the answer that it kept, whatever is asked under that number now.
/// So the client hears an answer only if its file and its operation are the request's too.
///
/// # Errors
///
/// [`DealErr::LinkFault`] exactly if no record came, one that doesn't answer the message, which the client then
/// hasn't heard, or an answer that the client doesn't take: it is awaited still. Want of memory: the exchange was cut off,
/// or there was none for what came of it.
pub(crate) fn exchange_with_server<L: Links>(
    alloc: Global,
    core: &mut ClientCore,
    links: &mut L,
    message: &[u8],
    waiting: &mut Sends,
    notices: &mut Notices,
) -> Result<(), DealErr>
    ensures asks { OnOk result (AsksServer message.now
        (dealing_at L.Links links.old core.old waiting.old notices.old)
        (dealing_at L.Links links.new core.new waiting.new notices.new)) }
    ensures loses { IsErrOf result LinkFault → LosesServer message.now
        (dealing_at L.Links links.old core.old waiting.old notices.old)
        (dealing_at L.Links links.new core.new waiting.new notices.new) }
    ensures cuts { IsErrOf result NoMemory → CutsExchange Server message.now (L.told links.old) (L.told links.new)
        (L.faults links.old) (L.faults links.new) }
    ensures addresses { KeepsAddresses (L.standing links.old) (L.standing links.new) }
{
    match asked(alloc, links, Node::Server, message)? {
        Some(record) => {
            if !is_answer_to(alloc, message, record.as_slice())? {
                return Err(DealErr::LinkFault);
            }
            hear_reply(alloc, core, Node::Server, Some(record), waiting, notices)?;
            if awaits_still(core, message)? {
                return Err(DealErr::LinkFault);
            }
            Ok(())
        }
        None => Err(DealErr::LinkFault),
    }
}
