ghost use Rattle.std.specs.Prelude.{◌≡◌, IfOk, OnErr};
ghost use Rattle.osd_bytes.specs.Asking.{Answered, IsCutOff};

use crate::exchanges::{ExchangeErr, exchange};
use crate::links::Links;
use crate::records::MAX_RECORD;
use osd_lists::{Bytes, Memory, Node};
use std::alloc::Global;

/// Sends a message to a node over a new connection and gives the first record that comes. There is none where
/// the exchange was refused for another cause than memory, or where the message is longer than a record may be,
/// which is 300,000 bytes.
///
/// # Errors
///
/// [`Memory`]; then the exchange was cut off: what was sent is a part of the message's frame, from the front.
pub fn asked<L: Links>(
    alloc: Global,
    links: &mut L,
    to: Node,
    message: &[u8],
) -> Result<Option<Bytes>, Memory>
    ensures came { IfOk result (λ came. Answered to message.now
        (L.told links.old) (L.told links.new) (L.faults links.old) (L.faults links.new) came) }
    ensures cut { OnErr result (IsCutOff to message.now
        (L.told links.old) (L.told links.new) (L.faults links.old) (L.faults links.new)) }
    ensures listen { (L.standing links.new).listen ≡ (L.standing links.old).listen }
    ensures peers { (L.standing links.new).peers ≡ (L.standing links.old).peers }
{
    if message.len() > MAX_RECORD {
        return Ok(None);
    }
    match exchange(alloc, links, to, message) {
        Ok(record) => Ok(Some(record)),
        Err(ExchangeErr::Memory) => Err(Memory),
        Err(_) => Ok(None),
    }
}
