ghost use Rattle.std.specs.Prelude.{◌≡◌, ◌++◌, ℕ, List, length, IfOk, OnOk, OnErr};
ghost use Rattle.osd_bytes.specs.Counts.{HasLinkCause};
ghost use Rattle.osd_bytes.specs.Inboxes.{HasPutCause, PutsFrame, WasPut};

use crate::links::Links;
use crate::records::{MAX_RECORD, frame};
use crate::source::Fault;
use osd_lists::Memory;
use std::alloc::Global;

// Puts all of the bytes on the accepted connection.
fn put_all<L: Links>(links: &mut L, bytes: &[u8]) -> Result<(), Fault>
    ensures ok { OnOk result (WasPut (L.told links.old) (L.told links.new) bytes.now) }
    ensures err { OnErr result ((sent more : List ℕ) × (bytes.now ≡ sent ++ more) ×
        WasPut (L.told links.old) (L.told links.new) sent) }
    ensures standing { L.standing links.new ≡ L.standing links.old }
    ensures cause { HasLinkCause (λ f. f.accepted) (L.faults links.old) (L.faults links.new) result }
{
    let mut at = 0;
    while at < bytes.len() {
        let (_, rest) = bytes.split_at(at);
        at += links.put(rest)?;
    }
    Ok(())
}

/// Puts a message on the accepted connection, as one record, and tells whether all of it went out.
/// If it didn't, a call of the links failed, or the message is longer than [`MAX_RECORD`] bytes.
///
/// # Errors
///
/// [`Memory`]; then nothing went out.
pub fn put_record<L: Links>(alloc: Global, links: &mut L, message: &[u8]) -> Result<bool, Memory>
    ensures put { IfOk result (λ all. PutsFrame all message.now (L.told links.old) (L.told links.new)) }
    ensures cause { IfOk result (λ all. HasPutCause all message.now (L.faults links.old) (L.faults links.new)) }
    ensures none { OnErr result ((L.told links.new ≡ L.told links.old) × (L.faults links.new ≡ L.faults links.old)) }
    ensures standing { L.standing links.new ≡ L.standing links.old }
{
    if message.len() > MAX_RECORD {
        return Ok(false);
    }
    let bytes = frame(alloc, message)?;
    Ok(put_all(links, bytes.as_slice()).is_ok())
}
