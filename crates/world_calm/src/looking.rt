ghost use Rattle.std.specs.Prelude.{◌≡◌, ◌==◌, find, slice_get, IfOk};
ghost use Rattle.std.specs.Option.{option_copied};
ghost use Rattle.world_history.specs.Calm.{returned_at};
ghost use Rattle.world_calm.specs.Seeing.{is_fail, mark_of, writes};

use crate::calls::LogEntry;
use crate::files::StripeOf;
use crate::marks::NewMark;
use crate::reading::returned_by;
use osd_lists::Memory;
use scenario_text::{Call, Event, Line, Party};
use server_rules::Mended;
use std::alloc::Global;
use world_history::Sent;
use world_network::Network;

/// The repair of a file that is over.
pub fn mended_of(mended: &[Mended], file: u32) -> Option<&Mended>
    ensures { option_copied result ≡ find (λ r. r.file == file) mended.now }
{
    for repair in mended {
        if repair.file == file {
            return Some(repair);
        }
    }
    None
}

/// A message of that number, if it was sent.
pub fn sent_at(network: &Network, number: usize) -> Option<&Sent>
    ensures { option_copied result ≡ slice_get network.now.messages number }
{
    if number < network.len() {
        Some(network.message(number))
    } else {
        None
    }
}

/// The grant that is returned to the server by a message, if it says so.
pub fn returned_at(alloc: Global, network: &Network, head: &Line) -> Result<Option<u32>, Memory>
    ensures { IfOk result (λ grant. grant ≡ returned_at network.now.messages head.now) }
{
    let number = match head {
        Line::Delivered { message, .. } => *message as usize,
        _ => return Ok(None),
    };
    match sent_at(network, number) {
        Some(sent) => match sent.to {
            Party::Server => returned_by(alloc, sent.bytes.as_slice()),
            _ => Ok(None),
        },
        None => Ok(None),
    }
}

/// Whether a call writes.
pub fn writes(call: &Call) -> bool
    ensures { result ≡ writes call.now }
{
    match call {
        Call::Write { .. } => true,
        Call::Read { .. } => false,
    }
}

/// Whether a drive fails at a line.
pub fn is_fail(head: &Line) -> bool
    ensures { result ≡ is_fail head.now }
{
    match head {
        Line::Event {
            event: Event::Fail { .. },
        } => true,
        _ => false,
    }
}

/// The mark of a WRITE of a write in a stripe.
pub fn mark_of(write: usize, entry: LogEntry, stripe: StripeOf) -> NewMark
    ensures { result ≡ mark_of write entry stripe }
{
    NewMark {
        write,
        client: entry.client,
        grant: entry.grant,
        file: stripe.file,
        stripe: stripe.stripe,
    }
}
