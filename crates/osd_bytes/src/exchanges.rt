ghost use Rattle.std.specs.Prelude.{◌≡◌, ◌≤◌, ◌++◌, ℕ, List, None, length, OnOk, OnErr};
ghost use Rattle.osd_bytes.specs.Connections.{Standing};
ghost use Rattle.osd_bytes.specs.Counts.{HasLinkCause, asking_count};
ghost use Rattle.osd_bytes.specs.Exchanges.{Exchanges, HasExchangeCause, ReceivesFirst, WasSent};
ghost use Rattle.osd_bytes.specs.declared.records.TheConstants.{MAX_RECORD};

use crate::links::Links;
use crate::records::{RecordErr, Records, frame};
use crate::source::Fault;
use osd_lists::{Bytes, Memory, Node};
use std::alloc::Global;
use thiserror::Error;

/// Why an exchange gave no record.
#[derive(Clone, Copy, Debug, PartialEq, Eq, Error)]
pub enum ExchangeErr {
    /// A call of the links failed.
    #[error("the connection failed")]
    LinkFault,
    /// The connection ended before a whole record.
    #[error("the connection ended before a whole record")]
    Ended,
    /// The first record that came is too long, as [`RecordErr::TooLong`] says.
    #[error("a record is too long")]
    TooLong,
    /// There was no memory.
    #[error("out of memory")]
    Memory,
}

impl From<Memory> for ExchangeErr {
    ghost use Rattle.osd_bytes.specs.declared.exchanges.ExchangeErr.TheVariants.{Memory};

    ghost from_gives = { λ _ e. e ≡ Memory };

    fn from(_: Memory) -> Self {
        ExchangeErr::Memory
    }
}

impl From<Fault> for ExchangeErr {
    ghost use Rattle.osd_bytes.specs.declared.exchanges.ExchangeErr.TheVariants.{LinkFault};

    ghost from_gives = { λ _ e. e ≡ LinkFault };

    fn from(_: Fault) -> Self {
        ExchangeErr::LinkFault
    }
}

// How many bytes are received at once at most.
const PIECE: usize = 4096;

// Sends all of the bytes.
fn send_all<L: Links>(links: &mut L, bytes: &[u8]) -> Result<(), Fault>
    ensures ok { OnOk result (WasSent (L.told links.old) (L.told links.new) bytes.now) }
    ensures err { OnErr result ((sent more : List ℕ) × (bytes.now ≡ sent ++ more) ×
        WasSent (L.told links.old) (L.told links.new) sent) }
    ensures standing { L.standing links.new ≡ L.standing links.old }
    ensures cause { HasLinkCause (asking_count (L.standing links.old).asked) (L.faults links.old)
        (L.faults links.new) result }
{
    let mut at = 0;
    while at < bytes.len() {
        let (_, rest) = bytes.split_at(at);
        at += links.send(rest)?;
    }
    Ok(())
}

// The first record that comes.
fn receive_record<L: Links>(alloc: Global, links: &mut L) -> Result<Bytes, ExchangeErr>
    ensures told { ReceivesFirst (L.told links.old) (L.told links.new) result }
    ensures standing { L.standing links.new ≡ L.standing links.old }
    ensures cause { HasExchangeCause (asking_count (L.standing links.old).asked) (L.faults links.old)
        (L.faults links.new) result }
{
    let mut records = Records::new(alloc);
    let mut piece = [0; PIECE];
    loop {
        let n = links.receive(&mut piece)?;
        if n == 0 {
            return Err(ExchangeErr::Ended);
        }
        let (came, _) = piece.split_at(n);
        match records.first_of(came) {
            Ok(Some(record)) => return Ok(record),
            Ok(None) => {}
            Err(RecordErr::TooLong) => return Err(ExchangeErr::TooLong),
            Err(RecordErr::Memory) => return Err(ExchangeErr::Memory),
        }
    }
}

// Asks over a new connection, which stays open.
fn ask<L: Links>(
    alloc: Global,
    links: &mut L,
    to: Node,
    message: &[u8],
) -> Result<Bytes, ExchangeErr>
    requires { length message.now ≤ MAX_RECORD }
    ensures told { Exchanges to message.now (L.told links.old) (L.told links.new) result }
    ensures standing { record (L.standing links.new) { asked = None } ≡ record (L.standing links.old) { asked = None } }
    ensures cause { HasExchangeCause (asking_count (Some to)) (L.faults links.old) (L.faults links.new) result }
{
    let bytes = frame(alloc, message)?;
    links.connect(to)?;
    send_all(links, bytes.as_slice())?;
    receive_record(alloc, links)
}

/// Sends a message to a node over a new connection, as a record, and gives the first record that
/// comes. What follows that isn't looked at. The connection is closed at the end, also after a
/// refusal.
pub fn exchange<L: Links>(
    alloc: Global,
    links: &mut L,
    to: Node,
    message: &[u8],
) -> Result<Bytes, ExchangeErr>
    requires { length message.now ≤ MAX_RECORD }
    ensures told { Exchanges to message.now (L.told links.old) (L.told links.new) result }
    ensures standing { L.standing links.new ≡ record (L.standing links.old) { asked = None } }
    ensures cause { HasExchangeCause (asking_count (Some to)) (L.faults links.old) (L.faults links.new) result }
{
    let answer = ask(alloc, links, to, message);
    links.hang_up();
    answer
}
