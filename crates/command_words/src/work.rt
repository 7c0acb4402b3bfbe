// What a client is asked to do.
ghost use Rattle.std.specs.Prelude.{◌≡◌, IfOk};
ghost use Rattle.command_words.specs.Work.{Gives, IsCall, IsOrder, IsWork, Reads, call_of, order_of};

use osd_lists::Memory;
use scenario_text::{Call, DriveName, Event, EventErr, FileName, read_event};
use std::alloc::Global;

/// An order to the server.
#[derive(Clone, Copy, PartialEq, Eq)]
pub enum Order {
    /// Every grant of the file is recalled.
    Recall(FileName),
    /// The file is fenced and repaired.
    Revoke(FileName),
    /// The drive failed, and is taken out.
    Declare(DriveName),
    /// The missing components of the file are rebuilt.
    Rebuild(FileName),
    /// The file is audited.
    Audit(FileName),
}

/// What a client is asked to do.
#[derive(Drop)]
pub enum ClientWork {
    /// A call of its own.
    Call(Call),
    /// An order that it hands to the server.
    Order(Order),
}

// The event that a line spells.
fn event_in(alloc: Global, line: &[u8]) -> Result<Option<Event>, Memory>
    ensures { IfOk result (Reads line.now) }
{
    match read_event(alloc, line) {
        Ok(Some(event)) => Ok(Some(event)),
        Ok(None) => Ok(None),
        Err(EventErr::Memory) => Err(Memory),
        Err(_) => Ok(None),
    }
}

// The order that an event stands for.
fn order_of(event: &Event) -> Option<Order>
    ensures { result ≡ order_of event.now }
{
    match event {
        Event::Recall { file } => Some(Order::Recall(*file)),
        Event::Revoke { file } => Some(Order::Revoke(*file)),
        Event::Declare { drive } => Some(Order::Declare(*drive)),
        Event::Rebuild { file } => Some(Order::Rebuild(*file)),
        Event::Audit { file } => Some(Order::Audit(*file)),
        _ => None,
    }
}

// The order that a text spells.
fn order_in(alloc: Global, text: &str) -> Result<Option<Order>, Memory>
    ensures { IfOk result (Gives (IsOrder text.now)) }
{
    match event_in(alloc, text.as_bytes())? {
        Some(event) => Ok(order_of(&event)),
        None => Ok(None),
    }
}

// The call of an event with prompt delivery.
fn call_of(event: Event) -> Option<Call>
    ensures { result ≡ call_of event }
{
    match event {
        Event::Do { call, .. } => Some(call),
        _ => None,
    }
}

// The call that a text spells: that of the line in which it stands behind `do c0`.
fn call_in(alloc: Global, text: &str) -> Result<Option<Call>, Memory>
    ensures { IfOk result (Gives (IsCall text.now)) }
{
    let line = format!(in alloc; "do c0 {text}")?;
    match event_in(alloc, line.as_bytes())? {
        Some(event) => Ok(call_of(event)),
        None => Ok(None),
    }
}

// What a text asks for.
pub(crate) fn work_in(alloc: Global, text: &str) -> Result<Option<ClientWork>, Memory>
    ensures { IfOk result (Gives (IsWork text.now)) }
{
    if let Some(call) = call_in(alloc, text)? {
        return Ok(Some(ClientWork::Call(call)));
    }
    match order_in(alloc, text)? {
        Some(order) => Ok(Some(ClientWork::Order(order))),
        None => Ok(None),
    }
}
