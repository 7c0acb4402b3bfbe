ghost use Rattle.std.specs.Prelude.{◌≡◌, ℕ, List, length, slice_get, OnOk, IfOk};
ghost use Rattle.std.specs.List.{fold};
ghost use Rattle.osd_commands.specs.Commands.{with_payload};
ghost use Rattle.world_history.specs.State.{at_number, without_number};
ghost use Rattle.world_calm.specs.Log.{begun_for, called, finished, forgot, is_for, no_log, number_for, reads, sends, sent_as, started, under_with, write_by};

use osd_commands::{Action, CommandBlock};
use osd_lists::{Memory, Sequence};
use std::alloc::Global;
use std::collections::BTreeMap;
use std::marker::Model;

/// Numbers of entries of the log.
pub type EntryNumbers = Sequence<usize>;

/// A call that is pending.
#[derive(Clone, Copy)]
pub struct PendingCall {
    /// It writes, else it reads.
    pub writes: bool,
    /// The entry that it started.
    pub started: Option<usize>,
}

/// A write or a read that was started.
#[derive(Clone, Copy)]
pub struct LogEntry {
    pub client: u32,
    /// The grant under which it is.
    pub grant: u32,
    /// It is a write that was acknowledged, or was taken as a loss.
    pub finished: bool,
}

/// The pending calls by client, and the entries that were started, by number from 0.
#[derive(Drop)]
pub struct WriteLog {
    alloc: Global,
    pending: BTreeMap<u32, PendingCall>,
    entries: Sequence<LogEntry>,
    // Of each message that is a WRITE in a call, the entry for which it was sent.
    sent_for: BTreeMap<usize, usize>,
    // The entries under a grant, none of which was taken as a loss.
    by_grant: BTreeMap<u32, EntryNumbers>,
}

impl Model for WriteLog {
    ghost use Rattle.world_calm.specs.Log.{LogState};

    ghost Value = { LogState };

    ghost view = { λ w. record {
      pending = w.pending.entries;
      entries = w.entries;
      sent_for = w.sent_for.entries;
      by_grant =
          w.by_grant.entries;
    } };
}

// An entry more under a grant.
fn add_under(
    by_grant: &mut BTreeMap<u32, EntryNumbers>,
    alloc: Global,
    grant: u32,
    number: usize,
) -> Result<(), Memory>
    ensures { OnOk result
        (by_grant.new.entries ≡ under_with by_grant.old.entries grant number (at_number by_grant.old.entries grant)) }
{
    match by_grant.get_mut(&grant) {
        Some(numbers) => numbers.push(number)?,
        None => {
            let mut numbers = EntryNumbers::new(alloc);
            numbers.push(number)?;
            by_grant.insert(grant, numbers)?;
        }
    }
    Ok(())
}

// Whether a call is one that writes, or one that reads.
fn is_for(call: PendingCall, writes: bool) -> bool
    ensures { result ≡ is_for writes call }
{
    if writes { call.writes } else { !call.writes }
}

impl WriteLog {
    /// No call and no entry.
    pub fn new(alloc: Global) -> Self
        ensures { result ≡ no_log }
    {
        WriteLog {
            alloc,
            pending: BTreeMap::new(alloc),
            entries: Sequence::new(alloc),
            sent_for: BTreeMap::new(alloc),
            by_grant: BTreeMap::new(alloc),
        }
    }

    /// The entry for which a message was sent as a WRITE.
    pub fn entry_of(&self, message: usize) -> Option<usize>
        ensures { result ≡ at_number self.now.sent_for message }
    {
        match self.sent_for.get(&message) {
            Some(number) => Some(*number),
            None => None,
        }
    }

    /// An entry that was started.
    pub fn entry(&self, number: usize) -> Option<LogEntry>
        ensures { result ≡ slice_get self.now.entries number }
    {
        if number < self.entries.len() {
            Some(*self.entries.get(number))
        } else {
            None
        }
    }

    /// A client is called. Where a call of it is pending, this one is refused.
    pub fn call(&mut self, client: u32, writes: bool) -> Result<(), Memory>
        ensures { OnOk result (self.new ≡ called self.old client writes) }
    {
        match self.pending.get(&client) {
            Some(_) => Ok(()),
            None => {
                let call = PendingCall {
                    writes,
                    started: None,
                };
                self.pending.insert(client, call)?;
                Ok(())
            }
        }
    }

    /// The pending call of a client is over, and so is what it does.
    pub fn forget(&mut self, client: u32)
        ensures { self.new ≡ forgot self.old client }
    {
        self.pending.remove(&client);
    }

    /// The write that the pending call of a client started.
    pub fn write_by(&self, client: u32) -> Option<usize>
        ensures { result ≡ write_by self.now client }
    {
        match self.pending.get(&client) {
            Some(call) => { if call.writes { call.started } else { None } }
            None => None,
        }
    }

    /// A write was acknowledged, or an entry was taken as a loss.
    pub fn finish(&mut self, number: usize)
        ensures { self.new ≡ finished self.old number }
    {
        if number < self.entries.len() {
            self.entries.get_mut(number).finished = true;
        }
    }

    /// Takes out the entries under a grant.
    pub fn take_under(&mut self, grant: u32) -> Option<EntryNumbers>
        ensures taken { result ≡ at_number self.old.by_grant grant }
        ensures left { self.new ≡ record self.old { by_grant = without_number self.old.by_grant grant } }
    {
        self.by_grant.remove(&grant)
    }

    // The client's pending call starts its entry.
    fn start(&mut self, client: u32, grant: u32, writes: bool) -> Result<usize, Memory>
        ensures number { IfOk result (λ n. n ≡ length self.old.entries) }
        ensures log { OnOk result (self.new ≡ started self.old client grant writes) }
    {
        let number = self.entries.len();
        self.entries.push(LogEntry {
            client,
            grant,
            finished: false,
        })?;
        add_under(&mut self.by_grant, self.alloc, grant, number)?;
        let call = PendingCall {
            writes,
            started: Some(number),
        };
        self.pending.insert(client, call)?;
        Ok(number)
    }

    // The entry for which a client sends a command: it starts with the first one of its call.
    fn entry_for(&mut self, client: u32, grant: u32, writes: bool) -> Result<Option<usize>, Memory>
        ensures number { IfOk result (λ n. n ≡ number_for self.old writes (at_number self.old.pending client)) }
        ensures log { OnOk result (self.new ≡ begun_for self.old client grant writes (at_number self.old.pending client)) }
    {
        let call = match self.pending.get(&client) {
            Some(call) => *call,
            None => return Ok(None),
        };
        if !is_for(call, writes) {
            return Ok(None);
        }
        match call.started {
            Some(number) => Ok(Some(number)),
            None => {
                let number = self.start(client, grant, writes)?;
                Ok(Some(number))
            }
        }
    }

    // A client sends a READ to a drive: a read starts with its call's first one.
    fn read(&mut self, client: u32, grant: u32) -> Result<(), Memory>
        ensures { OnOk result (self.new ≡ reads self.old client grant) }
    {
        self.entry_for(client, grant, false)?;
        Ok(())
    }

    // A client sends a WRITE to a drive: a write starts with its call's first one.
    fn write(&mut self, client: u32, message: usize, grant: u32) -> Result<(), Memory>
        ensures { OnOk result (self.new ≡ sends self.old client message grant) }
    {
        match self.entry_for(client, grant, true)? {
            Some(number) => {
                self.sent_for.insert(message, number)?;
                Ok(())
            }
            None => Ok(()),
        }
    }

    /// A client sends a command with this block to a drive: its call's entry starts with the first WRITE or READ.
    pub fn send(&mut self, client: u32, message: usize, block: &CommandBlock) -> Result<(), Memory>
        ensures { OnOk result ((payload : List ℕ)
            → self.new ≡ sent_as self.old client message (with_payload block.now payload) block.now.action) }
    {
        match block.action {
            Action::Write => self.write(client, message, block.capability.grant),
            Action::Read => self.read(client, block.capability.grant),
            _ => Ok(()),
        }
    }
}

/// Entries were acknowledged, or taken as a loss.
pub fn finish_all(log: &mut WriteLog, numbers: &[usize])
    ensures { log.new ≡ fold finished log.old numbers.now }
{
    for number in numbers {
        log.finish(*number);
    }
}
