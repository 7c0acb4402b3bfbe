ghost use Rattle.std.specs.Prelude.{◌≡◌, ℕ, [], ◌∷◌, ◌++◌, ◌↔◌, find, is_some, map, option_map, Some, ◌==◌, IsTrue, IfOk, OnOk};
ghost use Rattle.std.specs.BTreeMap.{insert_entry, IsOrdered};
ghost use Rattle.std.specs.Ordering.{nat_cmp};
ghost use Rattle.call_commands.specs.State.{Awaited as Kept};
ghost use Rattle.client_rules.specs.Commands.{not_of, of_component};
ghost use Rattle.client_rules.specs.Io.{awaited_stretch};
ghost use Rattle.call_commands.specs.Pending.{answering, left_by, nearer, first_among, lower, lowest_among};

use crate::having::{before, stretch};
use client_rules::{Awaited, TimedOut};
use osd_commands::Command;
use osd_lists::{Bytes, Memory, Numbers, Sequence};
use std::alloc::Global;
use std::collections::BTreeMap;
use std::marker::Model;
use stripe_plan::Stretch;

/// Commands of which the replies are awaited, each found by its nonce.
///
/// Contracts see them as a list in the order in which they were sent. Their nonces rise.
#[derive(Drop)]
pub struct PendingCommands {
    by_nonce: BTreeMap<u64, Awaited>,
}

impl Model for PendingCommands {
    ghost use Rattle.std.specs.Prelude.{List};
    ghost use Rattle.std.specs.Map.{values_of};
    ghost use Rattle.client_rules.specs.declared.calls.Awaited.{Awaited as Command};
    ghost use Rattle.call_commands.specs.Pending.{AreKeyed};

    ghost Value = { List Command };

    ghost view = { λ s. values_of s.by_nonce.entries };

    ghost invariant = { λ s. AreKeyed s.by_nonce.entries };
}

// A command once more.
pub(crate) fn copied(alloc: Global, awaited: &Awaited) -> Result<Awaited, Memory>
    ensures { IfOk result (λ copy. copy ≡ awaited.now) }
{
    let command = &awaited.command;
    Ok(Awaited {
        write: awaited.write,
        ask: awaited.ask,
        drive: awaited.drive,
        command: Command {
            action: command.action,
            partition: command.partition,
            object: command.object,
            offset: command.offset,
            length: command.length,
            nonce: command.nonce,
            attribute: command.attribute,
            capability: command.capability,
            payload: Bytes::copied(alloc, command.payload.as_slice())?,
            check: command.check,
        },
    })
}

// Whether a nonce is above those of all these commands, so that a command with it comes last.
fn is_above_all(by_nonce: &BTreeMap<u64, Awaited>, nonce: u64) -> bool
    ensures { (a : Kept) → IsTrue result →
        insert_entry nat_cmp by_nonce.now.entries nonce a ≡ by_nonce.now.entries ++ (nonce, a) ∷ [] }
{
    match by_nonce.last_key_value() {
        Some((last, _)) => *last < nonce,
        None => true,
    }
}

// That the nonces rise. Nothing runs.
fn known(by_nonce: &BTreeMap<u64, Awaited>)
    ensures { IsOrdered nat_cmp by_nonce.now }
{
    let _ = by_nonce.len();
}

impl PendingCommands {
    /// None, which takes no memory.
    pub fn new(alloc: Global) -> Self
        ensures { result ≡ [] }
    {
        PendingCommands {
            by_nonce: BTreeMap::new(alloc),
        }
    }

    /// Whether there is none.
    pub fn is_empty(&self) -> bool
        ensures { IsTrue result ↔ (self.now ≡ []) }
    {
        self.by_nonce.is_empty()
    }

    /// Adds one, the last. Its nonce has to be above those of all others, as it is where it is sent behind them.
    ///
    /// # Errors
    ///
    /// Want of memory, and a nonce that isn't.
    pub fn add(&mut self, awaited: Awaited) -> Result<(), Memory>
        ensures { OnOk result (self.new ≡ self.old ++ awaited ∷ []) }
    {
        let nonce = awaited.command.nonce;
        if !is_above_all(&self.by_nonce, nonce) {
            return Err(Memory);
        }
        self.by_nonce.insert(nonce, awaited)?;
        Ok(())
    }

    /// Whether a reply with that nonce from that drive is awaited.
    pub fn has(&self, drive: u32, nonce: u64) -> bool
        ensures { result ≡ is_some (find (answering drive nonce) self.now) }
    {
        known(&self.by_nonce);
        match self.by_nonce.get(&nonce) {
            Some(awaited) => awaited.drive == drive,
            None => false,
        }
    }

    /// Takes out the command that a reply with that nonce from that drive answers.
    pub fn take(&mut self, drive: u32, nonce: u64) -> Option<Awaited>
        ensures found { result ≡ find (answering drive nonce) self.old }
        ensures left { self.new ≡ left_by self.old result }
    {
        if !self.has(drive, nonce) {
            return None;
        }
        known(&self.by_nonce);
        self.by_nonce.remove(&nonce)
    }

    /// Takes out all commands to a component.
    pub fn drop_component(&mut self, component: u32)
        ensures { self.new ≡ not_of component self.old }
    {
        self.by_nonce
            .retain(|_, awaited| awaited.ask.component != component);
    }

    /// The component of the command with that nonce.
    pub fn component_of(&self, nonce: u64) -> Option<u32>
        ensures { result ≡ option_map (λ (a : Kept). a.ask.component) (find (λ (a : Kept). a.command.nonce == nonce) self.now) }
    {
        match self.by_nonce.get(&nonce) {
            Some(awaited) => Some(awaited.ask.component),
            None => None,
        }
    }

    /// The lowest component of these commands.
    pub fn lowest(&self) -> Option<u32>
        ensures { result ≡ lowest_among self.now }
    {
        let mut least = None;
        for awaited in self.by_nonce.values() {
            least = lower(least, awaited.ask.component);
        }
        least
    }

    /// The first command to a component by stripe, component and offset; of none to it, none.
    pub fn first_to(&self, component: u32) -> Option<TimedOut>
        ensures { result ≡ first_among (of_component component self.now) }
    {
        let mut first = None;
        for awaited in self.by_nonce.values() {
            first = nearer(first, awaited, component);
        }
        first
    }

    /// Copies of them all, in order.
    pub fn copies(&self, alloc: Global) -> Result<Vec<Awaited>, Memory>
        ensures { IfOk result (λ copies. copies.items ≡ self.now) }
    {
        let mut copies = Vec::new(alloc);
        for awaited in self.by_nonce.values() {
            copies.push(copied(alloc, awaited)?)?;
        }
        Ok(copies)
    }

    /// Adds the bytes that they read or write to those of positions.
    pub fn add_stretches(&self, had: &mut Sequence<Stretch>) -> Result<(), Memory>
        ensures { OnOk result (had.new ≡ had.old ++ map awaited_stretch self.now) }
    {
        for awaited in self.by_nonce.values() {
            let ask = awaited.ask;
            had.push(stretch(ask.position, ask.offset, ask.length)?)?;
        }
        Ok(())
    }

    /// Adds their positions.
    pub fn add_positions(&self, positions: &mut Numbers) -> Result<(), Memory>
        ensures { OnOk result (positions.new ≡ positions.old ++ map (λ (a : Kept). a.ask.position) self.now) }
    {
        for awaited in self.by_nonce.values() {
            positions.push(awaited.ask.position)?;
        }
        Ok(())
    }
}

// The lower of two components.
fn lower(former: Option<u32>, component: u32) -> Option<u32>
    ensures { result ≡ Some (lower former component) }
{
    match former {
        Some(least) if least <= component => Some(least),
        _ => Some(component),
    }
}

// The former command, or another, if that is to the component and comes before.
fn nearer(former: Option<TimedOut>, awaited: &Awaited, component: u32) -> Option<TimedOut>
    ensures { result ≡ nearer former awaited.now component }
{
    if awaited.ask.component != component {
        return former;
    }
    let other = TimedOut {
        write: awaited.write,
        ask: awaited.ask,
    };
    match former {
        Some(first) if !before(&awaited.ask, &first.ask) => Some(first),
        _ => Some(other),
    }
}
