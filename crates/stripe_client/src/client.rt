ghost use Rattle.std.specs.Prelude.{◌≡◌, ◌≤◌, ◌<◌, None, IfOk, IsErrOf, OnOk, OnErr};
ghost use Rattle.client_rules.specs.declared.limits.TheConstants.{MAX_CLIENT};
ghost use Rattle.client_rules.specs.Envelopes.{in_envelope, on_message_in, on_bytes};
ghost use Rattle.osd_lists.specs.declared.node.Node.TheVariants as node;
ghost use Rattle.held_grants.specs.Ranges.{AsksInFile};
ghost use Rattle.stripe_client.specs.States.{client_of, over};
ghost use Rattle.stripe_client.specs.Inside.{IsInside};
ghost use Rattle.client_rules.specs.Steps.{new_client, calls, starts, times_out, leaves, resent, awaits, awaited_component, next_sequence};
ghost use Rattle.std.specs.Option.{option_copied, option_map};
ghost use Rattle.client_rules.specs.declared.calls.Call.{Call};
ghost use Rattle.stripe_client.specs.Calling.{Gives, refusal};
ghost use Rattle.stripe_client.specs.Sending.{IsStep, spelled};

use crate::calling;
use crate::driving::{hear_nothing, hear_reply};
use crate::outstanding::Outstanding;
use crate::sending::{CStep, Sends};
use crate::state::State;
use crate::stepping::{hear_answer, hear_recall, still};
use client_rules::{Awaits, CallErr, CallOp};
use held_grants::{Dues, HeldGrants};
use layout_ops::{Envelope, OpErr, read_envelope};
use osd_commands::{CommandErr, read_reply};
use osd_lists::{Memory, Node};
use std::alloc::Global;
use std::marker::Model;
use std::mem;

/// A client of striped files. It asks the metadata server for layouts, and reads and writes the drives directly.
///
/// Contracts see it as the rules' `Client`. Each call says with the rules' function of its step which state follows,
/// what is sent, and how the pending call ended.
///
/// A call that finds no memory in the middle of its step ends the client: it is over then. A client that is over has no
/// pending call, holds no grant, awaits nothing, and has no number left for a request. So by the rules it takes no call,
/// and sends nothing more but the answers to recalls, that it doesn't hold the grant.
#[derive(Drop)]
pub struct ClientCore {
    alloc: Global,
    state: State,
}

impl Model for ClientCore {
    ghost use Rattle.client_rules.specs.declared.client.Client.{Client};
    ghost use Rattle.stripe_client.specs.States.{client_of};
    ghost use Rattle.stripe_client.specs.Inside.{IsInside};

    ghost Value = { Client };

    ghost view = { λ s. client_of s.state };

    ghost invariant = { λ s. IsInside s.state };
}

// What the server sends.
fn on_envelope(state: &mut State, alloc: Global, envelope: Envelope) -> Result<CStep, Memory>
    requires { IsInside state.old }
    ensures step { IfOk result (λ s. IsStep (on_message_in (client_of state.old) node.Server (in_envelope envelope))
        (client_of state.new) s) }
    ensures inside { IsInside state.new }
{
    match envelope {
        Envelope::Answer(answer) => hear_answer(state, alloc, &answer),
        Envelope::Recall(recall) => hear_recall(state, alloc, &recall),
        _ => Ok(still(alloc)),
    }
}

// Bytes from the server.
#[tactic(auto, unfolding(client_rules::specs::Envelopes::message_in))]
fn from_server(state: &mut State, alloc: Global, bytes: &[u8]) -> Result<CStep, Memory>
    requires { IsInside state.old }
    ensures step { IfOk result (λ s. IsStep (on_bytes (client_of state.old) node.Server bytes.now)
        (client_of state.new) s) }
    ensures inside { IsInside state.new }
{
    match read_envelope(alloc, bytes) {
        Ok(envelope) => on_envelope(state, alloc, envelope),
        Err(OpErr::Memory) => Err(Memory),
        Err(_) => Ok(still(alloc)),
    }
}

// Bytes from a drive.
#[tactic(auto, unfolding(client_rules::specs::Envelopes::message_in))]
fn from_drive(state: &mut State, alloc: Global, drive: u32, bytes: &[u8]) -> Result<CStep, Memory>
    requires { IsInside state.old }
    ensures step { IfOk result (λ s. IsStep (on_bytes (client_of state.old) (node.Drive drive) bytes.now)
        (client_of state.new) s) }
    ensures inside { IsInside state.new }
{
    match read_reply(alloc, bytes) {
        Ok(reply) => hear_reply(state, alloc, drive, reply),
        Err(CommandErr::Memory) => Err(Memory),
        Err(_) => Ok(still(alloc)),
    }
}

// What bytes from a party say.
#[tactic(auto, unfolding(client_rules::specs::Envelopes::message_in))]
fn hear(state: &mut State, alloc: Global, from: Node, bytes: &[u8]) -> Result<CStep, Memory>
    requires { IsInside state.old }
    ensures step { IfOk result (λ s. IsStep (on_bytes (client_of state.old) from bytes.now) (client_of state.new) s) }
    ensures inside { IsInside state.new }
{
    match from {
        Node::Server => from_server(state, alloc, bytes),
        Node::Drive(drive) => from_drive(state, alloc, drive, bytes),
        Node::Client(_) => Ok(still(alloc)),
    }
}

impl ClientCore {
    /// A client that has done nothing, with its number, and the number of its first request, at least 1. It takes
    /// no memory.
    pub fn new(alloc: Global, number: u32, sequence: u32) -> Self
        requires number { number ≤ MAX_CLIENT }
        requires sequence { 0 < sequence }
        ensures { result ≡ new_client number sequence }
    {
        ClientCore {
            alloc,
            state: State {
                number,
                next: sequence,
                outstanding: Outstanding::none(),
                held: HeldGrants::new(alloc),
                due: Dues::new(alloc),
                call: None,
            },
        }
    }

    // The state, in whose place that of a client that is over stands until the step is done.
    fn begin(&mut self) -> State
        ensures value { client_of result ≡ self.old }
        ensures inside { IsInside result }
        ensures over { self.new ≡ over self.old }
    {
        let number = self.state.number;
        mem::replace(&mut self.state, State::over(self.alloc, number))
    }

    // Begins a call that isn't refused.
    fn start(&mut self, op: CallOp) -> Result<CStep, Memory>
        requires op { AsksInFile op }
        ensures step { IfOk result (λ s. IsStep (starts self.old op) self.new s) }
        ensures over { OnErr result (self.new ≡ over self.old) }
    {
        let mut state = self.begin();
        let step = calling::start(&mut state, self.alloc, op)?;
        self.state = state;
        Ok(step)
    }

    /// Begins a call.
    ///
    /// # Errors
    ///
    /// As [`CallErr`] says, the first that holds; nothing has changed then. Want of memory comes behind the others, and
    /// the client is over then.
    #[tactic(auto, unfolding(client_rules::specs::Steps::calls))]
    pub fn call(&mut self, op: CallOp) -> Result<CStep, CallErr>
        ensures gives { Gives (calls self.old op) self.old self.new result }
        ensures over { IsErrOf result CallErr.Memory → self.new ≡ over self.old }
    {
        if let Some(refusal) = calling::refusal(&self.state, &op) {
            return Err(refusal);
        }
        Ok(self.start(op)?)
    }

    /// Takes bytes from a party. Bytes in which there is no message for this client change nothing.
    ///
    /// # Errors
    ///
    /// Want of memory alone; the client is over then.
    pub fn on_message(&mut self, from: Node, bytes: &[u8]) -> Result<CStep, Memory>
        ensures step { IfOk result (λ s. IsStep (on_bytes self.old from bytes.now) self.new s) }
        ensures over { OnErr result (self.new ≡ over self.old) }
    {
        let mut state = self.begin();
        let step = hear(&mut state, self.alloc, from, bytes)?;
        self.state = state;
        Ok(step)
    }

    /// Goes on without component `component` of the pending call's file. Where no command to it is awaited nothing
    /// changes.
    ///
    /// # Errors
    ///
    /// Want of memory alone; the client is over then.
    pub fn timeout(&mut self, component: u32) -> Result<CStep, Memory>
        ensures step { IfOk result (λ s. IsStep (times_out self.old component) self.new s) }
        ensures over { OnErr result (self.new ≡ over self.old) }
    {
        let mut state = self.begin();
        let step = hear_nothing(&mut state, self.alloc, component)?;
        self.state = state;
        Ok(step)
    }

    /// The messages whose answers are awaited, once more: the outstanding request, then the commands by stripe,
    /// component and offset.
    pub fn resend(&self) -> Result<Sends, Memory>
        ensures { IfOk result (λ sends. sends ≡ spelled (resent self.now)) }
    {
        calling::resend(&self.state, self.alloc)
    }

    /// Returns each held grant clean, one request after the other. No call may be pending.
    ///
    /// # Errors
    ///
    /// Want of memory alone; the client is over then.
    pub fn leave(&mut self) -> Result<Sends, Memory>
        requires { self.old.call ≡ None }
        ensures client { OnOk result (self.new ≡ (leaves self.old).client) }
        ensures sends { IfOk result (λ sends. sends ≡ spelled (leaves self.old).sends) }
        ensures over { OnErr result (self.new ≡ over self.old) }
    {
        let mut state = self.begin();
        let step = calling::leave(&mut state, self.alloc)?;
        self.state = state;
        Ok(step.sends)
    }

    /// Whose answer is awaited.
    pub fn awaits(&self) -> Awaits
        ensures { result ≡ awaits self.now }
    {
        calling::awaits(&self.state)
    }

    /// The component of the awaited command with that nonce, `None` exactly where no such command is awaited.
    pub fn awaited(&self, nonce: u64) -> Option<u32>
        ensures { result ≡ awaited_component self.now nonce }
    {
        calling::awaited(&self.state, nonce)
    }

    /// The pending call, `None` exactly where none is.
    pub fn pending(&self) -> Option<&CallOp>
        ensures { option_copied result ≡ option_map (λ (call : Call). call.op) self.now.call }
    {
        match &self.state.call {
            Some(call) => Some(&call.op),
            None => None,
        }
    }

    /// Why a call wouldn't be taken now, the first that holds; `None` exactly where it would.
    pub fn refusal(&self, op: &CallOp) -> Option<CallErr>
        ensures { result ≡ refusal self.now op.now }
    {
        calling::refusal(&self.state, op)
    }

    /// The number of the next request, or 0 where no sequence number is left.
    pub fn next_sequence(&self) -> u32
        ensures { result ≡ next_sequence self.now }
    {
        self.state.next
    }
}
