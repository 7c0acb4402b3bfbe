ghost use Rattle.std.specs.Prelude.{◌≡◌, ◌++◌, true, false, is_some, is_err, IfOk, OnOk};
ghost use Rattle.std.specs.List.{list_any};
ghost use Rattle.std.specs.Option.{option_map};
ghost use Rattle.client_rules.specs.Steps.{new_client, awaits, calls};
ghost use Rattle.world_history.specs.Handed.{pending_op};
ghost use Rattle.world_parties.specs.Posting.{is_write, postings};
ghost use Rattle.world_parties.specs.Client.{data_of_call, bytes_in, ended, Acts, called, heard, timed_out, resends, left, pending_told};
ghost use Rattle.world_parties.specs.Steps.{Steps};

use crate::posting::{any_write, data_of, postings};
use client_rules::{Awaits, CallErr, CallOp, Outcome as RulesOutcome};
use osd_lists::{Memory, Node};
use scenario_text::{CallKind, ClientName, Ending, Line, Outcome, Refusal};
use std::alloc::Global;
use std::marker::Model;
use stripe_client::{CStep, ClientCore};
use world_network::{Act, Lines, kind_of, told_outcome, told_refusal};

/// A client of a world, whether it was stopped, and whether a WRITE of its pending call was sent.
#[derive(Drop)]
pub struct WorldClient {
    core: ClientCore,
    stopped: bool,
    wrote: bool,
}

impl Model for WorldClient {
    ghost use Rattle.world_history.specs.State.{ClientAt};

    ghost Value = { ClientAt };

    ghost view = { λ c. record { state = c.core; stopped = c.stopped; wrote = c.wrote } };
}

// What lines tell of a call: what it does, and how many data bytes it writes.
#[derive(Clone, Copy)]
struct CallData {
    kind: CallKind,
    bytes: u64,
}

// The number of a client's first request.
const FIRST_SEQUENCE: u32 = 1;

fn call_data(op: &CallOp) -> CallData
    ensures { result ≡ data_of_call op.now }
{
    CallData {
        kind: kind_of(op),
        bytes: data_of(op),
    }
}

// A step of a client about a call, where one was pending or came.
#[derive(Drop)]
struct Step {
    call: Option<CallData>,
    /// A WRITE of that call was sent before.
    wrote: bool,
    done: CStep,
}

// Tells how a call ended, where it did.
fn tell_end(
    told: &mut Lines,
    client: ClientName,
    call: Option<CallData>,
    outcome: Option<RulesOutcome>,
) -> Result<(), Memory>
    ensures { OnOk result (told.new ≡ told.old ++ ended client call outcome) }
{
    match (call, outcome) {
        (Some(call), Some(outcome)) => match told_outcome(call.kind, outcome) {
            Some(outcome) => told.push(Line::Ended { client, outcome }),
            None => Ok(()),
        },
        _ => Ok(()),
    }
}

impl WorldClient {
    /// A client that has done nothing, of that number. It takes no memory.
    pub fn new(alloc: Global, client: ClientName) -> Self
        ensures { result ≡ record { state = new_client client 1; stopped = false; wrote = false } }
    {
        WorldClient {
            core: ClientCore::new(alloc, client.number(), FIRST_SEQUENCE),
            stopped: false,
            wrote: false,
        }
    }

    /// Whether it was stopped.
    pub fn is_stopped(&self) -> bool
        ensures { result ≡ self.now.stopped }
    {
        self.stopped
    }

    /// Whose answer it awaits.
    pub fn awaits(&self) -> Awaits
        ensures { result ≡ awaits self.now.state }
    {
        self.core.awaits()
    }

    /// Whether a call is pending.
    pub fn has_call(&self) -> bool
        ensures { result ≡ is_some self.now.state.call }
    {
        self.core.pending().is_some()
    }

    /// Whether a call would be refused.
    #[tactic(auto, using(crate::proofs::Refused::refused_alike))]
    pub fn refuses(&self, op: &CallOp) -> bool
        ensures { result ≡ is_err (calls self.now.state op.now) }
    {
        self.core.refusal(op).is_some()
    }

    /// It is deaf from now on.
    pub fn stop(&mut self)
        ensures { self.new ≡ record self.old { stopped = true } }
    {
        self.stopped = true;
    }

    // What lines tell of the pending call.
    fn pending_call(&self) -> Option<CallData>
        ensures { result ≡ option_map data_of_call (pending_op self.now.state) }
    {
        match self.core.pending() {
            Some(op) => Some(call_data(op)),
            None => None,
        }
    }

    // What a step comes to, behind the lines that were told.
    fn did(
        &mut self,
        alloc: Global,
        client: ClientName,
        mut told: Lines,
        step: Step,
    ) -> Result<Act, Memory>
        ensures { IfOk result (λ act. Steps client told step self.old self.new act) }
    {
        let Step { call, wrote, done } = step;
        let CStep { sends, outcome } = done;
        let logged = match call {
            Some(call) => call.bytes,
            None => 0,
        };
        self.wrote = wrote || any_write(sends.as_slice());
        let posts = postings(alloc, client, wrote, logged, sends)?;
        tell_end(&mut told, client, call, outcome)?;
        Ok(Act { told, posts })
    }

    /// Begins a call, or tells why it isn't taken.
    pub fn call(&mut self, alloc: Global, client: ClientName, op: CallOp) -> Result<Act, Memory>
        ensures { IfOk result (λ act. Acts (called client op self.old) self.new act) }
    {
        let call = call_data(&op);
        match self.core.call(op) {
            Ok(done) => {
                let step = Step {
                    call: Some(call),
                    wrote: false,
                    done,
                };
                self.did(alloc, client, Lines::new(alloc), step)
            }
            Err(CallErr::Memory) => Err(Memory),
            Err(error) => {
                let refusal = told_refusal(error);
                Act::line(alloc, Line::Refused { client, refusal })
            }
        }
    }

    /// Takes bytes from a party. Bytes in which there is no message for it change nothing.
    pub fn hear(
        &mut self,
        alloc: Global,
        client: ClientName,
        from: Node,
        bytes: &[u8],
    ) -> Result<Act, Memory>
        ensures { IfOk result (λ act. Acts (heard client from bytes.now self.old) self.new act) }
    {
        let step = Step {
            call: self.pending_call(),
            wrote: self.wrote,
            done: self.core.on_message(from, bytes)?,
        };
        self.did(alloc, client, Lines::new(alloc), step)
    }

    /// A component times out. That has its line, which stands first, also where nothing is awaited of it.
    pub fn time_out(
        &mut self,
        alloc: Global,
        client: ClientName,
        component: u32,
    ) -> Result<Act, Memory>
        ensures { IfOk result (λ act. Acts (timed_out client component self.old) self.new act) }
    {
        let mut told = Lines::new(alloc);
        told.push(Line::TimedOut { client, component })?;
        let step = Step {
            call: self.pending_call(),
            wrote: self.wrote,
            done: self.core.timeout(component)?,
        };
        self.did(alloc, client, told, step)
    }

    /// Sends again what it waits for.
    pub fn resend(&mut self, alloc: Global, client: ClientName) -> Result<Act, Memory>
        ensures { IfOk result (λ act. Acts (resends client self.old) self.new act) }
    {
        let step = Step {
            call: self.pending_call(),
            wrote: self.wrote,
            done: CStep {
                sends: self.core.resend()?,
                outcome: None,
            },
        };
        self.did(alloc, client, Lines::new(alloc), step)
    }

    /// Returns its grants, or tells that it is busy where a call is pending.
    pub fn leave(&mut self, alloc: Global, client: ClientName) -> Result<Act, Memory>
        ensures { IfOk result (λ act. Acts (left client self.old) self.new act) }
    {
        if self.has_call() {
            let refusal = Refusal::Busy;
            return Act::line(alloc, Line::Refused { client, refusal });
        }
        let step = Step {
            call: None,
            wrote: self.wrote,
            done: CStep {
                sends: self.core.leave()?,
                outcome: None,
            },
        };
        self.did(alloc, client, Lines::new(alloc), step)
    }

    /// Tells that its call is still pending, where one is.
    pub fn pend(&self, alloc: Global, client: ClientName) -> Result<Act, Memory>
        ensures { IfOk result (λ act. act ≡ pending_told client (pending_op self.now.state)) }
    {
        match self.pending_call() {
            Some(call) => {
                let outcome = Outcome::Failed {
                    call: call.kind,
                    ending: Ending::Pending,
                };
                Act::line(alloc, Line::Ended { client, outcome })
            }
            None => Ok(Act::nothing(alloc)),
        }
    }
}
