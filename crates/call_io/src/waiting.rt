// What a call waits for.
ghost use Rattle.std.specs.Prelude.{◌≡◌, [], ◌==◌, find, is_some, option_map, IfOk, MatchOption};
ghost use Rattle.call_io.specs.State.{Awaited as Command};
ghost use Rattle.client_rules.specs.Commands.{in_order, of_component};
ghost use Rattle.client_rules.specs.Io.{awaited_in};
ghost use Rattle.call_io.specs.Phases.{phase_of};
ghost use Rattle.call_commands.specs.Pending.{answering, first_among, lowest_among};

use crate::phase::CallPhase;
use call_commands::{PendingCommands, in_order};
use client_rules::AwaitedCommands;
use osd_lists::Memory;
use std::alloc::Global;

impl CallPhase {
    /// The commands of which the replies are awaited, `None` where the call doesn't wait for drives.
    pub fn pending(&self) -> Option<&PendingCommands>
        ensures { MatchOption result (awaited_in (phase_of self.now) ≡ []) (λ p. p.now ≡ awaited_in (phase_of self.now)) }
    {
        match self {
            CallPhase::Reads { io } => Some(&io.pending),
            CallPhase::Probes { io } => Some(&io.pending),
            CallPhase::Gathers { io } => Some(&io.pending),
            CallPhase::Scatters { io, .. } => Some(&io.pending),
            _ => None,
        }
    }

    /// Whether a reply with that nonce from that drive is awaited.
    pub fn has(&self, drive: u32, nonce: u64) -> bool
        ensures { result ≡ is_some (find (answering drive nonce) (awaited_in (phase_of self.now))) }
    {
        match self.pending() {
            Some(pending) => pending.has(drive, nonce),
            None => false,
        }
    }

    /// Whether a reply of that component is awaited.
    pub fn awaits_component(&self, component: u32) -> bool
        ensures { result ≡ is_some (first_among (of_component component (awaited_in (phase_of self.now)))) }
    {
        match self.pending() {
            Some(pending) => pending.first_to(component).is_some(),
            None => false,
        }
    }

    /// The component of the awaited command with that nonce.
    pub fn awaited_component(&self, nonce: u64) -> Option<u32>
        ensures { result ≡ option_map (λ (a : Command). a.ask.component)
            (find (λ (a : Command). a.command.nonce == nonce) (awaited_in (phase_of self.now))) }
    {
        match self.pending() {
            Some(pending) => pending.component_of(nonce),
            None => None,
        }
    }

    /// The lowest component of which a reply is awaited.
    pub fn lowest_awaited(&self) -> Option<u32>
        ensures { result ≡ lowest_among (awaited_in (phase_of self.now)) }
    {
        match self.pending() {
            Some(pending) => pending.lowest(),
            None => None,
        }
    }

    /// Copies of the commands of which the replies are awaited, by stripe, component and offset.
    #[tactic(auto, unfolding(client_rules::specs::Commands::in_order))]
    pub fn in_order(&self, alloc: Global) -> Result<AwaitedCommands, Memory>
        ensures { IfOk result (λ commands. commands ≡ in_order (awaited_in (phase_of self.now))) }
    {
        match self.pending() {
            Some(pending) => in_order(alloc, pending),
            None => Ok(AwaitedCommands::new(alloc)),
        }
    }
}
