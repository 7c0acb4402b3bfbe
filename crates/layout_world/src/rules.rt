// The rule of an event, and what is due of a call.
ghost use Rattle.std.specs.Prelude.{◌≡◌, length, IfOk};
ghost use Rattle.world_history.specs.State.{World, at_number};
ghost use Rattle.world_history.specs.Moves.{op_of};
ghost use Rattle.world_history.specs.Plans.{rule_of, prompt_call, quiet_of};
ghost use Rattle.layout_world.specs.State.{Shows};
ghost use Rattle.layout_world.specs.Rules.{rule_in, IsWithin, action_of};

use crate::by_client::op_of;
use crate::parties::Parties;
use osd_lists::Memory;
use scenario_text::{Call, ClientName, Event};
use std::alloc::Global;
use stripe_client::Awaits;

/// What is done behind the first move of an event.
#[derive(Clone, Copy, PartialEq, Eq)]
pub enum Rule {
    /// Nothing.
    Alone,
    /// Messages from number `first` on are delivered, for the call of a client where one is named.
    Prompt {
        first: usize,
        client: Option<ClientName>,
    },
}

/// What is due where no message is pending.
#[derive(Clone, Copy, PartialEq, Eq)]
pub enum Quiet {
    /// The event is over.
    Over,
    /// The lowest component that the call awaits times out.
    TimesOut { client: ClientName, component: u32 },
    /// The call is left pending, and the event is over.
    Pends { client: ClientName },
}

// The messages of a call are delivered, unless it is refused.
fn prompt_call(
    parties: &Parties,
    alloc: Global,
    client: ClientName,
    call: &Call,
) -> Result<Rule, Memory>
    ensures rule { IfOk result (λ rule. (w : World) → Shows parties.now w
        → rule_in rule ≡ prompt_call w client (op_of call.now)) }
    ensures within { IfOk result (λ rule. IsWithin rule (length parties.now.network.messages)) }
{
    let op = op_of(alloc, call)?;
    if parties.clients.refuses(client, &op) {
        return Ok(Rule::Alone);
    }
    Ok(Rule::Prompt {
        first: parties.network.len(),
        client: Some(client),
    })
}

/// What is done behind the first move of an event.
#[tactic(auto, unfolding(world_history::specs::Plans::rule_of))]
pub fn rule_of(parties: &Parties, alloc: Global, event: &Event) -> Result<Rule, Memory>
    ensures rule { IfOk result (λ rule. (w : World) → Shows parties.now w → rule_in rule ≡ rule_of w event.now) }
    ensures within { IfOk result (λ rule. IsWithin rule (length parties.now.network.messages)) }
{
    match event {
        Event::Do { client, call } => prompt_call(parties, alloc, *client, call),
        Event::File { .. } | Event::ZonedFile { .. } => Ok(Rule::Prompt {
            first: parties.network.len(),
            client: None,
        }),
        Event::Settle => Ok(Rule::Prompt {
            first: 0,
            client: None,
        }),
        _ => Ok(Rule::Alone),
    }
}

/// What is due of the call of a client where no message is pending.
pub fn quiet_of(parties: &Parties, client: &Option<ClientName>) -> Quiet
    ensures { (w : World) → Shows parties.now w → action_of result ≡ quiet_of w client.now }
{
    let Some(client) = client else {
        return Quiet::Over;
    };
    let Some(found) = parties.clients.get(*client) else {
        return Quiet::Over;
    };
    match found.awaits() {
        Awaits::Drive { component } => Quiet::TimesOut {
            client: *client,
            component,
        },
        _ if found.has_call() => Quiet::Pends { client: *client },
        _ => Quiet::Over,
    }
}
