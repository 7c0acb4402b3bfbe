// The lines of a move, step by step.
ghost use Rattle.std.specs.Prelude.{◌≡◌, slice_get, OnOk};
ghost use Rattle.world_history.specs.Reading.{is_head};
ghost use Rattle.world_watch.specs.Steps.{injected_at, is_headed, performed_at, performed_sent, sees_from, sees_headed, sees_move, sees_step};

use crate::sightings::Sightings;
use osd_lists::Memory;
use scenario_text::{Delivery, Event, Line, Party, Verdict};
use server_rules::Mended;
use world_calm::{Calm, KeptFiles, Performed};
use world_network::Network;

// Whether a step begins with the line.
fn is_head(line: &Line) -> bool
    ensures { result ≡ is_head line.now }
{
    match line {
        Line::Event { .. } => true,
        Line::Delivered { .. } => true,
        Line::Judged { .. } => true,
        Line::TimedOut { .. } => true,
        _ => false,
    }
}

// Whether it does with the first of these.
fn is_headed(lines: &[Line]) -> bool
    ensures { result ≡ is_headed lines.now }
{
    match lines.split_first() {
        Some((line, _)) => is_head(line),
        None => false,
    }
}

// The message whose bytes a drive performed where it was delivered.
fn performed_sent(network: &Network, message: usize) -> Option<Performed>
    ensures { result ≡ performed_sent message (slice_get network.now.messages message) }
{
    if message >= network.len() {
        return None;
    }
    match network.message(message).to {
        Party::Drive { drive } => Some(Performed { drive, message }),
        _ => None,
    }
}

// The message whose bytes a drive performs where the line injects them.
fn injected_at(sightings: &Sightings, network: &Network, line: &Line) -> Option<Performed>
    ensures { result ≡ injected_at sightings.now network.now.messages line.now }
{
    match line {
        Line::Event {
            event: Event::Inject { drive, bytes },
        } => match sightings.find(network, *drive, bytes.as_slice()) {
            Some(message) => Some(Performed {
                drive: *drive,
                message,
            }),
            None => None,
        },
        _ => None,
    }
}

// The message whose bytes a drive performed at the line with which a step begins, where `injected` is the one whose
// bytes the line before it injected.
fn performed_at(network: &Network, injected: Option<Performed>, head: &Line) -> Option<Performed>
    ensures { result ≡ performed_at network.now.messages injected head.now }
{
    match head {
        Line::Delivered {
            message,
            delivery: Delivery::Judged {
                verdict: Verdict::Perform,
            },
        } => performed_sent(network, *message as usize),
        Line::Judged {
            verdict: Verdict::Perform,
            ..
        } => injected,
        _ => None,
    }
}

// Sees lines of which the first one stands apart, if they are a step.
#[tactic(auto, unfolding(crate::specs::Steps::sees_headed))]
fn see_headed<S: KeptFiles>(
    calm: &mut Calm,
    network: &Network,
    injected: Option<Performed>,
    head: &Line,
    rest: &[Line],
    server: &S,
    mended: &[Mended],
) -> Result<(), Memory>
    ensures { OnOk result
        (calm.new ≡ sees_headed (S.kept_of server.now) mended.now network.now.messages calm.old injected head.now rest.now) }
{
    if is_head(head) {
        let performed = performed_at(network, injected, head);
        calm.see(network, head, rest, performed, server, mended)?;
    }
    Ok(())
}

// The same of lines that stand together.
#[tactic(auto, unfolding(crate::specs::Steps::sees_step))]
fn see_step<S: KeptFiles>(
    calm: &mut Calm,
    network: &Network,
    injected: Option<Performed>,
    step: &[Line],
    server: &S,
    mended: &[Mended],
) -> Result<(), Memory>
    ensures { OnOk result
        (calm.new ≡ sees_step (S.kept_of server.now) mended.now network.now.messages calm.old injected step.now) }
{
    match step.split_first() {
        Some((head, rest)) => see_headed(calm, network, injected, head, rest, server, mended),
        None => Ok(()),
    }
}

// Sees the lines of a move. An event that is followed by another line that begins a step changes no moment: `server` is
// as that step leaves it, so the event isn't seen with it.
#[tactic(auto, unfolding(crate::specs::Steps::sees_from))]
fn see_from<S: KeptFiles>(
    calm: &mut Calm,
    sightings: &Sightings,
    network: &Network,
    event: &Line,
    step: &[Line],
    server: &S,
    mended: &[Mended],
) -> Result<(), Memory>
    ensures { OnOk result
        (calm.new ≡ sees_from (S.kept_of server.now) mended.now sightings.now network.now.messages calm.old event.now step.now) }
{
    if is_headed(step) {
        let injected = injected_at(sightings, network, event);
        see_step(calm, network, injected, step, server, mended)
    } else {
        see_headed(calm, network, None, event, step, server, mended)
    }
}

/// Sees the lines of a move.
pub fn see_steps<S: KeptFiles>(
    calm: &mut Calm,
    sightings: &Sightings,
    network: &Network,
    lines: &[Line],
    server: &S,
    mended: &[Mended],
) -> Result<(), Memory>
    ensures { OnOk result
        (calm.new ≡ sees_move (S.kept_of server.now) mended.now sightings.now network.now.messages calm.old lines.now) }
{
    match lines.split_first() {
        Some((event, step)) => see_from(calm, sightings, network, event, step, server, mended),
        None => Ok(()),
    }
}
