// What a call has, and what is out.
ghost use Rattle.std.specs.Prelude.{◌≡◌, ◌+◌, ◌++◌, ◌∷◌, [], IfOk, OnOk};
ghost use Rattle.client_rules.specs.Commands.{before};
ghost use Rattle.client_rules.specs.Grants.{missing_from, missing_of};
ghost use Rattle.client_rules.specs.Io.{outs, timed_with, had, had_positions};
ghost use Rattle.call_commands.specs.Having.{stretch_from};

use crate::pending::PendingCommands;
use client_rules::{Held, Listed, TimedOut, TimedOuts};
use osd_lists::{Memory, Numbers, Sequence};
use std::alloc::Global;
use stripe_plan::{Ask, Column, Out, Stretch};

/// Whether a command comes before another: by stripe, then component, then offset.
#[tactic(auto, unfolding(client_rules::specs::Commands::before))]
pub fn before(a: &Ask, b: &Ask) -> bool
    ensures { result ≡ before a.now b.now }
{
    a.stripe < b.stripe
        || a.stripe == b.stripe
            && (a.component < b.component || a.component == b.component && a.offset < b.offset)
}

// So many bytes of a position. There are none that end behind the greatest number.
pub(crate) fn stretch(position: u32, first: u64, length: u64) -> Result<Stretch, Memory>
    ensures { IfOk result (λ s. s ≡ stretch_from position first length) }
{
    match first.checked_add(length) {
        Some(end) => Ok(Stretch {
            position,
            first,
            end,
        }),
        None => Err(Memory),
    }
}

/// The bytes of positions that were read or are awaited.
///
/// # Errors
///
/// Want of memory; and bytes that end behind the greatest number, as none do that a plan asks.
#[tactic(auto, unfolding(client_rules::specs::Io::had))]
pub fn had(
    alloc: Global,
    got: &[Column],
    pending: &PendingCommands,
) -> Result<Sequence<Stretch>, Memory>
    ensures { IfOk result (λ ss. ss ≡ had got.now pending.now) }
{
    let mut had = Sequence::new(alloc);
    for column in got {
        let length = column.bytes.len() as u64;
        had.push(stretch(column.position, column.offset, length)?)?;
    }
    pending.add_stretches(&mut had)?;
    Ok(had)
}

/// The positions of which bytes were read or are awaited.
#[tactic(auto, unfolding(client_rules::specs::Io::had_positions))]
pub fn had_positions(
    alloc: Global,
    got: &[Column],
    pending: &PendingCommands,
) -> Result<Numbers, Memory>
    ensures { IfOk result (λ ps. ps ≡ had_positions got.now pending.now) }
{
    let mut positions = Numbers::new(alloc);
    for column in got {
        positions.push(column.position)?;
    }
    pending.add_positions(&mut positions)?;
    Ok(positions)
}

/// The numbers of the components that the layout lists as missing.
#[tactic(auto, using(crate::proofs::Lists::missing_step), unfolding(client_rules::specs::Grants::missing_from))]
pub fn missing_of(alloc: Global, held: &Held) -> Result<Numbers, Memory>
    ensures { IfOk result (λ ks. ks ≡ missing_of held.now) }
{
    let mut missing = Numbers::new(alloc);
    let mut component = 0;
    for listed in held.components.as_slice() {
        push_missing(&mut missing, listed, component)?;
        component = behind(component)?;
    }
    Ok(missing)
}

// The next number.
fn behind(number: u32) -> Result<u32, Memory>
    ensures { IfOk result (λ n. n ≡ number + 1) }
{
    match number.checked_add(1) {
        Some(next) => Ok(next),
        None => Err(Memory),
    }
}

// The number of a component, if it is missing.
#[tactic(auto, unfolding(client_rules::specs::Grants::missing_from))]
fn push_missing(missing: &mut Numbers, listed: &Listed, component: u32) -> Result<(), Memory>
    ensures { OnOk result (missing.new ≡ missing.old ++ missing_from (listed.now ∷ []) component) }
{
    match listed.credential {
        Some(_) => Ok(()),
        None => missing.push(component),
    }
}

/// The components that are out: those that are missing, and those that timed out.
#[tactic(auto, unfolding(client_rules::specs::Io::outs))]
pub fn out_of(alloc: Global, held: &Held, timed: &TimedOuts) -> Result<Out, Memory>
    ensures { IfOk result (λ out. out.components ≡ outs held.now timed.now) }
{
    let mut components = missing_of(alloc, held)?;
    for one in timed.as_slice() {
        components.push(one.ask.component)?;
    }
    Ok(Out { components })
}

/// The components that timed out, and one more; components rise.
pub fn timed_with(alloc: Global, one: TimedOut, timed: &TimedOuts) -> Result<TimedOuts, Memory>
    ensures { IfOk result (λ ts. ts ≡ timed_with one timed.now) }
{
    let mut all = TimedOuts::new(alloc);
    for i in 0..timed.len() {
        let other = *timed.get(i);
        if one.ask.component < other.ask.component {
            let (_, rest) = timed.as_slice().split_at(i);
            all.push(one)?;
            all.extend_from_slice(rest)?;
            return Ok(all);
        }
        all.push(other)?;
    }
    all.push(one)?;
    Ok(all)
}
