// Commands by stripe, component and offset.
ghost use Rattle.std.specs.Prelude.{◌≡◌, ◌<◌, ◌≤◌, ◌-◌, true, false, length, drop, reverse, slice_index_or, IfOk, OnOk};
ghost use Rattle.std.specs.List.{All};
ghost use Rattle.client_rules.specs.Commands.{before, in_order, placed};
ghost use Rattle.call_commands.specs.State.{Awaited};

use crate::having::before;
use crate::pending::PendingCommands;
use client_rules::{Awaited, AwaitedCommands};
use osd_lists::Memory;
use std::alloc::Global;
use stripe_plan::Ask;

// How many of the commands, which stand in falling order, stay before another: all up to the last that it comes before.
fn place_of(falling: &[Awaited], ask: &Ask) -> usize
    ensures inside { result ≤ length falling.now }
    ensures passed { All (λ b. before ask.now b.ask ≡ false) (drop result falling.now) }
    ensures here { (d : Awaited) → 0 < result
        → before ask.now (slice_index_or falling.now (result - 1) d).ask ≡ true }
{
    for i in (0..falling.len()).rev() {
        if before(ask, &falling[i].ask) {
            return i + 1;
        }
    }
    0
}

// Puts a command at its place among those in falling order.
fn place(falling: &mut Vec<Awaited>, awaited: Awaited) -> Result<(), Memory>
    ensures { OnOk result (reverse falling.new.items ≡ placed awaited (reverse falling.old.items)) }
{
    let place = place_of(falling.as_slice(), &awaited.ask);
    falling.insert(place, awaited)?;
    Ok(())
}

// The commands from the last to the first.
fn reversed(alloc: Global, mut falling: Vec<Awaited>) -> Result<AwaitedCommands, Memory>
    ensures { IfOk result (λ commands. commands ≡ reverse falling.items) }
{
    let mut commands = AwaitedCommands::new(alloc);
    while let Some(awaited) = falling.pop() {
        commands.push(awaited)?;
    }
    Ok(commands)
}

/// Copies of the awaited commands by stripe, component and offset. Of those that are for the same place of the same
/// component the last one comes first.
///
/// They are placed from the last one on, among those that come after them the first one last: where they were sent in
/// that order, each comes to the end, and none is moved.
pub fn in_order(alloc: Global, pending: &PendingCommands) -> Result<AwaitedCommands, Memory>
    ensures { IfOk result (λ commands. commands ≡ in_order pending.now) }
{
    let mut unplaced = pending.copies(alloc)?;
    let mut falling = Vec::new(alloc);
    while let Some(awaited) = unplaced.pop() {
        place(&mut falling, awaited)?;
    }
    let commands = reversed(alloc, falling)?;
    Ok(commands)
}
