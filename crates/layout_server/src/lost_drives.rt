ghost use Rattle.std.specs.Prelude.{◌≡◌, ◌==◌, ◌≤◌, ℕ, List, find, is_some, length, IfOk, OnOk};
ghost use Rattle.layout_ops.specs.declared.orders.OrderKind.TheVariants as order;
ghost use Rattle.server_rules.specs.Jobs.{declares};
ghost use Rattle.server_rules.specs.Orders.{ordered, declare, offline};
ghost use Rattle.stripe_repair.specs.Placing.{AreDifferent, drives_of};
ghost use Rattle.zone_place.specs.declared.loads.TheConstants.{MAX_DRIVES};
ghost use Rattle.file_jobs.specs.Placing.{AreLoadsOf};
ghost use Rattle.server_state.specs.States.{server_of, Did, IsGood};
ghost use Rattle.layout_server.specs.Orders.{Obeys};

use crate::loads::loads_of;
use crate::orders::{Obeyed, unknown};
use crate::rounds::{FileStep, at_each_file};
use file_jobs::{FileState, declare as declare_at};
use layout_ops::OrderResult;
use osd_lists::Memory;
use server_rules::{Drive, Effects};
use server_state::{Drives, State, Step, finish_step, list_all, no_effects};
use std::alloc::Global;
use stripe_repair::{DriveLoad, Place};

// The drives, of which one is offline.
#[tactic(auto, unfolding(server_rules::specs::Orders::offline))]
fn offline(alloc: Global, drives: &[Drive], lost: u32) -> Result<Drives, Memory>
    ensures { IfOk result (λ left. left ≡ offline drives.now lost) }
{
    let mut left = Drives::new(alloc);
    for drive in drives {
        let online = drive.online && drive.number != lost;
        left.push(Drive { online, ..*drive })?;
    }
    Ok(left)
}

// The drive is one of these.
fn is_known(drives: &[Drive], number: u32) -> bool
    ensures { result ≡ is_some (find (λ d. d.number == number) drives.now) }
{
    for drive in drives {
        if drive.number == number {
            return true;
        }
    }
    false
}

// A drive that is declared. It isn't online any more among the loads.
#[derive(Drop)]
struct Declaration<'a, P> {
    drive: u32,
    loads: &'a [DriveLoad],
    placer: &'a P,
}

impl<'a, P: Place> FileStep for Declaration<'a, P> {
    ghost rule = { λ d g. declares g d.drive };

    ghost fits = { λ d ds. AreLoadsOf d.loads.now ds };

    ghost can = { λ d. (length d.loads.now ≤ MAX_DRIVES) × AreDifferent (drives_of d.loads.now)
        × P.is_placer d.placer.now };

    fn at_file(
        &self,
        alloc: Global,
        file: &mut FileState,
        effects: &mut Effects,
    ) -> Result<(), Memory> {
        declare_at(alloc, file, effects, self.drive, self.loads, self.placer)?;
        Ok(())
    }
}

// The step of a declaration of a drive that there is.
fn declare_all<P: Place>(
    alloc: Global,
    state: &mut State,
    drive: u32,
    placer: &P,
) -> Result<Step, Memory>
    requires good { IsGood state.old }
    requires placer { P.is_placer placer.now }
    ensures did { IfOk result (λ out. (chosen : List ℕ) × Did out (server_of state.new)
        (declare (server_of state.old) chosen drive)) }
    ensures good { OnOk result (IsGood state.new) }
{
    state.drives = offline(alloc, state.drives.as_slice(), drive)?;
    let loads = loads_of(alloc, state)?;
    let declaration = Declaration {
        drive,
        loads: loads.as_slice(),
        placer,
    };
    let mut effects = no_effects(alloc, state.next_nonce, state.next_object);
    at_each_file(alloc, &mut state.files, &mut effects, &declaration)?;
    let step = finish_step(alloc, state, effects)?;
    list_all(alloc, state)?;
    Ok(step)
}

/// A drive is offline from now on, and each component on it missing.
///
/// # Errors
///
/// Want of memory; and, in place of it, a counter of 64 bits without room in the middle of the step.
#[tactic(auto, unfolding(server_rules::specs::Orders::ordered))]
pub fn order_declare<P: Place>(
    alloc: Global,
    state: &mut State,
    drive: u32,
    placer: &P,
) -> Result<Obeyed, Memory>
    requires good { IsGood state.old }
    requires placer { P.is_placer placer.now }
    ensures obeys { IfOk result (λ o. (chosen : List ℕ) × Obeys o (server_of state.new)
        (ordered (server_of state.old) chosen order.Declare drive)) }
    ensures good { OnOk result (IsGood state.new) }
{
    if !is_known(state.drives.as_slice(), drive) {
        return Ok(unknown(alloc));
    }
    let step = declare_all(alloc, state, drive, placer)?;
    let result = OrderResult::Started;
    Ok(Obeyed { step, result })
}
