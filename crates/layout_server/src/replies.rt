ghost use Rattle.std.specs.Prelude.{◌<◌, ◌≤◌, ◌^◌, ℕ, List, length, IfSome, IfNone, IfOk, OnOk};
ghost use Rattle.std.specs.Ordering.{nat_cmp};
ghost use Rattle.std.specs.List.Sorted.{IsStrictlySortedBy};
ghost use Rattle.std.specs.Map.{keys_of};
ghost use Rattle.server_rules.specs.Messages.{on_drive_reply};
ghost use Rattle.stripe_repair.specs.Placing.{AreDifferent, drives_of};
ghost use Rattle.zone_place.specs.declared.loads.TheConstants.{MAX_DRIVES};
ghost use Rattle.file_jobs.specs.Placing.{AreLoadsOf};
ghost use Rattle.server_state.specs.Tables.{AreEntries};
ghost use Rattle.server_state.specs.States.{server_of, Did, HasRoom, IsGood, IsGoodBut};
ghost use Rattle.layout_server.specs.Hearing.{AwaitedAt, AwaitedNowhere, HeardIn};

use crate::loads::loads_of;
use file_jobs::on_reply;
use osd_commands::Reply;
use osd_lists::Memory;
use server_requests::Sends;
use server_rules::Effects;
use server_state::{Files, State, Step, finish_step, list, no_effects, only_sends, unlist};
use std::alloc::Global;
use stripe_repair::{DriveLoad, Place};

// Says that files stand in the order of their numbers. Nothing runs.
fn in_order(files: &Files)
    ensures { IsStrictlySortedBy nat_cmp (keys_of files.now.entries) }
{
    let _ = files.len();
}

// The number of the first file whose job awaits it.
fn awaiting(state: &State, drive: u32, reply: &Reply) -> Option<u32>
    requires { IsGood state.now }
    ensures some { IfSome result (λ number. AwaitedAt drive reply.now number state.now.files.entries) }
    ensures none { IfNone result (AwaitedNowhere drive reply.now state.now.files.entries) }
{
    in_order(&state.files);
    state.replies.first(reply.nonce, drive)
}

// The file of that number hears it.
fn hear_in<P: Place>(
    alloc: Global,
    files: &mut Files,
    effects: &mut Effects,
    number: u32,
    drive: u32,
    reply: &Reply,
    loads: &[DriveLoad],
    placer: &P,
) -> Result<(), Memory>
    requires few { length loads.now ≤ MAX_DRIVES }
    requires different { AreDifferent (drives_of loads.now) }
    requires placer { P.is_placer placer.now }
    requires files { AreEntries files.old.entries }
    requires low { effects.old.nonce < 2 ^ 63 }
    requires objects { effects.old.object < 2 ^ 63 }
    ensures { OnOk result
        (HeardIn loads.now drive reply.now number files.old.entries effects.old files.new.entries effects.new) }
{
    if let Some(file) = files.get_mut(&number) {
        on_reply(alloc, file, effects, drive, reply, loads, placer)?;
    }
    Ok(())
}

// The step of a reply that the job of that file awaits, which is unlisted.
fn hear_at<P: Place>(
    alloc: Global,
    state: &mut State,
    number: u32,
    drive: u32,
    reply: &Reply,
    loads: &[DriveLoad],
    placer: &P,
) -> Result<Step, Memory>
    requires good { IsGoodBut number state.old }
    requires room { HasRoom (server_of state.old) }
    requires few { length loads.now ≤ MAX_DRIVES }
    requires different { AreDifferent (drives_of loads.now) }
    requires loads { AreLoadsOf loads.now state.old.drives }
    requires placer { P.is_placer placer.now }
    requires awaited { AwaitedAt drive reply.now number state.old.files.entries }
    ensures did { IfOk result (λ out. (chosen : List ℕ) × Did out (server_of state.new)
        (on_drive_reply (server_of state.old) chosen drive reply.now)) }
    ensures good { OnOk result (IsGoodBut number state.new) }
{
    let mut effects = no_effects(alloc, state.next_nonce, state.next_object);
    let files = &mut state.files;
    hear_in(
        alloc,
        files,
        &mut effects,
        number,
        drive,
        reply,
        loads,
        placer,
    )?;
    finish_step(alloc, state, effects)
}

// The same, with what its job awaits and where its components stand from then on.
fn hear<P: Place>(
    alloc: Global,
    state: &mut State,
    number: u32,
    drive: u32,
    reply: &Reply,
    placer: &P,
) -> Result<Step, Memory>
    requires good { IsGood state.old }
    requires room { HasRoom (server_of state.old) }
    requires placer { P.is_placer placer.now }
    requires awaited { AwaitedAt drive reply.now number state.old.files.entries }
    ensures did { IfOk result (λ out. (chosen : List ℕ) × Did out (server_of state.new)
        (on_drive_reply (server_of state.old) chosen drive reply.now)) }
    ensures good { OnOk result (IsGood state.new) }
{
    let loads = loads_of(alloc, state)?;
    let loads = loads.as_slice();
    unlist(state, number);
    let step = hear_at(alloc, state, number, drive, reply, loads, placer)?;
    list(state, number)?;
    Ok(step)
}

/// The step of a drive's reply, at the first file whose job awaits it. One that no job awaits changes nothing.
pub fn on_drive_reply<P: Place>(
    alloc: Global,
    state: &mut State,
    drive: u32,
    reply: &Reply,
    placer: &P,
) -> Result<Step, Memory>
    requires good { IsGood state.old }
    requires room { HasRoom (server_of state.old) }
    requires placer { P.is_placer placer.now }
    ensures did { IfOk result (λ out. (chosen : List ℕ) × Did out (server_of state.new)
        (on_drive_reply (server_of state.old) chosen drive reply.now)) }
    ensures good { OnOk result (IsGood state.new) }
{
    match awaiting(state, drive, reply) {
        Some(number) => hear(alloc, state, number, drive, reply, placer),
        None => Ok(only_sends(alloc, Sends::new(alloc))),
    }
}
