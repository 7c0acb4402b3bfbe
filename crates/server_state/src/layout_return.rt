ghost use Rattle.std.specs.Prelude.{ℕ, List, ◌≡◌, ◌≤◌, ◌<◌, ◌^◌, None, if◌then◌else◌, length, IfOk, OnOk};
ghost use Rattle.server_rules.specs.Grants.{without};
ghost use Rattle.server_rules.specs.declared.limits.TheConstants.{GREATEST_TAG};
ghost use Rattle.server_rules.specs.Return.{Fencing, Taken, takes_loss, by_return, returns_on};
ghost use Rattle.server_requests.specs.Rows.{returned_rule};
ghost use Rattle.file_jobs.specs.Sound.{IsSoundFile};
ghost use Rattle.file_jobs.specs.Steps.{Steps};
ghost use Rattle.file_jobs.specs.Works.{noted};
ghost use Rattle.server_rules.specs.Numbers.{among};
ghost use Rattle.server_rules.specs.declared.notes.NoteKind.TheVariants.{Reported};
ghost use Rattle.server_state.specs.FileRequests.{Serves, LeavesFile, reported};

use crate::outcome::{Asking, Outcome, says};
use file_jobs::{FileState, note, revoke};
use layout_ops::{NFS4_OK, NFS4ERR_LAYOUTUNAVAILABLE};
use layout_types::IoErr;
use osd_lists::{Memory, Numbers};
use server_requests::{Returned, is_among, return_row, without, without_these};
use server_rules::{Effects, LOSS_TAKEN, NO_COMPONENT, NoteKind};
use std::alloc::Global;

// The client's grant goes.
fn end_grant(alloc: Global, file: &mut FileState, client: u32) -> Result<(), Memory>
    ensures { OnOk result (file.new
        ≡ record file.old { kept = record file.old.kept { grants = without file.old.kept.grants client } }) }
{
    file.kept.grants = without(alloc, file.kept.grants.as_slice(), client)?;
    Ok(())
}

// A note, where the component is one of these.
fn report_one(
    file: &FileState,
    effects: &mut Effects,
    numbers: &[u32],
    component: u32,
) -> Result<(), Memory>
    ensures { OnOk result (effects.new
        ≡ (if among component numbers.now
        then noted effects.old file.now.kept.number (Reported component) else effects.old)) }
{
    if is_among(component, numbers) {
        note(effects, file.kept.number, NoteKind::Reported { component })?;
    }
    Ok(())
}

// A note for each of these components, in rising order.
#[tactic(auto, unfolding(crate::specs::FileRequests::reported))]
fn report(file: &FileState, effects: &mut Effects, numbers: &[u32]) -> Result<(), Memory>
    requires { length file.now.kept.components ≤ 64 }
    ensures rule { OnOk result (effects.new
        ≡ reported numbers.now file.now.kept.components 0 file.now.kept.number effects.old) }
{
    let mut component = 0u32;
    for _ in file.kept.components.as_slice() {
        report_one(file, effects, numbers, component)?;
        component += 1;
    }
    Ok(())
}

// Takes the components of these numbers as missing.
fn take_loss(
    alloc: Global,
    file: &mut FileState,
    effects: &mut Effects,
    numbers: &Numbers,
) -> Result<(), Memory>
    requires sound { IsSoundFile file.old }
    requires idle { file.old.job ≡ None }
    ensures rule { OnOk result (Steps (λ go. takes_loss go numbers.now) file.old effects.old file.new effects.new) }
    ensures leaves { OnOk result (LeavesFile file.old file.new) }
{
    report(file, effects, numbers.as_slice())?;
    file.kept.components = without_these(
        alloc,
        numbers.as_slice(),
        file.kept.components.as_slice(),
    )?;
    Ok(())
}

// What the row does.
fn by_row(
    alloc: Global,
    file: &mut FileState,
    effects: &mut Effects,
    asking: &Asking,
    row: &Returned,
) -> Result<Outcome, Memory>
    requires sound { IsSoundFile file.old }
    requires idle { (ks : List ℕ) → returned_rule row.now ≡ Taken ks → file.old.job ≡ None }
    requires next { returned_rule row.now ≡ Fencing → file.old.kept.tag < GREATEST_TAG }
    requires low { effects.old.nonce < 2 ^ 63 }
    ensures rule { IfOk result (λ o. Serves
        (λ go. by_return go asking.now.format asking.now.client (returned_rule row.now))
        file.old effects.old o file.new effects.new) }
    ensures told { IfOk result (λ o. o.told.grant ≡ None) }
    ensures numbers { IfOk result (λ o. o.numbers ≡ 0) }
    ensures leaves { OnOk result (LeavesFile file.old file.new) }
{
    match row {
        Returned::NoGrant => Ok(says(alloc, NFS4_OK, 0)),
        Returned::Clean => {
            end_grant(alloc, file, asking.client)?;
            Ok(says(alloc, NFS4_OK, 0))
        }
        Returned::Taken { components } => {
            take_loss(alloc, file, effects, components)?;
            end_grant(alloc, file, asking.client)?;
            Ok(says(alloc, NFS4_OK, LOSS_TAKEN))
        }
        Returned::TooMany => {
            note(effects, file.kept.number, NoteKind::Spent)?;
            Ok(says(alloc, NFS4ERR_LAYOUTUNAVAILABLE, NO_COMPONENT))
        }
        Returned::Fencing => {
            revoke(alloc, file, effects, asking.format)?;
            Ok(says(alloc, NFS4_OK, 0))
        }
    }
}

// The tag of a file. As a result it is known to be a number of 32 bits.
fn tag_of(file: &FileState) -> u32
    ensures value { result ≡ file.now.kept.tag }
    ensures fits { result ≤ GREATEST_TAG }
{
    file.kept.tag
}

/// A LAYOUTRETURN at a file, with a report.
#[tactic(auto, unfolding(server_rules::specs::Return::returns_on))]
pub fn give_back(
    alloc: Global,
    file: &mut FileState,
    effects: &mut Effects,
    asking: &Asking,
    report: &[IoErr],
) -> Result<Outcome, Memory>
    requires sound { IsSoundFile file.old }
    requires low { effects.old.nonce < 2 ^ 63 }
    ensures rule { IfOk result (λ o. Serves (λ go. returns_on go asking.now.format asking.now.client report.now)
        file.old effects.old o file.new effects.new) }
    ensures told { IfOk result (λ o. o.told.grant ≡ None) }
    ensures numbers { IfOk result (λ o. o.numbers ≡ 0) }
    ensures leaves { OnOk result (LeavesFile file.old file.new) }
{
    let row = return_row(alloc, &file.kept, asking.client, report)?;
    let _ = tag_of(file);
    by_row(alloc, file, effects, asking, &row)
}
