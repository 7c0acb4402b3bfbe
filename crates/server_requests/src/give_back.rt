ghost use Rattle.std.specs.Prelude.{◌≡◌, ◌≤◌, ◌<◌, All, IfOk, IfSome, length};
ghost use Rattle.data_map.specs.declared.check.TheConstants.{MAX_COMPONENTS};
ghost use Rattle.server_rules.specs.Numbers.{among};
ghost use Rattle.server_rules.specs.Standing.{lose_from};
ghost use Rattle.server_rules.specs.Return.{none_beyond, bearable, by_loss, loss, by_report, return_row};
ghost use Rattle.server_requests.specs.Rows.{returned_rule};

use crate::reports::named;
use data_map::DataMap;
use grant_table::grant_of;
use layout_types::IoErr;
use osd_lists::{Memory, Numbers};
use server_rules::{Component, Components, GREATEST_TAG, Grant, Kept};
use std::alloc::Global;
use stripe_repair::{group_with, is_beyond};

/// Whether a number is one of these.
#[tactic(auto, unfolding(server_rules::specs::Numbers::among))]
pub fn is_among(number: u32, numbers: &[u32]) -> bool
    ensures { result ≡ among number numbers.now }
{
    for other in numbers {
        if number == *other {
            return true;
        }
    }
    false
}

/// The components, those with these numbers missing.
#[tactic(auto, unfolding(server_rules::specs::Standing::lose_from))]
pub fn without_these(
    alloc: Global,
    numbers: &[u32],
    components: &[Component],
) -> Result<Components, Memory>
    requires { length components.now ≤ MAX_COMPONENTS }
    ensures value { IfOk result (λ cs. cs ≡ lose_from numbers.now components.now 0) }
    ensures many { IfOk result (λ cs. length cs ≡ length components.now) }
{
    let mut left = Components::new(alloc);
    let mut number = 0u32;
    for at in components {
        let missing = at.missing || is_among(number, numbers);
        left.push(Component { missing, ..*at })?;
        number += 1;
    }
    Ok(left)
}

// Whether each group of these components can still be decoded.
#[tactic(auto, unfolding(server_rules::specs::Return::none_beyond))]
fn none_beyond(
    alloc: Global,
    map: &DataMap,
    components: &[Component],
    numbers: &[u32],
) -> Result<bool, Memory>
    requires few { length components.now ≤ MAX_COMPONENTS }
    requires inside { All (λ k. k < MAX_COMPONENTS) numbers.now }
    ensures { IfOk result (λ b. b ≡ none_beyond map.now components.now numbers.now) }
{
    for number in numbers {
        if is_beyond(alloc, map, components, group_with(map, *number))? {
            return Ok(false);
        }
    }
    Ok(true)
}

// The components of these numbers, if each group can be decoded without them.
fn bearable(alloc: Global, kept: &Kept, numbers: Numbers) -> Result<Option<Numbers>, Memory>
    requires few { length kept.now.components ≤ MAX_COMPONENTS }
    requires inside { All (λ k. k < MAX_COMPONENTS) numbers }
    ensures { IfOk result (λ ks. ks ≡ bearable kept.now (Some numbers)) }
{
    let left = without_these(alloc, numbers.as_slice(), kept.components.as_slice())?;
    if none_beyond(alloc, &kept.map, left.as_slice(), numbers.as_slice())? {
        return Ok(Some(numbers));
    }
    Ok(None)
}

/// The components that become missing where a report is taken as a loss, `None` where it isn't: the grant is
/// for writing and the file's only one, the entries name components of drives that weren't reached, and
/// the groups of these can be decoded without them.
#[tactic(auto, unfolding(server_rules::specs::Return::loss))]
pub fn loss(
    alloc: Global,
    kept: &Kept,
    grant: &Grant,
    report: &[IoErr],
) -> Result<Option<Numbers>, Memory>
    requires { length kept.now.components ≤ MAX_COMPONENTS }
    ensures { IfOk result (λ ks. ks ≡ loss kept.now grant.now report.now) }
{
    if !(grant.rw && kept.grants.len() == 1) {
        return Ok(None);
    }
    match named(alloc, report, kept.components.as_slice())? {
        Some(numbers) => bearable(alloc, kept, numbers),
        None => Ok(None),
    }
}

/// What a LAYOUTRETURN comes to.
#[derive(PartialEq, Drop)]
pub enum Returned {
    /// The client has no grant on the file.
    NoGrant,
    /// Without a report: the grant goes.
    Clean,
    /// The report is taken as a loss: these components become missing, and the grant goes.
    Taken { components: Numbers },
    /// A fence would be needed, and the tag of the file is the greatest.
    TooMany,
    /// A fence starts.
    Fencing,
}

// A loss, or a fence where the tag isn't the greatest.
fn by_loss(kept: &Kept, loss: Option<Numbers>) -> Returned
    ensures { returned_rule result ≡ by_loss kept.now loss }
{
    match loss {
        Some(components) => Returned::Taken { components },
        None if kept.tag == GREATEST_TAG => Returned::TooMany,
        None => Returned::Fencing,
    }
}

// The row of a report under a grant.
fn by_report(
    alloc: Global,
    kept: &Kept,
    grant: &Grant,
    report: &[IoErr],
) -> Result<Returned, Memory>
    requires { length kept.now.components ≤ MAX_COMPONENTS }
    ensures { IfOk result (λ row. returned_rule row ≡ by_report kept.now grant.now report.now) }
{
    if report.is_empty() {
        return Ok(Returned::Clean);
    }
    Ok(by_loss(kept, loss(alloc, kept, grant, report)?))
}

/// The row of a client's LAYOUTRETURN with a report.
#[tactic(auto, unfolding(server_rules::specs::Return::return_row))]
pub fn return_row(
    alloc: Global,
    kept: &Kept,
    client: u32,
    report: &[IoErr],
) -> Result<Returned, Memory>
    requires { length kept.now.components ≤ MAX_COMPONENTS }
    ensures { IfOk result (λ row. returned_rule row ≡ return_row kept.now client report.now) }
{
    match grant_of(kept.grants.as_slice(), client) {
        Some(grant) => by_report(alloc, kept, &grant, report),
        None => Ok(Returned::NoGrant),
    }
}
