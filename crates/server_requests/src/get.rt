ghost use Rattle.std.specs.Prelude.{◌≡◌, ◌≤◌, ◌+◌, length, IfOk};
ghost use Rattle.data_map.specs.declared.check.TheConstants.{MAX_COMPONENTS};
ghost use Rattle.data_map.specs.declared.ranges.TheConstants.{MAX_FILE_SIZE};
ghost use Rattle.server_rules.specs.Get.{must_fence, late};
ghost use Rattle.server_requests.specs.Bounds.{IsLow};
ghost use Rattle.server_requests.specs.Rows.{early_rule, early_of, IsFit, IsNumbered, asked_by, late_rule};

use crate::grant_lists::any_expired;
use crate::lacks::lacked;
use data_map::MAX_FILE_SIZE;
use grant_table::{first_against, grant_of};
use layout_ops::{LAYOUTIOMODE4_READ, LAYOUTIOMODE4_RW};
use osd_lists::Memory;
use server_rules::{GREATEST_GRANT, Grant, Kept, LEASE};
use std::alloc::Global;

/// What a LAYOUTGET asks: these bytes of the file, in this mode.
#[derive(Clone, Copy, PartialEq, Eq)]
pub struct Wanted {
    pub iomode: u32,
    pub offset: u64,
    pub length: u64,
}

/// The row of a LAYOUTGET that looks at no grant. The first that applies is given, in this order.
#[derive(Clone, Copy, PartialEq, Eq)]
pub enum Early {
    /// The mode is neither for reading nor for reading and writing.
    BadMode,
    /// No bytes are asked, or some past the end of the largest file.
    Invalid,
    /// A fence of the file was refused when the server was opened.
    Unable,
    /// A job of the file waits, for this component and none lower.
    Waits { component: u32 },
    /// None of these: the rows that look at grants apply.
    On,
}

/// The row of a LAYOUTGET that looks at no grant, on a file whose fence was refused or not, and whose job,
/// if there is one, waits for this component.
#[tactic(auto, unfolding(crate::specs::Rows::early_of))]
pub fn early_row(spent: bool, waits: Option<u32>, wanted: &Wanted) -> Early
    ensures row { early_rule result ≡ early_of spent waits wanted.now.iomode wanted.now.offset wanted.now.length }
    ensures fits { IsFit result (wanted.now.offset + wanted.now.length) }
{
    if wanted.iomode != LAYOUTIOMODE4_READ && wanted.iomode != LAYOUTIOMODE4_RW {
        return Early::BadMode;
    }
    let end = u128::from(wanted.offset) + u128::from(wanted.length);
    if wanted.length == 0 || end > u128::from(MAX_FILE_SIZE) {
        return Early::Invalid;
    }
    if spent {
        return Early::Unable;
    }
    match waits {
        Some(component) => Early::Waits { component },
        None => Early::On,
    }
}

/// The grant that a client would get for these bytes: whole stripes, for 90 seconds of the server's clock.
#[tactic(auto, unfolding(server_rules::specs::Grants::asked))]
pub fn asked(kept: &Kept, number: u64, client: u32, now: u64, wanted: &Wanted) -> Grant
    requires { wanted.now.offset + wanted.now.length ≤ MAX_FILE_SIZE }
    ensures value { result ≡ asked_by kept.now number client now wanted.now }
    ensures low { IsLow result }
{
    let stripe = kept.map.stripe_length();
    let end = wanted.offset + wanted.length;
    let rw = wanted.iomode == LAYOUTIOMODE4_RW;
    Grant {
        number: number.min(u64::from(GREATEST_GRANT)) as u32,
        client,
        file: kept.number,
        rw,
        extending: rw && kept.size < end,
        first: wanted.offset / stripe,
        end: (end + (stripe - 1)) / stripe,
        expiry: now.saturating_add(LEASE),
    }
}

/// Whether a fence comes before the grant: its client has one already, or one that conflicts is expired.
#[tactic(auto, unfolding(server_rules::specs::Get::must_fence))]
pub fn must_fence(now: u64, grants: &[Grant], asked: &Grant) -> bool
    ensures { result ≡ must_fence now grants.now asked.now }
{
    grant_of(grants, asked.client).is_some() || any_expired(now, grants, asked)
}

/// The row of a LAYOUTGET behind those of the fence. The first that applies is given, in this order.
#[derive(Clone, Copy, PartialEq, Eq)]
pub enum Late {
    /// No number is left for a grant.
    NoNumber,
    /// A writer would lack this component, and none lower.
    Lacks { component: u32 },
    /// A grant of this client conflicts; of several the oldest grant's client.
    Conflict { holder: u32 },
    /// The grant is given.
    Gives,
}

/// The row of a LAYOUTGET behind those of the fence, where the next grant has this number.
#[tactic(auto, unfolding(server_rules::specs::Get::late))]
pub fn late_row(alloc: Global, kept: &Kept, number: u64, asked: &Grant) -> Result<Late, Memory>
    requires { length kept.now.components ≤ MAX_COMPONENTS }
    ensures row { IfOk result (λ row. late_rule row ≡ late kept.now number asked.now) }
    ensures number { IfOk result (λ row. IsNumbered row number) }
{
    if number > u64::from(GREATEST_GRANT) {
        return Ok(Late::NoNumber);
    }
    if let Some(component) = lacked(alloc, kept, asked)? {
        return Ok(Late::Lacks { component });
    }
    match first_against(kept.grants.as_slice(), asked) {
        Some(held) => Ok(Late::Conflict {
            holder: held.client,
        }),
        None => Ok(Late::Gives),
    }
}
