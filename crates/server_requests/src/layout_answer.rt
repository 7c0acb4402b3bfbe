ghost use Rattle.std.specs.Prelude.{◌≡◌, ◌≤◌, length, IfOk};
ghost use Rattle.std.specs.List.{AllByRecursion};
ghost use Rattle.server_rules.specs.declared.limits.TheConstants.{MAX_FILE_COMPONENTS};
ghost use Rattle.layout_types.specs.Spelling.{CredWritable, LayoutWritable};
ghost use Rattle.layout_ops.specs.Spelling.{GetOkWritable, IsBody};
ghost use Rattle.server_rules.specs.Layouts.{credentials_from, layout_for, body_of, stateid_of, segment_for, granted};
ghost use Rattle.server_requests.specs.Bounds.{IsLow, IsCredential, IsSmall, listed};

use crate::layouts::{credential, no_credential};
use layout_ops::{
    LAYOUTIOMODE4_READ, LAYOUTIOMODE4_RW, LayoutGetOk, LayoutSegment, STATEID_OTHER_BYTES, StateId,
};
use layout_types::{Layout, ObjectCred, Structure};
use osd_lists::{Bytes, Memory, Sequence, put_u32};
use server_rules::{Component, Drive, Grant, Kept};
use std::alloc::Global;

// The place of a grant's number in a state id.
const GRANT_AT: usize = 8;

// The credential of a component; that of a missing one has no capability.
fn listed(
    alloc: Global,
    drives: &[Drive],
    kept: &Kept,
    grant: &Grant,
    at: &Component,
    component: u32,
) -> Result<ObjectCred, Memory>
    requires { IsLow grant.now }
    ensures value { IfOk result (λ c. c ≡ listed drives.now kept.now grant.now at.now component) }
    ensures short { IfOk result IsCredential }
{
    if at.missing {
        return Ok(no_credential(alloc, at));
    }
    credential(alloc, drives, kept, grant, at, component)
}

// The credentials of all components, in order.
#[tactic(auto, unfolding(server_rules::specs::Layouts::credentials_from))]
fn credentials(
    alloc: Global,
    drives: &[Drive],
    kept: &Kept,
    grant: &Grant,
) -> Result<Sequence<ObjectCred>, Memory>
    requires low { IsLow grant.now }
    requires few { length kept.now.components ≤ MAX_FILE_COMPONENTS }
    ensures value { IfOk result (λ cs. cs ≡ credentials_from drives.now kept.now grant.now kept.now.components 0) }
    ensures small { IfOk result IsSmall }
{
    let mut list = Sequence::new(alloc);
    let mut component = 0u32;
    for at in kept.components.as_slice() {
        list.push(listed(alloc, drives, kept, grant, at, component)?)?;
        component += 1;
    }
    Ok(list)
}

/// The layout of a grant: every component, in the bytes that an answer carries.
#[tactic(auto, unfolding(server_rules::specs::Layouts::body_of))]
pub fn layout_body(
    alloc: Global,
    drives: &[Drive],
    kept: &Kept,
    grant: &Grant,
) -> Result<Bytes, Memory>
    requires low { IsLow grant.now }
    requires few { length kept.now.components ≤ MAX_FILE_COMPONENTS }
    ensures value { IfOk result (λ body. body ≡ body_of (layout_for drives.now kept.now grant.now)) }
    ensures short { IfOk result IsBody }
{
    let layout = Layout {
        olo_map: kept.map.raw(),
        olo_comps_index: 0,
        olo_components: credentials(alloc, drives, kept, grant)?,
    };
    layout.write(alloc)
}

/// What names a grant to its client.
pub fn stateid_of(grant: u32) -> StateId
    ensures { result ≡ stateid_of grant }
{
    let mut other = [0u8; STATEID_OTHER_BYTES];
    put_u32(&mut other, GRANT_AT, grant);
    StateId { seqid: 1, other }
}

/// What LAYOUTGET gives for a grant: one layout, of the stripes of the grant.
pub fn granted(
    alloc: Global,
    drives: &[Drive],
    kept: &Kept,
    grant: &Grant,
) -> Result<LayoutGetOk, Memory>
    requires low { IsLow grant.now }
    requires few { length kept.now.components ≤ MAX_FILE_COMPONENTS }
    ensures value { IfOk result (λ g. g ≡ granted drives.now kept.now grant.now) }
    ensures writable { IfOk result GetOkWritable }
{
    let stripe = kept.map.stripe_length();
    let mut layouts = Sequence::new(alloc);
    layouts.push(LayoutSegment {
        offset: grant.first * stripe,
        length: (grant.end - grant.first) * stripe,
        iomode: if grant.rw {
            LAYOUTIOMODE4_RW
        } else {
            LAYOUTIOMODE4_READ
        },
        body: layout_body(alloc, drives, kept, grant)?,
    })?;
    Ok(LayoutGetOk {
        return_on_close: false,
        stateid: stateid_of(grant.number),
        layouts,
    })
}
