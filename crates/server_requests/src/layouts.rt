ghost use Rattle.std.specs.Prelude.{◌≡◌, ◌≤◌, ◌+◌, length, IfOk};
ghost use Rattle.data_map.specs.declared.check.TheConstants.{MAX_COMPONENTS, MAX_DEPTH};
ghost use Rattle.data_map.specs.declared.ranges.TheConstants.{MAX_FILE_SIZE};
ghost use Rattle.server_rules.specs.Maps.{rows_in};
ghost use Rattle.server_rules.specs.Layouts.{capability_for, capability_on, device_of, object_of, key_bytes, no_credential, credential, credentials_from, layout_for};
ghost use Rattle.layout_types.specs.Spelling.{CredWritable, LayoutWritable};
ghost use Rattle.server_requests.specs.Keys.{IsKeyAt};
ghost use Rattle.server_requests.specs.Bounds.{IsLow, IsCredential};

use crate::lacks::rows_below;
use crate::seals::key_of_drive;
use data_map::DataMap;
use layout_types::{DEVICE_ID_BYTES, KeySecurity, Layout, ObjId, ObjectCred, OsdVersion};
use osd_capability::{CapKey, Capability, capability_key};
use osd_lists::{Bytes, Memory, Sequence, put_u64};
use server_rules::{
    Component, Drive, FIRST_PARTITION, Grant, KEY_VERSION, Kept, READ_RIGHTS, Stripes, WRITE_RIGHTS,
};
use std::alloc::Global;
use stripe_repair::group_with;

// The place of a drive's number in a device id.
pub(crate) const DRIVE_AT: usize = 8;

/// The rows that a range of stripes has in a group; where it has none, none from 0 on.
#[tactic(auto, unfolding(server_rules::specs::Maps::rows_in))]
pub fn rows_in(map: &DataMap, group: u32, grant: &Grant) -> Stripes
    requires { IsLow grant.now }
    ensures value { result ≡ rows_in map.now group grant.now.first grant.now.end }
    ensures low { (result.first ≤ result.end) × (result.end ≤ MAX_FILE_SIZE + MAX_DEPTH) }
{
    map.known();
    let first = rows_below(map, group, grant.first);
    let end = rows_below(map, group, grant.end);
    if first < end {
        return Stripes {
            first: first as u64,
            end: end as u64,
        };
    }
    Stripes { first: 0, end: 0 }
}

/// The capability of a component under a grant, whether it is missing or not: for the rows that the granted
/// stripes have there.
pub fn capability_for(kept: &Kept, grant: &Grant, at: &Component, component: u32) -> Capability
    requires { IsLow grant.now }
    ensures { result ≡ capability_for kept.now grant.now at.now component }
{
    let rows = rows_in(&kept.map, group_with(&kept.map, component), grant);
    let unit = kept.map.raw().unit;
    Capability {
        format: kept.format,
        key_version: KEY_VERSION,
        rights: if grant.rw { WRITE_RIGHTS } else { READ_RIGHTS },
        expiry: grant.expiry,
        grant: grant.number,
        holder: grant.client,
        tag: kept.tag,
        partition: FIRST_PARTITION + u64::from(at.drive),
        object: at.object,
        range_start: rows.first * unit,
        range_len: (rows.end - rows.first) * unit,
    }
}

/// The device id of a drive: its number as one of 128 bits.
pub fn device_of(drive: u32) -> [u8; DEVICE_ID_BYTES]
    ensures { result ≡ device_of drive }
{
    let mut id = [0u8; DEVICE_ID_BYTES];
    put_u64(&mut id, DRIVE_AT, u64::from(drive));
    id
}

// The object of a component, its last one where it is missing.
fn object_of(at: &Component) -> ObjId
    ensures { result ≡ object_of at.now }
{
    ObjId {
        oid_device_id: device_of(at.drive),
        oid_partition_id: FIRST_PARTITION + u64::from(at.drive),
        oid_object_id: at.object,
    }
}

// The bytes of a key.
fn key_bytes(alloc: Global, key: &CapKey) -> Result<Bytes, Memory>
    ensures value { IfOk result (λ bytes. bytes ≡ key_bytes key.now) }
    ensures short { IfOk result (λ bytes. length bytes ≤ 32) }
{
    match key {
        CapKey::One(key) => Bytes::copied(alloc, key),
        CapKey::Two(key) => Bytes::copied(alloc, key),
    }
}

// A missing component's credential: no capability.
pub(crate) fn no_credential(alloc: Global, at: &Component) -> ObjectCred
    ensures value { result ≡ no_credential at.now }
    ensures short { IsCredential result }
{
    ObjectCred {
        oc_object_id: object_of(at),
        oc_osd_version: OsdVersion::Missing,
        oc_cap_key_sec: KeySecurity::None,
        oc_capability_key: Bytes::new(alloc),
        oc_capability: Bytes::new(alloc),
    }
}

/// The credential of a component under a grant, as if it were present: its capability with the key in clear.
#[tactic(auto, unfolding(server_rules::specs::Layouts::credential))]
pub fn credential(
    alloc: Global,
    drives: &[Drive],
    kept: &Kept,
    grant: &Grant,
    at: &Component,
    component: u32,
) -> Result<ObjectCred, Memory>
    requires { IsLow grant.now }
    ensures value { IfOk result (λ c. c ≡ credential drives.now kept.now grant.now at.now component) }
    ensures short { IfOk result IsCredential }
{
    let capability = capability_for(kept, grant, at, component);
    let key = capability_key(&key_of_drive(drives, at.drive), &capability);
    Ok(ObjectCred {
        oc_object_id: object_of(at),
        oc_osd_version: OsdVersion::Version2,
        oc_cap_key_sec: KeySecurity::None,
        oc_capability_key: key_bytes(alloc, &key)?,
        oc_capability: Bytes::copied(alloc, &capability.to_bytes())?,
    })
}
