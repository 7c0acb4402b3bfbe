ghost use Rattle.std.specs.Prelude.{◌≡◌, ◌≤◌, ◌<◌, All, IfOk, IfSome, length};
ghost use Rattle.data_map.specs.declared.check.TheConstants.{MAX_COMPONENTS};
ghost use Rattle.server_rules.specs.Return.{is_device, is_at, named_from, named_by, named};

use crate::layouts::DRIVE_AT;
use layout_types::{DEVICE_ID_BYTES, Errno, IoErr, ObjId};
use osd_lists::{Memory, Numbers, u64_at};
use server_rules::{Component, FIRST_PARTITION};
use std::alloc::Global;

/// Whether a device id is the project's for this drive: its number as one of 128 bits.
#[tactic(auto, unfolding(server_rules::specs::Return::is_device))]
fn is_device(id: &[u8; DEVICE_ID_BYTES], drive: u32) -> bool
    ensures { result ≡ is_device id.now drive }
{
    u64_at(id, 0) == 0 && u64_at(id, DRIVE_AT) == u64::from(drive)
}

// Whether this is the component's object.
fn is_at(object: &ObjId, at: &Component) -> bool
    ensures { result ≡ is_at object.now at.now }
{
    is_device(&object.oid_device_id, at.drive)
        && object.oid_partition_id == FIRST_PARTITION + u64::from(at.drive)
        && object.oid_object_id == at.object
}

// The component whose present or last object the entry names.
#[tactic(auto, unfolding(server_rules::specs::Return::named_from))]
fn named_from(entry: &IoErr, components: &[Component]) -> Option<u32>
    requires { length components.now ≤ MAX_COMPONENTS }
    ensures value { result ≡ named_from entry.now components.now 0 }
    ensures inside { IfSome result (λ k. k < MAX_COMPONENTS) }
{
    let mut component = 0u32;
    for at in components {
        if is_at(&entry.oer_component, at) {
            return Some(component);
        }
        component += 1;
    }
    None
}

// The component that an entry for a drive that wasn't reached names.
fn named_by(entry: &IoErr, components: &[Component]) -> Option<u32>
    requires { length components.now ≤ MAX_COMPONENTS }
    ensures value { result ≡ named_by entry.now components.now }
    ensures inside { IfSome result (λ k. k < MAX_COMPONENTS) }
{
    match entry.oer_errno {
        Errno::Unreachable => named_from(entry, components),
        _ => None,
    }
}

/// The components that the entries of a report name, `None` exactly where one is for another cause than a
/// drive that wasn't reached, or names no component at its present or last object.
#[tactic(auto, unfolding(server_rules::specs::Return::named))]
pub fn named(
    alloc: Global,
    report: &[IoErr],
    components: &[Component],
) -> Result<Option<Numbers>, Memory>
    requires { length components.now ≤ MAX_COMPONENTS }
    ensures value { IfOk result (λ ks. ks ≡ named report.now components.now) }
    ensures inside { IfOk result (λ o. IfSome o (All (λ k. k < MAX_COMPONENTS))) }
{
    let mut numbers = Numbers::new(alloc);
    for entry in report {
        match named_by(entry, components) {
            Some(component) => numbers.push(component)?,
            None => return Ok(None),
        }
    }
    Ok(Some(numbers))
}
