ghost use Rattle.std.specs.Prelude.{◌≡◌, ◌≢◌, ◌≤◌, ◌<◌, ◌-◌, ◌^◌, length, if◌then◌else◌, is_some, IfOk, IfSome, OnOk, OnErr};
ghost use Rattle.osd_commands.specs.declared.actions.Action.TheVariants.{Create, Write, SetAttr, SetTag};
ghost use Rattle.osd_objects.specs.declared.attributes.TheConstants.{FIRST_USER_ATTRIBUTE};
ghost use Rattle.osd_drive.specs.declared.limits.TheConstants.{MAX_TAG};
ghost use Rattle.osd_objects.specs.Store.{object_at, bytes_at, attribute_at};
ghost use Rattle.osd_drive.specs.declared.verdict.Verdict.TheVariants.{Perform};
ghost use Rattle.osd_drive.specs.State.{view_of};
ghost use Rattle.osd_drive.specs.Table.{late_fault_of};
ghost use Rattle.osd_drive.specs.Effects.{lane_for, next_tag, effect_of, result_of};

use crate::replies::reply_with;
use osd_commands::{Action, Command, Reply};
use osd_lists::{Bytes, Memory};
use osd_objects::{LaneEntry, Store};
use std::alloc::Global;

// The lane that a change leaves.
fn lane_for(c: &Command, detail: u64) -> LaneEntry
    ensures { result ≡ lane_for c.now detail }
{
    LaneEntry {
        holder: c.capability.holder,
        nonce: c.nonce,
        action: c.action.number(),
        detail,
    }
}

fn create(store: &mut Store, alloc: Global, c: &Command) -> Result<(), Memory>
    requires late { late_fault_of (view_of store.old c.now) c.now ≡ Perform }
    requires action { c.now.action ≡ Create }
    ensures ok { OnOk result (store.new ≡ effect_of Create store.old c.now) }
    ensures err { OnErr result (store.new ≡ store.old) }
{
    let label = c.payload.as_slice();
    store.create(alloc, c.object, c.capability.tag, label, lane_for(c, 0))
}

fn write(store: &mut Store, alloc: Global, c: &Command) -> Result<(), Memory>
    requires late { late_fault_of (view_of store.old c.now) c.now ≡ Perform }
    requires action { c.now.action ≡ Write }
    requires sized { length c.now.payload ≡ c.now.length }
    ensures ok { OnOk result (store.new ≡ effect_of Write store.old c.now) }
    ensures err { OnErr result (store.new ≡ store.old) }
{
    let bytes = c.payload.as_slice();
    store.write(alloc, c.object, c.offset, bytes, lane_for(c, 0))
}

fn set_attr(store: &mut Store, alloc: Global, c: &Command) -> Result<(), Memory>
    requires late { late_fault_of (view_of store.old c.now) c.now ≡ Perform }
    requires action { c.now.action ≡ SetAttr }
    requires attribute { FIRST_USER_ATTRIBUTE ≤ c.now.attribute }
    ensures ok { OnOk result (store.new ≡ effect_of SetAttr store.old c.now) }
    ensures err { OnErr result (store.new ≡ store.old) }
{
    let value = c.payload.as_slice();
    store.set_attr(alloc, c.object, c.attribute, value, lane_for(c, 0))
}

// The tag after a SET TAG, 0 where there is no such object.
fn next_tag_of(store: &Store, object: u64) -> u32
    requires { IfSome (object_at store.now object) (λ o. o.tag ≢ MAX_TAG) }
    ensures tag { result ≡ next_tag (object_at store.now object) }
    ensures fits { IfSome (object_at store.now object) (λ o. o.tag < 2 ^ 32 - 1) }
{
    match store.state(object) {
        Some(state) => state.tag + 1,
        None => 0,
    }
}

// The new tag.
fn set_tag(store: &mut Store, c: &Command) -> Result<u32, Memory>
    requires late { late_fault_of (view_of store.old c.now) c.now ≡ Perform }
    requires action { c.now.action ≡ SetTag }
    ensures tag { IfOk result (λ tag. tag ≡ next_tag (object_at store.old c.now.object)) }
    ensures ok { OnOk result (store.new ≡ effect_of SetTag store.old c.now) }
    ensures err { OnErr result (store.new ≡ store.old) }
{
    let tag = next_tag_of(store, c.object);
    store.set_tag(c.object, lane_for(c, u64::from(tag)))?;
    Ok(tag)
}

// The length of an object, 0 where there is none.
fn length_of(store: &Store, object: u64) -> u64
    ensures { result ≡ length (bytes_at store.now object) }
{
    match store.state(object) {
        Some(state) => state.length,
        None => 0,
    }
}

/// Performs a command that has no late fault.
pub fn perform_on(store: &mut Store, alloc: Global, c: &Command) -> Result<Reply, Memory>
    requires late { late_fault_of (view_of store.old c.now) c.now ≡ Perform }
    requires attribute { c.now.action ≡ SetAttr → FIRST_USER_ATTRIBUTE ≤ c.now.attribute }
    requires sized { c.now.action ≡ Write → length c.now.payload ≡ c.now.length }
    ensures reply { IfOk result (λ r. r ≡ result_of c.now.action store.old c.now) }
    ensures state { OnOk result (store.new ≡ effect_of c.now.action store.old c.now) }
    ensures err { OnErr result (store.new ≡ store.old) }
{
    let mut detail = 0;
    let mut payload = Bytes::new(alloc);
    match c.action {
        Action::Create => create(store, alloc, c)?,
        Action::Write => write(store, alloc, c)?,
        Action::SetAttr => set_attr(store, alloc, c)?,
        Action::SetTag => detail = u64::from(set_tag(store, c)?),
        Action::Read => {
            payload = store.read(alloc, c.object, c.offset, c.length)?;
            detail = length_of(store, c.object);
        }
        Action::GetAttr => {
            payload = store.get_attr(alloc, c.object, c.attribute)?;
            detail = u64::from(store.has_attr(c.object, c.attribute));
        }
    }
    Ok(reply_with(c, detail, payload))
}
