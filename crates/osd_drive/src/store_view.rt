ghost use Rattle.std.specs.Prelude.{◌≡◌};
ghost use Rattle.osd_drive.specs.State.{view_of};

use osd_commands::Command;
use osd_objects::{LaneEntry, ObjectState, Store};

/// What of a drive's objects a command is judged by.
#[derive(Clone, Copy)]
pub struct StoreView {
    /// The command's object.
    pub object: Option<ObjectState>,
    /// The lane that the command's holder has there.
    pub lane: Option<LaneEntry>,
    /// Whether the command's attribute is there.
    pub has_attribute: bool,
    /// The free capacity.
    pub free: u64,
    /// The number of objects.
    pub objects: u64,
}

impl StoreView {
    /// What a store has on a command.
    pub fn of(store: &Store, c: &Command) -> StoreView
        ensures { result ≡ view_of store.now c.now }
    {
        StoreView {
            object: store.state(c.object),
            lane: store.lane(c.object, c.capability.holder),
            has_attribute: store.has_attr(c.object, c.attribute),
            free: store.free(),
            objects: store.objects(),
        }
    }
}
