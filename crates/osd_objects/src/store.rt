ghost use Rattle.std.specs.Prelude.{◌≡◌, ◌+◌, ◌-◌, ◌<◌, ◌≤◌, ◌^◌, ℕ, length, take, drop, is_some, IfOk, IfSome, IsNone, OnOk, OnErr};
ghost use Rattle.std.specs.Option.{option_map};
ghost use Rattle.osd_objects.specs.Objects.{state_of, created, after_write, after_set_tag, after_set_attr, TakesAttribute};
ghost use Rattle.osd_objects.specs.Store.{empty_store, object_at, free_of, touched_or_none, lane_or_none, bytes_at, attribute_at, attribute_bytes, with_object, changed, HasSpace, HasLane, AreOthersKept};

use crate::lanes::LaneEntry;
use crate::object::{ObjectState, StoredObject};
use osd_lists::{Bytes, Memory};
use std::alloc::Global;
use std::collections::BTreeMap;
use std::marker::Model;

/// The objects of a drive by number, and the capacity that they share.
///
/// Every call that changes an object keeps the lane that it is given, and changes no other object.
#[derive(Drop)]
pub struct Store {
    capacity: u64,
    used: u64,
    objects: BTreeMap<u64, StoredObject>,
}

impl Model for Store {
    ghost use Rattle.osd_objects.specs.Store.{StoreState, IsCounted};

    ghost Value = { StoreState };

    ghost view = { λ s. record { capacity = s.capacity; objects = s.objects.entries } };

    ghost invariant = { λ s. IsCounted s.capacity s.used s.objects.entries };
}

impl Store {
    /// A store of a capacity in bytes, without objects.
    pub fn new(alloc: Global, capacity: u64) -> Self
        ensures { result ≡ empty_store capacity }
    {
        Store {
            capacity,
            used: 0,
            objects: BTreeMap::new(alloc),
        }
    }

    /// The number of objects.
    pub fn objects(&self) -> u64
        ensures { result ≡ length self.now.objects }
    {
        self.objects.len() as u64
    }

    /// The capacity that is left: each object takes its length, holes included.
    pub fn free(&self) -> u64
        ensures { result ≡ free_of self.now }
    {
        self.capacity - self.used
    }

    /// What can be told of an object, `None` exactly where there is no such object.
    pub fn state(&self, object: u64) -> Option<ObjectState>
        ensures { result ≡ option_map state_of (object_at self.now object) }
    {
        match self.objects.get(&object) {
            Some(found) => Some(found.state()),
            None => None,
        }
    }

    /// The lane of a holder, `None` exactly where there is no such object or lane.
    pub fn lane(&self, object: u64, holder: u32) -> Option<LaneEntry>
        ensures { result ≡ lane_or_none (object_at self.now object) holder }
    {
        match self.objects.get(&object) {
            Some(found) => found.lanes.get(holder),
            None => None,
        }
    }

    /// How many different pages of 4,096 bytes of an object were touched by writes, 0 where there is
    /// no such object. Only these take memory.
    pub fn pages(&self, object: u64) -> u64
        ensures { result ≡ length (touched_or_none (object_at self.now object)) }
    {
        match self.objects.get(&object) {
            Some(found) => found.content.pages(),
            None => 0,
        }
    }

    /// Makes an empty object with a tag and a label, attribute 65,536. There must be no such object.
    ///
    /// # Errors
    ///
    /// [`Memory`]; then nothing changes.
    pub fn create(
        &mut self,
        alloc: Global,
        object: u64,
        tag: u32,
        label: &[u8],
        lane: LaneEntry,
    ) -> Result<(), Memory>
        requires { IsNone (object_at self.old object) }
        ensures ok { OnOk result (self.new ≡ with_object self.old object (created tag label.now lane)) }
        ensures others { AreOthersKept self.old object self.new }
        ensures err { OnErr result (self.new ≡ self.old) }
    {
        let made = StoredObject::new(alloc, tag, label, lane)?;
        self.objects.insert(object, made)?;
        Ok(())
    }

    /// The bytes of a range that lie below the object's length; a byte that was never written is 0.
    /// There are none where there is no such object.
    pub fn read(
        &self,
        alloc: Global,
        object: u64,
        offset: u64,
        length: u64,
    ) -> Result<Bytes, Memory>
        ensures { IfOk result (λ bytes. bytes ≡ take length (drop offset (bytes_at self.now object))) }
    {
        match self.objects.get(&object) {
            Some(found) => found.content.read(alloc, offset, length),
            None => Ok(Bytes::new(alloc)),
        }
    }

    /// Writes bytes over those of an object, and past their end; a gap becomes zeros. An empty
    /// write changes neither the bytes nor the length. The growth must be free, and the holder must
    /// have a lane or room for one.
    ///
    /// # Errors
    ///
    /// [`Memory`]. All memory is taken before a byte changes, so then nothing changes.
    pub fn write(
        &mut self,
        alloc: Global,
        object: u64,
        offset: u64,
        bytes: &[u8],
        lane: LaneEntry,
    ) -> Result<(), Memory>
        requires end { offset + length bytes.now < 2 ^ 63 }
        requires space { HasSpace self.old object offset bytes.now }
        requires lane { HasLane self.old object lane.holder }
        ensures ok { OnOk result (self.new ≡ changed self.old object (after_write offset bytes.now lane)) }
        ensures others { AreOthersKept self.old object self.new }
        ensures err { OnErr result (self.new ≡ self.old) }
    {
        if let Some(found) = self.objects.get_mut(&object) {
            let before = found.content.len();
            found.write(alloc, offset, bytes, lane)?;
            self.used += found.content.len() - before;
        }
        Ok(())
    }

    /// Raises the tag of an object by 1. It must not be the greatest, and the holder must have a lane
    /// or room for one.
    ///
    /// # Errors
    ///
    /// None today: a lane takes no memory.
    pub fn set_tag(&mut self, object: u64, lane: LaneEntry) -> Result<(), Memory>
        requires tag { IfSome (object_at self.old object) (λ o. o.tag < 2 ^ 32 - 1) }
        requires lane { HasLane self.old object lane.holder }
        ensures ok { OnOk result (self.new ≡ changed self.old object (after_set_tag lane)) }
        ensures others { AreOthersKept self.old object self.new }
        ensures err { OnErr result (self.new ≡ self.old) }
    {
        if let Some(found) = self.objects.get_mut(&object) {
            found.set_tag(lane);
        }
        Ok(())
    }

    /// The value of an attribute: 1 is the length as eight bytes, 2 the tag as four, 65,536 the label.
    /// No bytes where there is no such object or attribute.
    pub fn get_attr(&self, alloc: Global, object: u64, number: u32) -> Result<Bytes, Memory>
        ensures { IfOk result (λ value. value ≡ attribute_bytes (attribute_at self.now object number)) }
    {
        match self.objects.get(&object) {
            Some(found) => found.attribute(alloc, number),
            None => Ok(Bytes::new(alloc)),
        }
    }

    /// Whether an object has an attribute.
    pub fn has_attr(&self, object: u64, number: u32) -> bool
        ensures { result ≡ is_some (attribute_at self.now object number) }
    {
        match self.objects.get(&object) {
            Some(found) => found.has_attribute(number),
            None => false,
        }
    }

    /// Sets an attribute of an object. It must be there or have room, and the holder must have a lane
    /// or room for one.
    ///
    /// # Errors
    ///
    /// [`Memory`]; then nothing changes.
    pub fn set_attr(
        &mut self,
        alloc: Global,
        object: u64,
        number: u32,
        value: &[u8],
        lane: LaneEntry,
    ) -> Result<(), Memory>
        requires room { IfSome (object_at self.old object) (λ o. TakesAttribute o number) }
        requires lane { HasLane self.old object lane.holder }
        ensures ok { OnOk result (self.new ≡ changed self.old object (after_set_attr number value.now lane)) }
        ensures others { AreOthersKept self.old object self.new }
        ensures err { OnErr result (self.new ≡ self.old) }
    {
        if let Some(found) = self.objects.get_mut(&object) {
            found.set_attr(alloc, number, value, lane)?;
        }
        Ok(())
    }
}
