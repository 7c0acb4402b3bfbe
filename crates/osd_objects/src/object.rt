ghost use Rattle.std.specs.Prelude.{◌≡◌, ◌+◌, ◌-◌, ◌<◌, ◌≤◌, ◌^◌, length, take, drop, is_some, IfOk, OnOk, OnErr};
ghost use Rattle.osd_objects.specs.Lanes.{lane_of, HasRoom};
ghost use Rattle.osd_objects.specs.Objects.{attribute_of, state_of, created, after_write, after_set_tag, after_set_attr, TakesAttribute};
ghost use Rattle.osd_objects.specs.Store.{attribute_bytes};

use crate::attributes::Attributes;
use crate::lanes::{LaneEntry, Lanes};
use crate::sparse::SparseBytes;
use osd_lists::{Bytes, Memory};
use std::alloc::Global;

/// The number of the attribute that is the length.
pub const LENGTH_ATTRIBUTE: u32 = 1;

/// The number of the attribute that is the policy access tag.
pub const TAG_ATTRIBUTE: u32 = 2;

/// What can be told of an object without its bytes.
#[derive(Clone, Copy, PartialEq, Eq)]
pub struct ObjectState {
    /// How many bytes the object has, holes included.
    pub length: u64,
    /// The policy access tag.
    pub tag: u32,
    /// How many holders have a lane.
    pub lanes: u32,
    /// How many attributes its users set, its label being one.
    pub user_attrs: u32,
}

/// An object.
#[derive(Drop)]
pub struct StoredObject {
    pub content: SparseBytes,
    /// The policy access tag, which a capability must name (RFC 5664 13.4).
    pub tag: u32,
    pub attributes: Attributes,
    pub lanes: Lanes,
}

impl StoredObject {
    /// An empty object with a label.
    pub fn new(alloc: Global, tag: u32, label: &[u8], lane: LaneEntry) -> Result<Self, Memory>
        ensures { IfOk result (λ o. o ≡ created tag label.now lane) }
    {
        let mut lanes = Lanes::new();
        lanes.put(lane);
        Ok(StoredObject {
            content: SparseBytes::new(alloc),
            tag,
            attributes: Attributes::labelled(alloc, label)?,
            lanes,
        })
    }

    /// What can be told of it.
    pub fn state(&self) -> ObjectState
        ensures { result ≡ state_of self.now }
    {
        ObjectState {
            length: self.content.len(),
            tag: self.tag,
            lanes: self.lanes.len(),
            user_attrs: self.attributes.len(),
        }
    }

    /// Writes bytes, and keeps the lane. Where there is no memory nothing changes.
    pub fn write(
        &mut self,
        alloc: Global,
        offset: u64,
        bytes: &[u8],
        lane: LaneEntry,
    ) -> Result<(), Memory>
        requires end { offset + length bytes.now < 2 ^ 63 }
        requires lane { HasRoom self.old.lanes lane.holder }
        ensures ok { OnOk result (self.new ≡ after_write offset bytes.now lane self.old) }
        ensures err { OnErr result (self.new ≡ self.old) }
    {
        self.content.write(alloc, offset, bytes)?;
        self.lanes.put(lane);
        Ok(())
    }

    /// Raises the tag by 1, and keeps the lane.
    pub fn set_tag(&mut self, lane: LaneEntry)
        requires tag { self.old.tag < 2 ^ 32 - 1 }
        requires lane { HasRoom self.old.lanes lane.holder }
        ensures { self.new ≡ after_set_tag lane self.old }
    {
        self.tag += 1;
        self.lanes.put(lane);
    }

    /// Sets an attribute, and keeps the lane. Where there is no memory nothing changes.
    pub fn set_attr(
        &mut self,
        alloc: Global,
        number: u32,
        value: &[u8],
        lane: LaneEntry,
    ) -> Result<(), Memory>
        requires room { TakesAttribute self.old number }
        requires lane { HasRoom self.old.lanes lane.holder }
        ensures ok { OnOk result (self.new ≡ after_set_attr number value.now lane self.old) }
        ensures err { OnErr result (self.new ≡ self.old) }
    {
        self.attributes.set(alloc, number, value)?;
        self.lanes.put(lane);
        Ok(())
    }

    /// The value of an attribute, no bytes where there is none.
    pub fn attribute(&self, alloc: Global, number: u32) -> Result<Bytes, Memory>
        ensures { IfOk result (λ value. value ≡ attribute_bytes (attribute_of self.now number)) }
    {
        match number {
            LENGTH_ATTRIBUTE => Bytes::copied(alloc, &self.content.len().to_be_bytes()),
            TAG_ATTRIBUTE => Bytes::copied(alloc, &self.tag.to_be_bytes()),
            _ => match self.attributes.get(number) {
                Some(value) => Bytes::copied(alloc, value.as_slice()),
                None => Ok(Bytes::new(alloc)),
            },
        }
    }

    /// Whether there is such an attribute.
    pub fn has_attribute(&self, number: u32) -> bool
        ensures { result ≡ is_some (attribute_of self.now number) }
    {
        matches!(number, LENGTH_ATTRIBUTE | TAG_ATTRIBUTE) || self.attributes.get(number).is_some()
    }
}
