use data_map::DataMap;
use layout_types::ObjId;
use osd_capability::{CapKey, Capability};
use osd_lists::Sequence;

/// What opens the object of a component.
#[derive(Clone, Copy, PartialEq, Eq)]
pub struct Credential {
    /// The drive on which the object stands.
    pub drive: u32,
    /// Of the capability, and of its format.
    pub key: CapKey,
    pub capability: Capability,
}

/// A component as a layout lists it.
#[derive(Clone, Copy, PartialEq, Eq)]
pub struct Listed {
    pub id: ObjId,
    /// None of a component that is missing.
    pub credential: Option<Credential>,
}

/// What a grant is for: bytes of the file from `first` up to `end`.
#[derive(Clone, Copy, PartialEq, Eq)]
pub struct Reach {
    /// For writing too.
    pub rw: bool,
    /// For writing past the size that the file had.
    pub extending: bool,
    pub first: u64,
    /// At most the greatest size of a file.
    pub end: u64,
}

/// A grant that a client holds, with its layout.
#[derive(Drop)]
pub struct Held {
    pub file: u32,
    pub number: u32,
    pub reach: Reach,
    /// The size of the file, as the client knows it.
    pub size: u64,
    pub map: DataMap,
    /// In order, each component of the file.
    pub components: Sequence<Listed>,
    /// How many commands were sent under it.
    pub count: u64,
}

/// A grant that is to be returned.
#[derive(Clone, Copy, PartialEq, Eq)]
pub struct Due {
    pub file: u32,
    pub number: u32,
}
