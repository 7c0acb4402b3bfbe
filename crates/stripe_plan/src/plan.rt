ghost use Rattle.std.specs.Prelude.{◌≡◌};

use osd_lists::{Bytes, Memory, Numbers, Sequence};
use thiserror::Error;

/// A range of a file's bytes.
#[derive(Clone, Copy, PartialEq, Eq)]
pub struct Span {
    /// The first byte.
    pub offset: u64,
    /// The number of bytes.
    pub length: u64,
}

/// Columns of a stripe, or bytes of a component, from `first` up to `end`. There are none where `first` isn't below.
#[derive(Clone, Copy, PartialEq, Eq)]
pub struct Interval {
    pub first: u64,
    pub end: u64,
}

/// Intervals, rising.
pub type Intervals = Sequence<Interval>;

/// Bytes of a position, from `first` up to `end`.
#[derive(Clone, Copy, PartialEq, Eq)]
pub struct Stretch {
    pub position: u32,
    pub first: u64,
    pub end: u64,
}

/// What a plan is for.
#[derive(Clone, Copy, PartialEq, Eq)]
pub enum Aim {
    /// To read a range.
    Reads,
    /// To read what the parity of a write needs.
    Gathers,
    /// To write a range and its parity.
    Scatters,
}

/// Bytes of a component that a plan reads or writes, with their stripe and position.
#[derive(Clone, Copy, PartialEq, Eq)]
pub struct Ask {
    pub stripe: u64,
    pub position: u32,
    pub component: u32,
    /// The first byte in the component.
    pub offset: u64,
    /// The number of bytes.
    pub length: u64,
}

/// What a plan asks, by stripe, component and offset.
pub type Asks = Sequence<Ask>;

/// A range of a component.
#[derive(Clone, Copy, PartialEq, Eq)]
pub struct Piece {
    pub component: u32,
    /// The first byte in the component.
    pub offset: u64,
    /// The number of bytes.
    pub length: u64,
}

/// The ranges of a plan, by stripe, component and offset.
pub type Pieces = Sequence<Piece>;

/// Bytes of a component.
#[derive(PartialEq, Drop)]
pub struct Part {
    pub component: u32,
    /// The first byte in the component.
    pub offset: u64,
    pub bytes: Bytes,
}

/// What was read of components. Where several parts have a byte the first counts.
pub type Fetched = Sequence<Part>;

/// What is to be written to components, by stripe, component and offset.
pub type Writes = Sequence<Part>;

/// Bytes of a position, which each of its replicas holds.
#[derive(PartialEq, Drop)]
pub struct Column {
    pub position: u32,
    /// The first byte in the components.
    pub offset: u64,
    pub bytes: Bytes,
}

/// What a write makes of its stripes, by stripe, position and offset.
pub type Columns = Sequence<Column>;

/// A write of a plan with its bytes.
#[derive(PartialEq, Drop)]
pub struct Store {
    pub ask: Ask,
    pub bytes: Bytes,
}

/// The components that can't be used: those that are missing and those that don't answer.
#[derive(PartialEq, Drop)]
pub struct Out {
    pub components: Numbers,
}

/// Why there is no plan.
#[derive(Debug, PartialEq, Drop, Error)]
pub enum PlanErr {
    /// More positions of a stripe are out than it has parity: these.
    #[error("more positions are out than there is parity")]
    TooManyLost { positions: Numbers },
    /// There was no memory.
    #[error("out of memory")]
    Memory,
}

impl From<Memory> for PlanErr {
    ghost use Rattle.stripe_plan.specs.declared.plan.PlanErr.TheVariants.{Memory};

    ghost from_gives = { λ _ e. e ≡ Memory };

    fn from(_: Memory) -> Self {
        PlanErr::Memory
    }
}
