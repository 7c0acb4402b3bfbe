use osd_commands::Command;
use osd_lists::{Bytes, Sequence};

/// Columns of one stripe.
#[derive(Clone, Copy, PartialEq, Eq)]
pub struct Piece {
    /// The number of the stripe in the file.
    pub stripe: u64,
    /// The first column.
    pub column: u64,
    /// How many columns from there on, at most [`MAX_PIECE`](crate::MAX_PIECE).
    pub count: u64,
}

/// Pieces still to be worked, the first of which is in work.
pub type Todo = Sequence<Piece>;

/// What a job is for.
#[derive(Clone, Copy, PartialEq, Eq)]
pub enum JobKind {
    /// Makes the components of a new file.
    Making,
    /// Fences and repairs.
    Revoking,
    /// Fences, repairs, and makes the missing components anew.
    Rebuilding,
    /// Fences, repairs, and reads everything.
    Auditing,
}

/// Where a missing component is made anew.
#[derive(Clone, Copy, PartialEq, Eq)]
pub struct Target {
    /// The number of the component.
    pub component: u32,
    /// The drive that it is made on.
    pub drive: u32,
    /// The object that it is made in.
    pub object: u64,
}

/// The length that a component's object told.
#[derive(Clone, Copy, PartialEq, Eq)]
pub struct Measured {
    pub component: u32,
    pub length: u64,
}

/// What an audit found so far.
#[derive(Drop)]
pub struct Tally {
    pub lengths: Sequence<Measured>,
    /// Stripes of which a position has no present replica.
    pub short: Sequence<u64>,
    /// Stripes that are no codeword with equal replicas.
    pub bad: Sequence<u64>,
}

/// What a job waits for, and what it still has to do.
#[derive(Drop)]
pub enum Work {
    /// The components are made.
    Creates,
    /// The present components are sent the next tag.
    Fences,
    /// Repair: the rows of the first piece are read. `short` are the stripes left short.
    Fetches {
        todo: Todo,
        short: Sequence<u64>,
    },
    /// Repair: the rows that differ are written. Where a component became missing since, the piece
    /// is `broken` and begins again afterwards.
    Stores {
        todo: Todo,
        short: Sequence<u64>,
        broken: bool,
    },
    /// Rebuild: an object for the component is made.
    Targets {
        target: Target,
    },
    /// Rebuild: the sources of the first piece are read.
    Gathers {
        target: Target,
        todo: Todo,
    },
    /// Rebuild: the first piece is written.
    Fills {
        target: Target,
        todo: Todo,
    },
    /// Audit: the lengths of the objects are read.
    Lengths,
    /// Audit: the rows of the first piece are read.
    Checks {
        todo: Todo,
        tally: Tally,
    },
}

/// A command that a job sent to a drive and that isn't answered yet. It isn't sealed.
#[derive(Drop)]
pub struct Awaited {
    pub component: u32,
    pub drive: u32,
    pub command: Command,
}

/// Commands in order of components.
pub type AwaitedCommands = Sequence<Awaited>;

/// What a component's reply that counted carried.
#[derive(Drop)]
pub struct Heard {
    pub component: u32,
    pub payload: Bytes,
}

/// A job of a file. Where it rests it awaits something.
#[derive(Drop)]
pub struct Job {
    pub kind: JobKind,
    pub work: Work,
    pub awaited: AwaitedCommands,
    /// The replies to the commands that were sent together with those awaited.
    pub heard: Sequence<Heard>,
}
