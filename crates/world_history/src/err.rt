use osd_lists::Memory;
use thiserror::Error;

/// Why an event isn't carried out, or ended the world: the first that applies.
///
/// All but the last two change nothing. The last two end the world, and the lines appended stand.
#[derive(Clone, Copy, Debug, PartialEq, Eq, Error)]
pub enum WorldErr {
    /// A drive, client or file that the event names doesn't exist, but for what the event is to make
    /// and for the files of calls.
    #[error("a drive, client or file of that name doesn't exist")]
    NoName,
    /// The drive or client that the event is to make exists, or the drive that it is to put into a zone is in one.
    #[error("a drive or client of that name exists, or the drive is in a zone")]
    Taken,
    /// The named client was stopped, or the named drive has failed.
    #[error("the client was stopped, or the drive has failed")]
    Dead,
    /// The drive that is to be declared hasn't failed.
    #[error("the drive hasn't failed")]
    Alive,
    /// The drive that is to crash or to be opened again keeps nothing: it was made by `drive`.
    #[error("the drive keeps nothing over a crash")]
    NotKept,
    /// The named drive is down, or the server is, which the event needs.
    #[error("the drive or the server is down")]
    Down,
    /// What is to be opened again isn't down.
    #[error("what is to be opened again isn't down")]
    Running,
    /// No message of that number was sent.
    #[error("no message of that number was sent")]
    NoMessage { index: u64 },
    /// The next message, or the data of the write that it begins, would pass the limit of kept bytes.
    #[error("the kept bytes would pass their limit")]
    KeptFull,
    /// There was no memory.
    #[error("out of memory")]
    Memory,
}

impl From<Memory> for WorldErr {
    ghost use Rattle.std.specs.Prelude.{◌≡◌};
    ghost use Rattle.world_history.specs.declared.err.WorldErr.TheVariants.{Memory};

    ghost from_gives = { λ _ e. e ≡ Memory };

    fn from(_: Memory) -> Self {
        WorldErr::Memory
    }
}
