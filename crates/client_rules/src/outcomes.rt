use osd_lists::{Bytes, Memory, Numbers};
use thiserror::Error;

/// Why a call isn't taken: the first that holds. Nothing has changed then.
#[derive(Clone, Copy, Debug, PartialEq, Eq, Error)]
pub enum CallErr {
    /// Another call is pending.
    #[error("another call is pending")]
    Busy,
    /// The range has too many bytes, or passes the greatest size of a file.
    #[error("the range passes a limit")]
    BadRange,
    /// Too few sequence numbers are left.
    #[error("too few sequence numbers are left")]
    SlotSpent,
    /// There was no memory.
    #[error("out of memory")]
    Memory,
}

impl From<Memory> for CallErr {
    ghost use Rattle.std.specs.Prelude.{◌≡◌};
    ghost use Rattle.client_rules.specs.declared.outcomes.CallErr.TheVariants.{Memory};

    ghost from_gives = { λ _ e. e ≡ Memory };

    fn from(_: Memory) -> Self {
        CallErr::Memory
    }
}

/// Why a layout isn't taken: the first that holds.
#[derive(Clone, Copy, PartialEq, Eq)]
pub enum Why {
    /// There isn't one layout that can be read and that covers the call.
    Unreadable,
    /// Its list doesn't begin with component 0.
    Index,
    /// It doesn't list all components.
    Partial,
    /// A key is secured.
    Ssv,
    /// The map can't be used.
    Map,
    /// A credential can't be used, or a stripe lacks too much to be written.
    Credential,
}

/// How a call ends.
#[derive(Drop)]
pub enum Outcome {
    /// So many bytes were written.
    WriteOk {
        length: u64,
    },
    /// The bytes that were read: those below the file's size.
    ReadOk {
        bytes: Bytes,
    },
    /// There is no such file.
    NoFile,
    /// That client holds a grant that conflicts.
    Held {
        client: u32,
    },
    /// A job of the file waits for that component.
    Fencing {
        component: u32,
    },
    /// That component is missing.
    Degraded {
        component: u32,
    },
    /// No grant can be given any more.
    Spent,
    /// The server answered so.
    Status {
        status: u32,
        detail: u32,
    },
    /// A drive refused a command.
    Refused {
        drive: u32,
        verdict: u16,
        detail: u64,
    },
    /// That component didn't answer a write.
    Silent {
        component: u32,
    },
    /// These positions are out, more than can be decoded.
    Lost {
        positions: Numbers,
    },
    /// The layout can't be used.
    BadLayout {
        why: Why,
    },
}

/// Whose answer a client awaits.
#[derive(Clone, Copy, PartialEq, Eq)]
pub enum Awaits {
    Nothing,
    Server,
    /// The lowest component of which a reply is awaited.
    Drive { component: u32 },
}
