use crate::errors::{ClusterErr, ClusterKind};
use osd_lists::Memory;
use thiserror::Error;

/// Why a command over a network stopped before its work was done.
#[derive(Clone, Copy, Debug, PartialEq, Eq, Error)]
pub enum CommandStop {
    /// The cluster text is refused.
    #[error("the cluster text is refused")]
    BadCluster(ClusterKind),
    /// The source failed.
    #[error("a read failed")]
    ReadFault,
    /// The sink failed.
    #[error("a write failed")]
    WriteFault,
    /// There was no memory.
    #[error("out of memory")]
    Memory,
    /// The source gave more than 67,108,864 bytes.
    #[error("the input is too long")]
    Full,
    /// The links couldn't be settled, or a call on them that the command can't do without failed.
    #[error("a call of the links failed")]
    LinkFault,
}

impl From<Memory> for CommandStop {
    ghost use Rattle.std.specs.Prelude.{◌≡◌};
    ghost use Rattle.cluster_text.specs.declared.stop.CommandStop.TheVariants.{Memory};

    ghost from_gives = { λ _ e. e ≡ Memory };

    fn from(_: Memory) -> Self {
        CommandStop::Memory
    }
}

impl From<ClusterErr> for CommandStop {
    ghost use Rattle.std.specs.Prelude.{◌≡◌};
    ghost use Rattle.cluster_text.specs.Inputs.{stop_of};

    ghost from_gives = { λ from e. e ≡ stop_of from };

    fn from(e: ClusterErr) -> Self {
        match e {
            ClusterErr::Refused(kind) => CommandStop::BadCluster(kind),
            ClusterErr::Memory => CommandStop::Memory,
        }
    }
}
