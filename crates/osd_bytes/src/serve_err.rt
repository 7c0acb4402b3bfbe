ghost use Rattle.std.specs.Prelude.{◌≡◌};

use crate::source::Fault;
use osd_lists::Memory;
use thiserror::Error;

/// Why serving ended before all connections were served.
#[derive(Clone, Copy, Debug, PartialEq, Eq, Error)]
pub enum ServeErr {
    /// No further connection could be accepted.
    #[error("no connection could be accepted")]
    LinkFault,
    /// There was no memory.
    #[error("out of memory")]
    Memory,
}

impl From<Memory> for ServeErr {
    ghost use Rattle.osd_bytes.specs.declared.serve_err.ServeErr.TheVariants.{Memory};

    ghost from_gives = { λ _ e. e ≡ Memory };

    fn from(_: Memory) -> Self {
        ServeErr::Memory
    }
}

impl From<Fault> for ServeErr {
    ghost use Rattle.osd_bytes.specs.declared.serve_err.ServeErr.TheVariants.{LinkFault};

    ghost from_gives = { λ _ e. e ≡ LinkFault };

    fn from(_: Fault) -> Self {
        ServeErr::LinkFault
    }
}
