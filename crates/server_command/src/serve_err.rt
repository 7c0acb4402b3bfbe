ghost use Rattle.std.specs.Prelude.{◌≡◌};

use crate::metadata_server::StepErr;
use osd_bytes::Fault;
use thiserror::Error;

/// Why a server stopped serving before all connections were served.
#[derive(Clone, Copy, Debug, PartialEq, Eq, Error)]
pub enum ServerServeErr {
    /// No further connection could be accepted.
    #[error("no connection could be accepted")]
    LinkFault,
    /// The disk that keeps the server failed.
    #[error("the disk failed")]
    DiskFault,
    /// There was no memory.
    #[error("out of memory")]
    Memory,
}

impl From<Fault> for ServerServeErr {
    ghost use Rattle.server_command.specs.declared.serve_err.ServerServeErr.TheVariants.{LinkFault};

    ghost from_gives = { λ _ e. e ≡ LinkFault };

    fn from(_: Fault) -> Self {
        ServerServeErr::LinkFault
    }
}

impl From<StepErr> for ServerServeErr {
    ghost use Rattle.server_command.specs.ServerStops.{serve_err_of};

    ghost from_gives = { λ cause e. e ≡ serve_err_of cause };

    fn from(cause: StepErr) -> Self {
        match cause {
            StepErr::DiskFault => ServerServeErr::DiskFault,
            StepErr::Memory => ServerServeErr::Memory,
        }
    }
}
