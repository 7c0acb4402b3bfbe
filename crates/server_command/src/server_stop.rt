// Why a server that may be kept on a disk stops.
ghost use Rattle.std.specs.Prelude.{◌≡◌, ◌≢◌};
ghost use Rattle.server_command.specs.ServerStops.{stop_of_serving};
ghost use Rattle.server_command.specs.declared.server_stop.ServerStop.TheVariants.{Command, DiskFault};

use crate::metadata_server::StepErr;
use crate::serve_err::ServerServeErr;
use cluster_text::CommandStop;
use osd_lists::Memory;

/// Why a server stopped, or didn't begin.
#[derive(Clone, Copy, PartialEq, Eq)]
pub enum ServerStop {
    /// For a cause that a server in memory has too.
    Command(CommandStop),
    /// The disk that keeps the server failed. This comes only if its count of faults rose.
    DiskFault,
}

impl From<Memory> for ServerStop {
    ghost use Rattle.server_command.specs.ServerStops.{no_memory};

    ghost from_gives = { λ _ stop. stop ≡ no_memory };

    fn from(_: Memory) -> Self {
        ServerStop::Command(CommandStop::Memory)
    }
}

impl From<StepErr> for ServerStop {
    ghost use Rattle.server_command.specs.ServerStops.{stop_of_step};

    ghost from_gives = { λ cause stop. stop ≡ stop_of_step cause };

    fn from(cause: StepErr) -> Self {
        match cause {
            StepErr::DiskFault => ServerStop::DiskFault,
            StepErr::Memory => ServerStop::Command(CommandStop::Memory),
        }
    }
}

/// Why a server stops if serving stops for this reason.
pub(crate) fn stop_of_serving(e: ServerServeErr) -> ServerStop
    ensures { result ≡ stop_of_serving e }
{
    match e {
        ServerServeErr::LinkFault => ServerStop::Command(CommandStop::LinkFault),
        ServerServeErr::DiskFault => ServerStop::DiskFault,
        ServerServeErr::Memory => ServerStop::Command(CommandStop::Memory),
    }
}

/// Why a server in memory alone stops: it has no disk that could fail.
pub(crate) fn without_disk(stop: ServerStop) -> CommandStop
    requires { stop ≢ DiskFault }
    ensures { stop ≡ Command result }
{
    match stop {
        ServerStop::Command(stop) => stop,
        ServerStop::DiskFault => unreachable!(),
    }
}
