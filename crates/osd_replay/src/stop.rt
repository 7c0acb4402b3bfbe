ghost use Rattle.std.specs.Prelude.{◌≡◌, Bool};
ghost use Rattle.osd_replay.specs.Stops.{error_of, status_of, stop_of_line};
ghost use Rattle.osd_replay.specs.Errors.{full_name, kind_name, world_error_name};
ghost use Rattle.osd_replay.specs.Puts.{Puts};

use crate::put_line::put_error;
use crate::status::{Quantity, ScenarioKind, Status};
use layout_world::WorldErr;
use osd_bytes::{LineErr, Sink};
use osd_lists::Memory;

/// Why a replay stops before its input ends.
#[derive(Clone, Copy, PartialEq, Eq)]
pub enum Stop {
    /// A line was refused.
    Refused(ScenarioKind),
    /// The source failed.
    Read,
    /// Want of memory.
    Memory,
    /// A quantity would pass its limit.
    Full(Quantity),
}

impl From<Memory> for Stop {
    ghost use Rattle.osd_replay.specs.declared.stop.Stop.TheVariants.{Memory};

    ghost from_gives = { λ _ e. e ≡ Memory };

    fn from(_: Memory) -> Self {
        Stop::Memory
    }
}

/// Why no further line came.
pub fn stop_of(e: LineErr) -> Stop
    ensures { result ≡ stop_of_line e }
{
    match e {
        LineErr::TooLong => Stop::Full(Quantity::Line),
        LineErr::InputFull => Stop::Full(Quantity::Input),
        LineErr::ReadFault => Stop::Read,
        LineErr::Memory => Stop::Memory,
    }
}

// The name of why the world doesn't carry an event out.
fn world_error_name(e: WorldErr) -> &'static str
    ensures { result.now ≡ world_error_name e }
{
    match e {
        WorldErr::NoName => "NoName",
        WorldErr::Taken => "Taken",
        WorldErr::Dead => "Dead",
        WorldErr::Alive => "Alive",
        WorldErr::NotKept => "NotKept",
        WorldErr::Down => "Down",
        WorldErr::Running => "Running",
        WorldErr::NoMessage { .. } => "NoMessage",
        WorldErr::KeptFull => "KeptFull",
        WorldErr::Memory => "Memory",
    }
}

// The name of what refused a line.
fn name_of(kind: ScenarioKind) -> &'static str
    ensures { result.now ≡ kind_name kind }
{
    match kind {
        ScenarioKind::Event(e) => e.name(),
        ScenarioKind::World(e) => world_error_name(e),
        ScenarioKind::BadHex => "BadHex",
    }
}

// What an error line says of a quantity that is full.
fn full_name(quantity: Quantity) -> &'static str
    ensures { result.now ≡ full_name quantity }
{
    match quantity {
        Quantity::Input => "full input",
        Quantity::Line => "full line",
        Quantity::Kept => "full kept",
    }
}

/// Puts the error line of a stop at the line of a number, and gives the status.
pub fn stopped<K: Sink>(sink: &mut K, stop: Stop, number: u64) -> Status
    ensures status { result ≡ status_of stop number }
    ensures puts { (whole : Bool) × Puts (K.taken sink.old) (K.taken sink.new) (K.faults sink.old) (K.faults sink.new)
        (error_of stop number) whole }
    ensures loan { K.loan sink.new ≡ K.loan sink.old }
{
    match stop {
        Stop::Refused(kind) => {
            let _told = put_error(sink, number, name_of(kind));
            Status::BadScenario { line: number, kind }
        }
        Stop::Read => {
            let _told = put_error(sink, number, "read");
            Status::ReadFault
        }
        Stop::Memory => {
            let _told = put_error(sink, number, "memory");
            Status::Memory
        }
        Stop::Full(quantity) => {
            let _told = put_error(sink, number, full_name(quantity));
            Status::Full { quantity }
        }
    }
}
