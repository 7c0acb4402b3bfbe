ghost use Rattle.std.specs.Prelude.{◌≡◌};
ghost use Rattle.osd_replay.specs.Exit.{exit_code_of};

use layout_world::WorldErr;
use scenario_text::EventErr;

/// Why a line of a scenario was refused.
#[derive(Clone, Copy, PartialEq, Eq)]
pub enum ScenarioKind {
    /// The line spells no event.
    Event(EventErr),
    /// The event can't be carried out.
    World(WorldErr),
    /// The line has to spell a structure, and isn't pairs of hexadecimal digits.
    BadHex,
}

/// What has a limit in a run.
#[derive(Clone, Copy, PartialEq, Eq)]
pub enum Quantity {
    /// The input, of at most 67,108,864 bytes.
    Input,
    /// A line of it, of at most 600,000 bytes.
    Line,
    /// The bytes that a world keeps, at most 268,435,456.
    Kept,
}

/// How a run ended.
#[derive(Clone, Copy, PartialEq, Eq)]
pub enum Status {
    /// The input was read to its end and all was written.
    Done,
    /// The words aren't those of a command.
    BadWords,
    /// The line of this number, from 1, was refused.
    BadScenario { line: u64, kind: ScenarioKind },
    /// The source failed.
    ReadFault,
    /// The sink failed.
    WriteFault,
    /// Want of memory.
    Memory,
    /// A quantity would have passed its limit.
    Full { quantity: Quantity },
}

impl Status {
    /// The exit status of the program.
    pub fn exit_code(&self) -> u8
        ensures { result ≡ exit_code_of self.now }
    {
        match self {
            Status::Done => 0,
            Status::BadWords => 2,
            Status::BadScenario { .. } => 3,
            Status::ReadFault => 4,
            Status::WriteFault => 5,
            Status::Memory => 6,
            Status::Full { .. } => 7,
        }
    }
}
