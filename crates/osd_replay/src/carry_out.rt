// One line of a scenario.
ghost use Rattle.std.specs.Prelude.{◌≡◌, [], IfOk, IfErr};
ghost use Rattle.osd_replay.specs.LineCarried.{CarriesEvent, CarriesLine, StopsEvent, StopsLine, step_gives};

use crate::shown::show_bytes;
use crate::status::ScenarioKind;
use crate::stop::Stop;
use layout_world::{Lines, World, WorldErr};
use osd_lists::{Bytes, Memory};
use scenario_text::{Event, EventErr, append_lines, read_event};
use std::alloc::Global;
use stripe_repair::Place;

/// The lines of an event that was carried out.
#[derive(Drop)]
pub struct Carried {
    /// Their text.
    pub text: Bytes,
    /// Whether the event stopped behind them, just before what would pass the limit of kept bytes.
    pub is_full: bool,
}

// Whether a step of the world stopped at the limit of kept bytes; of all else but success, why none goes on.
fn is_cut(step: Result<(), WorldErr>) -> Result<bool, Stop>
    ensures { result ≡ step_gives step }
{
    match step {
        Ok(()) => Ok(false),
        Err(WorldErr::KeptFull) => Ok(true),
        Err(WorldErr::Memory) => Err(Stop::Memory),
        Err(cause) => Err(Stop::Refused(ScenarioKind::World(cause))),
    }
}

// A text without a byte, in the memory of one that is done with.
fn emptied(mut text: Bytes) -> Bytes
    ensures { result ≡ [] }
{
    text.truncate(0);
    text
}

/// Carries out an event, and gives its lines. Their text is made in `room`, the text of an earlier event: so its memory
/// is asked for once, and not at each event.
///
/// # Errors
///
/// `Refused` where the world refuses the event, and `Memory`.
pub fn carry_out_event<P: Place>(
    alloc: Global,
    world: &mut World,
    event: Event,
    placer: &P,
    room: Bytes,
) -> Result<Carried, Stop>
    requires { P.is_placer placer.now }
    ensures ok { IfOk result (CarriesEvent event world.old world.new) }
    ensures err { IfErr result (StopsEvent event world.old) }
{
    let mut lines = Lines::new(alloc);
    // Here and below, arms in place of `?` or of the bare call are for the prover (docs/dev/PROVER_FORMS.md).
    let is_full = match is_cut(world.step(event, placer, &mut lines)) {
        Ok(is_full) => is_full,
        Err(stop) => return Err(stop),
    };
    show_bytes(lines.as_slice());
    let text = append_lines(emptied(room), lines.as_slice())?;
    Ok(Carried { text, is_full })
}

/// Carries out a line of a scenario, and gives the lines of its event, whose text is made in `room`.
///
/// # Errors
///
/// As [`carry_out_event`] has them; `Refused` also where the line spells no event.
pub fn carry_out<P: Place>(
    alloc: Global,
    world: &mut World,
    line: &[u8],
    placer: &P,
    room: Bytes,
) -> Result<Carried, Stop>
    requires { P.is_placer placer.now }
    ensures ok { IfOk result (CarriesLine line.now world.old world.new) }
    ensures err { IfErr result (StopsLine line.now world.old) }
{
    match read_event(alloc, line) {
        Ok(Some(event)) => carry_out_event(alloc, world, event, placer, room),
        Ok(None) => Ok(Carried {
            text: emptied(room),
            is_full: false,
        }),
        Err(EventErr::Memory) => Err(Stop::Memory),
        Err(e) => Err(Stop::Refused(ScenarioKind::Event(e))),
    }
}
