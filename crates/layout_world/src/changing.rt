// What an event changes of one party, of which nothing is told.
ghost use Rattle.std.specs.Prelude.{◌≡◌, true, slice_get, IfOk};
ghost use Rattle.world_history.specs.State.{at_number};
ghost use Rattle.world_history.specs.Drives.{raised, at_time, fallen};
ghost use Rattle.world_history.specs.Moves.{changed, at_drive, stops, drops_found, begins};
ghost use Rattle.layout_world.specs.Acting.{Acts};
ghost use Rattle.layout_world.specs.Groups.{is_change};

use crate::parties::Parties;
use osd_lists::Memory;
use scenario_text::{ClientName, DriveName, Event, Machine};
use std::alloc::Global;
use world_network::{Act, network_shows};
use world_parties::{clients_are_the_worlds, drives_are_the_worlds};

// A drive takes no more capabilities of a format below this one.
fn raise_least(
    parties: &mut Parties,
    alloc: Global,
    drive: DriveName,
    format: u8,
) -> Result<Act, Memory>
    ensures { IfOk result (λ act. Acts (λ w chosen. changed (at_drive w drive (λ a. raised a format)))
        parties.old parties.new act) }
{
    drives_are_the_worlds();
    parties.drives.raise_least(alloc, drive, format)?;
    Ok(Act::nothing(alloc))
}

// A drive fails.
fn fail(parties: &mut Parties, alloc: Global, drive: DriveName) -> Result<Act, Memory>
    ensures { IfOk result (λ act. Acts (λ w chosen. changed (at_drive w drive fallen)) parties.old parties.new act) }
{
    drives_are_the_worlds();
    parties.drives.fail(alloc, drive)?;
    Ok(Act::nothing(alloc))
}

// The clock of a drive is set.
fn set_drive_clock(parties: &mut Parties, alloc: Global, drive: DriveName, time: u64) -> Act
    ensures { Acts (λ w chosen. changed (at_drive w drive (λ a. at_time a time))) parties.old parties.new result }
{
    drives_are_the_worlds();
    parties.drives.set_clock(drive, time);
    Act::nothing(alloc)
}

// That of the server is.
fn set_clock(parties: &mut Parties, alloc: Global, time: u64) -> Act
    ensures { Acts (λ w chosen. changed (record w { clock = time })) parties.old parties.new result }
{
    parties.clock = time;
    Act::nothing(alloc)
}

// A client is deaf from now on.
fn stop(parties: &mut Parties, alloc: Global, client: ClientName) -> Act
    ensures { Acts (λ w chosen. changed (stops w client (at_number w.clients client))) parties.old parties.new result }
{
    clients_are_the_worlds();
    parties.clients.stop(client);
    Act::nothing(alloc)
}

// A message is left out when messages are settled; nothing happens where there is none.
fn drop_message(parties: &mut Parties, alloc: Global, number: usize) -> Act
    ensures { Acts (λ w chosen. changed (drops_found w number (slice_get w.network.messages number)))
        parties.old parties.new result }
{
    network_shows();
    let act = Act::nothing(alloc);
    if number >= parties.network.len() {
        return act;
    }
    parties.network.drop_message(number);
    act
}

/// An event that changes one party, or nothing.
#[tactic(auto, unfolding(world_history::specs::Moves::begins))]
pub fn change(parties: &mut Parties, alloc: Global, event: &Event) -> Result<Act, Memory>
    ensures { IfOk result (λ act. is_change event.now ≡ true
        → Acts (λ w chosen. begins w chosen event.now) parties.old parties.new act) }
{
    match event {
        Event::Least { drive, format } => raise_least(parties, alloc, *drive, *format),
        Event::DropMessage { message } => Ok(drop_message(parties, alloc, *message as usize)),
        Event::Clock {
            machine: Machine::Drive { drive },
            time,
        } => Ok(set_drive_clock(parties, alloc, *drive, *time)),
        Event::Clock {
            machine: Machine::Server,
            time,
        } => Ok(set_clock(parties, alloc, *time)),
        Event::Stop { client } => Ok(stop(parties, alloc, *client)),
        Event::Fail { drive } => fail(parties, alloc, *drive),
        _ => Ok(Act::nothing(alloc)),
    }
}
