// What an event begins with.
ghost use Rattle.std.specs.Prelude.{◌≡◌, true, IfOk};
ghost use Rattle.world_history.specs.Moves.{Opens, begins, injects};
ghost use Rattle.layout_world.specs.Acting.{Acts, ActsWith, ends_in};
ghost use Rattle.layout_world.specs.Groups.{is_plain};

use crate::changing::change;
use crate::delivering::deliver;
use crate::parties::Parties;
use crate::restarting::{crash, reopen};
use crate::{by_client, by_server};
use layout_ops::OrderKind;
use osd_lists::Memory;
use scenario_text::{DriveName, Event, Line, Sender};
use std::alloc::Global;
use stripe_repair::Place;
use world_network::Act;
use world_parties::drives_are_the_worlds;

// Bytes are injected into a drive. Its reply goes nowhere.
fn inject(
    parties: &mut Parties,
    alloc: Global,
    drive: DriveName,
    bytes: &[u8],
) -> Result<Act, Memory>
    ensures { IfOk result (λ act. Acts (λ w chosen. injects w drive bytes.now) parties.old parties.new act) }
{
    drives_are_the_worlds();
    match parties.drives.inject(alloc, drive, bytes)? {
        Some(verdict) => {
            let act = Act::line(alloc, Line::Judged { drive, verdict })?;
            Ok(act)
        }
        None => Ok(Act::nothing(alloc)),
    }
}

// An event that needs no placer.
#[tactic(auto, unfolding(world_history::specs::Moves::begins))]
fn begin_plain(parties: &mut Parties, alloc: Global, event: &Event) -> Result<Act, Memory>
    ensures { IfOk result (λ act. is_plain event.now ≡ true
        → Acts (λ w chosen. begins w chosen event.now) parties.old parties.new act) }
{
    match event {
        Event::Drive {
            drive,
            key,
            capacity,
        } => by_server::add_drive(parties, alloc, *drive, *key, *capacity, false),
        Event::Disk {
            drive,
            key,
            capacity,
        } => by_server::add_drive(parties, alloc, *drive, *key, *capacity, true),
        Event::Zone { drive, zone } => by_server::set_zone(parties, alloc, *drive, *zone),
        Event::Client { client } => by_client::add(parties, alloc, *client),
        Event::Do { client, call } => by_client::call(parties, alloc, *client, call),
        Event::Call { client, call } => by_client::call(parties, alloc, *client, call),
        Event::Timeout { client, component } => by_client::time_out(
            parties, alloc, *client, *component,
        ),
        Event::Leave { client } => by_client::leave(parties, alloc, *client),
        Event::Resend {
            sender: Sender::Client { client },
        } => by_client::resend(parties, alloc, *client),
        Event::Resend {
            sender: Sender::Server,
        } => by_server::resend(parties, alloc),
        Event::Format { format } => by_server::set_format(parties, alloc, *format),
        Event::Inject { drive, bytes } => inject(parties, alloc, *drive, bytes.as_slice()),
        _ => change(parties, alloc, event),
    }
}

/// What an event begins with. It isn't refused.
#[tactic(auto, unfolding(world_history::specs::Moves::begins))]
pub fn begin<P: Place>(
    parties: &mut Parties,
    alloc: Global,
    event: &Event,
    placer: &P,
) -> Result<Act, Memory>
    requires placer { P.is_placer placer.now }
    ensures { IfOk result (λ act. ActsWith (λ w chosen. begins w chosen event.now) (ends_in (Opens event.now))
        parties.old parties.new act) }
{
    match event {
        Event::Deliver { message } => deliver(parties, alloc, *message as usize, placer),
        Event::File { file, map, tag } => {
            by_server::make_file(parties, alloc, *file, map, *tag, false, placer)
        }
        Event::ZonedFile { file, map, tag } => {
            by_server::make_file(parties, alloc, *file, map, *tag, true, placer)
        }
        Event::Recall { file } => {
            by_server::order(parties, alloc, OrderKind::Recall, file.number(), placer)
        }
        Event::Revoke { file } => {
            by_server::order(parties, alloc, OrderKind::Revoke, file.number(), placer)
        }
        Event::Rebuild { file } => {
            by_server::order(parties, alloc, OrderKind::Rebuild, file.number(), placer)
        }
        Event::Audit { file } => {
            by_server::order(parties, alloc, OrderKind::Audit, file.number(), placer)
        }
        Event::Declare { drive } => {
            by_server::order(parties, alloc, OrderKind::Declare, drive.number(), placer)
        }
        Event::Crash { machine } => crash(parties, alloc, *machine),
        Event::Reopen { machine } => reopen(parties, alloc, *machine),
        _ => begin_plain(parties, alloc, event),
    }
}
