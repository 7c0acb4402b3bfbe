// Which events aren't carried out.
ghost use Rattle.std.specs.Prelude.{◌≡◌, is_some, IfSome};
ghost use Rattle.world_history.specs.Refusals.{of_client, of_drive, if_failed, of_file, of_message, unless_there, unless_deaf, if_up, if_down, unless_down, first_of, of_served_file, of_new_drive, is_zoned, unless_zoned, of_zone, refusal};
ghost use Rattle.world_history.specs.State.{at_number};
ghost use Rattle.layout_world.specs.Refusing.{IsCause, IsRefusal, clock_cause, sender_cause, crash_cause, if_server_down, reopen_cause};

use crate::parties::Parties;
use scenario_text::{ClientName, DriveName, Event, FileName, Machine, Sender};
use world_history::WorldErr;

// An event of a living client.
fn of_client(parties: &Parties, client: ClientName) -> Option<WorldErr>
    ensures cause { IsCause parties.now (λ w. of_client w client) result }
    ensures refusal { IfSome result IsRefusal }
{
    match parties.clients.get(client) {
        None => Some(WorldErr::NoName),
        Some(found) if found.is_stopped() => Some(WorldErr::Dead),
        Some(_) => None,
    }
}

// An event of a drive that stands.
fn of_drive(parties: &Parties, drive: DriveName) -> Option<WorldErr>
    ensures cause { IsCause parties.now (λ w. of_drive w drive) result }
    ensures refusal { IfSome result IsRefusal }
{
    match parties.drives.get(drive) {
        None => Some(WorldErr::NoName),
        Some(found) if found.has_failed() => Some(WorldErr::Dead),
        Some(_) => None,
    }
}

// An event that a drive takes itself.
fn unless_deaf(parties: &Parties, drive: DriveName) -> Option<WorldErr>
    ensures cause { IsCause parties.now (λ w. unless_deaf (at_number w.drives drive)) result }
    ensures refusal { IfSome result IsRefusal }
{
    match parties.drives.get(drive) {
        None => Some(WorldErr::NoName),
        Some(found) if found.has_failed() => Some(WorldErr::Dead),
        Some(found) if found.is_down() => Some(WorldErr::Down),
        Some(_) => None,
    }
}

// A drive that crashes is stored and up.
fn if_up(parties: &Parties, drive: DriveName) -> Option<WorldErr>
    ensures cause { IsCause parties.now (λ w. if_up (at_number w.drives drive)) result }
    ensures refusal { IfSome result IsRefusal }
{
    match parties.drives.get(drive) {
        None => Some(WorldErr::NoName),
        Some(found) if found.has_failed() => Some(WorldErr::Dead),
        Some(found) if !found.is_stored() => Some(WorldErr::NotKept),
        Some(found) if found.is_down() => Some(WorldErr::Down),
        Some(_) => None,
    }
}

// One that is opened again is stored and down.
fn if_down(parties: &Parties, drive: DriveName) -> Option<WorldErr>
    ensures cause { IsCause parties.now (λ w. if_down (at_number w.drives drive)) result }
    ensures refusal { IfSome result IsRefusal }
{
    match parties.drives.get(drive) {
        None => Some(WorldErr::NoName),
        Some(found) if found.has_failed() => Some(WorldErr::Dead),
        Some(found) if !found.is_stored() => Some(WorldErr::NotKept),
        Some(found) if found.is_down() => None,
        Some(_) => Some(WorldErr::Running),
    }
}

// An event that the server takes.
fn unless_down(parties: &Parties) -> Option<WorldErr>
    ensures cause { IsCause parties.now (λ w. unless_down w) result }
    ensures refusal { IfSome result IsRefusal }
{
    if parties.down {
        Some(WorldErr::Down)
    } else {
        None
    }
}

// The server is opened again only while it is down.
fn if_server_down(parties: &Parties) -> Option<WorldErr>
    ensures cause { IsCause parties.now (λ w. if_server_down w) result }
    ensures refusal { IfSome result IsRefusal }
{
    if parties.down {
        None
    } else {
        Some(WorldErr::Running)
    }
}

// The first of two causes.
fn first_of(cause: Option<WorldErr>, next: Option<WorldErr>) -> Option<WorldErr>
    requires cause { IfSome cause IsRefusal }
    requires next { IfSome next IsRefusal }
    ensures value { result ≡ first_of cause next }
    ensures refusal { IfSome result IsRefusal }
{
    match cause {
        Some(cause) => Some(cause),
        None => next,
    }
}

// A drive that is declared has failed.
fn of_failed(parties: &Parties, drive: DriveName) -> Option<WorldErr>
    ensures cause { IsCause parties.now (λ w. if_failed (at_number w.drives drive)) result }
    ensures refusal { IfSome result IsRefusal }
{
    match parties.drives.get(drive) {
        None => Some(WorldErr::NoName),
        Some(found) if found.has_failed() => None,
        Some(_) => Some(WorldErr::Alive),
    }
}

// An event of a file.
fn of_file(parties: &Parties, file: FileName) -> Option<WorldErr>
    ensures cause { IsCause parties.now (λ w. of_file w file) result }
    ensures refusal { IfSome result IsRefusal }
{
    if parties.server.has_file(file) {
        None
    } else {
        Some(WorldErr::NoName)
    }
}

// An order on a file.
fn of_served_file(parties: &Parties, file: FileName) -> Option<WorldErr>
    ensures cause { IsCause parties.now (λ w. of_served_file w file) result }
    ensures refusal { IfSome result IsRefusal }
{
    first_of(of_file(parties, file), unless_down(parties))
}

// A drive that is declared, to the server.
fn of_declared(parties: &Parties, drive: DriveName) -> Option<WorldErr>
    ensures cause { IsCause parties.now (λ w. first_of (if_failed (at_number w.drives drive)) (unless_down w)) result }
    ensures refusal { IfSome result IsRefusal }
{
    first_of(of_failed(parties, drive), unless_down(parties))
}

// A drive that is made doesn't exist.
fn of_unmade_drive(parties: &Parties, drive: DriveName) -> Option<WorldErr>
    ensures cause { IsCause parties.now (λ w. unless_there (is_some (at_number w.drives drive))) result }
    ensures refusal { IfSome result IsRefusal }
{
    unless_there(parties.drives.get(drive).is_some())
}

// The same, and the server is told of it.
fn of_new_drive(parties: &Parties, drive: DriveName) -> Option<WorldErr>
    ensures cause { IsCause parties.now (λ w. of_new_drive w drive) result }
    ensures refusal { IfSome result IsRefusal }
{
    first_of(of_unmade_drive(parties, drive), unless_down(parties))
}

// A drive that is put into a zone stands, and is in none.
fn of_unzoned(parties: &Parties, drive: DriveName) -> Option<WorldErr>
    ensures cause { IsCause parties.now (λ w. unless_zoned (is_zoned w.server drive) (at_number w.drives drive)) result }
    ensures refusal { IfSome result IsRefusal }
{
    match parties.drives.get(drive) {
        None => Some(WorldErr::NoName),
        Some(_) if parties.server.is_zoned(drive) => Some(WorldErr::Taken),
        Some(found) if found.has_failed() => Some(WorldErr::Dead),
        Some(_) => None,
    }
}

// The same, and the server is told of it.
fn of_zone(parties: &Parties, drive: DriveName) -> Option<WorldErr>
    ensures cause { IsCause parties.now (λ w. of_zone w drive) result }
    ensures refusal { IfSome result IsRefusal }
{
    first_of(of_unzoned(parties, drive), unless_down(parties))
}

// An event of a message.
fn of_message(parties: &Parties, message: u64) -> Option<WorldErr>
    ensures cause { IsCause parties.now (λ w. of_message w message) result }
    ensures refusal { IfSome result IsRefusal }
{
    if message < parties.network.len() as u64 {
        None
    } else {
        Some(WorldErr::NoMessage { index: message })
    }
}

// What is made doesn't exist.
fn unless_there(exists: bool) -> Option<WorldErr>
    ensures cause { result ≡ unless_there exists }
    ensures refusal { IfSome result IsRefusal }
{
    if exists { Some(WorldErr::Taken) } else { None }
}

// An event of a drive's clock or the server's.
fn of_clock(parties: &Parties, machine: Machine) -> Option<WorldErr>
    ensures cause { IsCause parties.now (λ w. clock_cause w machine) result }
    ensures refusal { IfSome result IsRefusal }
{
    match machine {
        Machine::Drive { drive } => of_drive(parties, drive),
        Machine::Server => unless_down(parties),
    }
}

// An event of a client or the server that sends again.
fn of_sender(parties: &Parties, sender: Sender) -> Option<WorldErr>
    ensures cause { IsCause parties.now (λ w. sender_cause w sender) result }
    ensures refusal { IfSome result IsRefusal }
{
    match sender {
        Sender::Client { client } => of_client(parties, client),
        Sender::Server => unless_down(parties),
    }
}

// A crash of a drive or the server.
fn of_crash(parties: &Parties, machine: Machine) -> Option<WorldErr>
    ensures cause { IsCause parties.now (λ w. crash_cause w machine) result }
    ensures refusal { IfSome result IsRefusal }
{
    match machine {
        Machine::Drive { drive } => if_up(parties, drive),
        Machine::Server => unless_down(parties),
    }
}

// The opening behind it.
fn of_reopening(parties: &Parties, machine: Machine) -> Option<WorldErr>
    ensures cause { IsCause parties.now (λ w. reopen_cause w machine) result }
    ensures refusal { IfSome result IsRefusal }
{
    match machine {
        Machine::Drive { drive } => if_down(parties, drive),
        Machine::Server => if_server_down(parties),
    }
}

/// Why an event isn't carried out: the first cause that applies. `None` where it is.
#[tactic(auto, unfolding(world_history::specs::Refusals::refusal))]
pub fn refusal(parties: &Parties, event: &Event) -> Option<WorldErr>
    ensures cause { IsCause parties.now (λ w. refusal w event.now) result }
    ensures refusal { IfSome result IsRefusal }
{
    match event {
        Event::Drive { drive, .. } => of_new_drive(parties, *drive),
        Event::Disk { drive, .. } => of_new_drive(parties, *drive),
        Event::Client { client } => unless_there(parties.clients.get(*client).is_some()),
        Event::Least { drive, .. } => unless_deaf(parties, *drive),
        Event::Inject { drive, .. } => unless_deaf(parties, *drive),
        Event::Fail { drive } => of_drive(parties, *drive),
        Event::Clock { machine, .. } => of_clock(parties, *machine),
        Event::Do { client, .. } => of_client(parties, *client),
        Event::Call { client, .. } => of_client(parties, *client),
        Event::Timeout { client, .. } => of_client(parties, *client),
        Event::Leave { client } => of_client(parties, *client),
        Event::Stop { client } => of_client(parties, *client),
        Event::Resend { sender } => of_sender(parties, *sender),
        Event::Deliver { message } => of_message(parties, *message),
        Event::DropMessage { message } => of_message(parties, *message),
        Event::Recall { file } => of_served_file(parties, *file),
        Event::Revoke { file } => of_served_file(parties, *file),
        Event::Rebuild { file } => of_served_file(parties, *file),
        Event::Audit { file } => of_served_file(parties, *file),
        Event::Declare { drive } => of_declared(parties, *drive),
        Event::File { .. } => unless_down(parties),
        Event::ZonedFile { .. } => unless_down(parties),
        Event::Zone { drive, .. } => of_zone(parties, *drive),
        Event::Format { .. } => unless_down(parties),
        Event::Settle => None,
        Event::Crash { machine } => of_crash(parties, *machine),
        Event::Reopen { machine } => of_reopening(parties, *machine),
    }
}
