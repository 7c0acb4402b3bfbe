// The scenario that is made from a seed.
ghost use Rattle.std.specs.Prelude.{◌≡◌, ◌++◌, ◌≤◌, ◌<◌, ◌+◌, ◌%◌, ◌∷◌, [], Some, IfOk, OnOk, replicate};
ghost use Rattle.scenario_text.specs.declared.event.Event.TheVariants as event;
ghost use Rattle.generate_law.specs.Scenario as made;

use osd_lists::{Bytes, Memory};
use scenario_text::{Call, ClientName, DriveName, Event, FileMap, FileName};
use std::alloc::Global;

// The drives of the scenario, `d0` and on.
const DRIVES: u32 = 6;

// The clients of the scenario, `c0` and on.
const CLIENTS: u32 = 3;

// Each byte of a drive's key.
const KEY_BYTE: u8 = 0x0b;

// The capacity of a drive, in bytes.
const CAPACITY: u64 = 20_000_000;

// The first call writes one byte here, so that each range that is read later is below the file's size.
const FIRST_OFFSET: u64 = 262_143;

// Offsets of calls are below this.
const OFFSETS: u64 = 261_000;

// Calls are of at most so many bytes.
const LENGTHS: u64 = 1000;

// The steps of the generator of random numbers, modulo 2^64.
const FACTOR: u64 = 6_364_136_223_846_793_005;

const STEP: u64 = 1_442_695_040_888_963_407;

// The event that makes a drive.
fn drive(drive: DriveName) -> Event
    ensures { result ≡ made.makes_drive drive }
{
    Event::Drive {
        drive,
        key: [KEY_BYTE; 20],
        capacity: CAPACITY,
    }
}

// The event that makes a file: five components of RAID_5.
fn file(file: FileName) -> Event
    requires { file ≡ 0 }
    ensures { result ≡ made.makes_file }
{
    Event::File {
        file,
        map: FileMap {
            components: 5,
            unit: 4096,
            width: 0,
            depth: 0,
            mirrors: 0,
            algorithm: 3,
        },
        tag: 1,
    }
}

// A list of so many bytes of one value.
fn filled(alloc: Global, value: u8, length: u64) -> Result<Bytes, Memory>
    requires { length ≤ 1000 }
    ensures { IfOk result (λ bytes. bytes ≡ replicate length value) }
{
    let bytes = vec![in alloc; value; length as usize]?;
    Ok(Bytes::from_vec(bytes))
}

// The event of the first call.
fn first_call(alloc: Global, client: ClientName, file: FileName) -> Result<Event, Memory>
    requires client { client ≡ 0 }
    requires file { file ≡ 0 }
    ensures { IfOk result (λ e. e ≡ made.first_call) }
{
    Ok(Event::Do {
        client,
        call: Call::Write {
            file,
            offset: FIRST_OFFSET,
            bytes: filled(alloc, 0, 1)?,
        },
    })
}

// The next random number.
fn next(x: u64) -> u64
    ensures { result ≡ made.next_random x }
{
    x.wrapping_mul(FACTOR).wrapping_add(STEP)
}

// Call `k`, by the random number of its turn: a write where `k` is even, else a read.
fn call(alloc: Global, k: u64, x: u64, file: FileName) -> Result<Call, Memory>
    requires { file ≡ 0 }
    ensures { IfOk result (λ call. call ≡ made.call_of k x) }
{
    let offset = (x >> 40) % OFFSETS;
    let length = 1 + (x >> 20) % LENGTHS;
    if k % 2 == 0 {
        Ok(Call::Write {
            file,
            offset,
            bytes: filled(alloc, (k % 256) as u8, length)?,
        })
    } else {
        Ok(Call::Read {
            file,
            offset,
            length,
        })
    }
}

// Adds the events that make the drives.
fn add_drives(events: &mut Vec<Event>) -> Result<(), Memory>
    ensures { OnOk result (events.new.items ≡ events.old.items ++ made.each_below made.makes_drive 6) }
{
    for number in 0..DRIVES {
        if let Some(name) = DriveName::new(number) {
            events.push(drive(name))?;
        }
    }
    Ok(())
}

// Adds the events that make the clients.
fn add_clients(events: &mut Vec<Event>) -> Result<(), Memory>
    ensures { OnOk result (events.new.items ≡ events.old.items ++ made.each_below event.Client 3) }
{
    for number in 0..CLIENTS {
        if let Some(client) = ClientName::new(number) {
            events.push(Event::Client { client })?;
        }
    }
    Ok(())
}

// Adds the events of all calls but the first.
fn add_calls(
    events: &mut Vec<Event>,
    alloc: Global,
    seed: u64,
    calls: u64,
    file: FileName,
) -> Result<(), Memory>
    requires { file ≡ 0 }
    ensures { OnOk result (events.new.items ≡ events.old.items ++ made.calls_from calls 0 seed) }
{
    let mut x = seed;
    for k in 0..calls {
        if let Some(client) = ClientName::new((k % u64::from(CLIENTS)) as u32) {
            let call = call(alloc, k, x, file)?;
            events.push(Event::Do { client, call })?;
        }
        x = next(x);
    }
    Ok(())
}

/// The events of the scenario with so many calls that is made from a seed: six drives, three clients, a file and its
/// first call, and then the calls.
pub fn scenario(alloc: Global, seed: u64, calls: u64) -> Result<Vec<Event>, Memory>
    ensures { IfOk result (λ events. events.items ≡ made.scenario_of seed calls) }
{
    let mut events = Vec::new(alloc);
    add_drives(&mut events)?;
    add_clients(&mut events)?;
    if let (Some(first), Some(name)) = (ClientName::new(0), FileName::new(0)) {
        events.push(file(name))?;
        events.push(first_call(alloc, first, name)?)?;
        add_calls(&mut events, alloc, seed, calls, name)?;
    }
    Ok(events)
}
