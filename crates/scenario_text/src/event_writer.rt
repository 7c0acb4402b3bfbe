ghost use Rattle.std.specs.Prelude.{◌≡◌, ◌++◌, ◌∷◌, [], OnOk, map};
ghost use Rattle.scenario_text.specs.Words.{behind};
ghost use Rattle.scenario_text.specs.Parts.{word_of, spelled, Fixed as WordPart};
ghost use Rattle.scenario_text.specs.Spelling.{call_parts, map_parts, sender_part, machine_part, drive_parts};
ghost use Rattle.scenario_text.specs.Spelling.{tag as tag_part, event_parts};
ghost use Rattle.scenario_text.specs.Written.{written};
ghost use Rattle.scenario_text.specs.Groups.{group_of};
ghost use Rattle.scenario_text.specs.declared.group.Group.TheVariants.{Setup, Traffic, Upkeep};

use crate::event::{Call, Event, FileMap, Machine, Sender};
use crate::group::{Group, event_group};
use crate::names::DriveName;
use crate::write::Word::{Fixed, Hex, Key, Number};
use crate::write::{Word, named, put, small};
use osd_lists::{Bytes, Memory};

fn put_call(out: &mut Bytes, call: &Call) -> Result<(), Memory>
    ensures { OnOk result (out.new ≡ out.old ++ behind 32 (map word_of (call_parts call.now))) }
{
    match call {
        Call::Write {
            file,
            offset,
            bytes,
        } => {
            let hex = Hex(bytes.as_slice());
            let words = [Fixed(b"write"), named(file), Number(*offset), hex];
            put(out, &words)
        }
        Call::Read {
            file,
            offset,
            length,
        } => {
            let count = Number(*length);
            let words = [Fixed(b"read"), named(file), Number(*offset), count];
            put(out, &words)
        }
    }
}

fn put_map(out: &mut Bytes, file_map: &FileMap) -> Result<(), Memory>
    ensures { OnOk result (out.new ≡ out.old ++ behind 32 (map word_of (map_parts file_map.now))) }
{
    let words = [
        small(file_map.components),
        Number(file_map.unit),
        small(file_map.width),
        small(file_map.depth),
        small(file_map.mirrors),
        small(file_map.algorithm),
    ];
    put(out, &words)
}

fn sender_word<'a>(sender: &Sender) -> Word<'a>
    ensures { written result ≡ word_of (sender_part sender.now) }
{
    match sender {
        Sender::Client { client } => named(client),
        Sender::Server => Fixed(b"s"),
    }
}

fn machine_word<'a>(machine: &Machine) -> Word<'a>
    ensures { written result ≡ word_of (machine_part machine.now) }
{
    match machine {
        Machine::Drive { drive } => named(drive),
        Machine::Server => Fixed(b"s"),
    }
}

// Adds a word and what a drive is made with.
fn put_drive<'x>(
    out: &mut Bytes,
    word: &'x [u8],
    drive: &DriveName,
    key: &'x [u8; 20],
    capacity: u64,
) -> Result<(), Memory>
    ensures { OnOk result (out.new ≡ out.old ++ spelled (WordPart word.now ∷ drive_parts drive.now key.now capacity)) }
{
    put(
        out,
        &[Fixed(word), named(drive), Key(key), Number(capacity)],
    )
}

// Adds the data map and the tag of a file.
fn put_map_and_tag(out: &mut Bytes, file_map: &FileMap, tag: u32) -> Result<(), Memory>
    ensures { OnOk result (out.new ≡ out.old ++ behind 32 (map word_of (map_parts file_map.now ++ tag_part tag ∷ []))) }
{
    put_map(out, file_map)?;
    put(out, &[small(tag)])
}

fn put_setup(out: &mut Bytes, event: &Event) -> Result<(), Memory>
    requires { group_of event.now ≡ Setup }
    ensures { OnOk result (out.new ≡ out.old ++ behind 32 (map word_of (event_parts event.now))) }
{
    match event {
        Event::Drive {
            drive,
            key,
            capacity,
        } => put_drive(out, b"drive", drive, key, *capacity),
        Event::Disk {
            drive,
            key,
            capacity,
        } => put_drive(out, b"disk", drive, key, *capacity),
        Event::Client { client } => put(out, &[Fixed(b"client"), named(client)]),
        Event::File { file, map, tag } => {
            put(out, &[Fixed(b"file"), named(file)])?;
            put_map_and_tag(out, map, *tag)
        }
        Event::ZonedFile { file, map, tag } => {
            put(out, &[Fixed(b"zfile"), named(file)])?;
            put_map_and_tag(out, map, *tag)
        }
        Event::Zone { drive, zone } => { put(out, &[Fixed(b"zone"), named(drive), small(*zone)]) }
        Event::Least { drive, format } => {
            let format = Number(u64::from(*format));
            put(out, &[Fixed(b"least"), named(drive), format])
        }
        Event::Format { format } => {
            let format = Number(u64::from(*format));
            put(out, &[Fixed(b"format"), Fixed(b"s"), format])
        }
        _ => unreachable!(),
    }
}

fn put_traffic(out: &mut Bytes, event: &Event) -> Result<(), Memory>
    requires { group_of event.now ≡ Traffic }
    ensures { OnOk result (out.new ≡ out.old ++ behind 32 (map word_of (event_parts event.now))) }
{
    match event {
        Event::Do { client, call } => {
            put(out, &[Fixed(b"do"), named(client)])?;
            put_call(out, call)
        }
        Event::Call { client, call } => {
            put(out, &[Fixed(b"call"), named(client)])?;
            put_call(out, call)
        }
        Event::Deliver { message } => { put(out, &[Fixed(b"deliver"), Number(*message)]) }
        Event::DropMessage { message } => put(out, &[Fixed(b"drop"), Number(*message)]),
        Event::Settle => put(out, &[Fixed(b"settle")]),
        Event::Resend { sender } => put(out, &[Fixed(b"resend"), sender_word(sender)]),
        Event::Timeout { client, component } => {
            let words = [Fixed(b"timeout"), named(client), small(*component)];
            put(out, &words)
        }
        Event::Leave { client } => put(out, &[Fixed(b"leave"), named(client)]),
        Event::Inject { drive, bytes } => {
            let hex = Hex(bytes.as_slice());
            put(out, &[Fixed(b"inject"), named(drive), hex])
        }
        _ => unreachable!(),
    }
}

fn put_upkeep(out: &mut Bytes, event: &Event) -> Result<(), Memory>
    requires { group_of event.now ≡ Upkeep }
    ensures { OnOk result (out.new ≡ out.old ++ behind 32 (map word_of (event_parts event.now))) }
{
    match event {
        Event::Clock { machine, time } => {
            let time = Number(*time);
            put(out, &[Fixed(b"clock"), machine_word(machine), time])
        }
        Event::Recall { file } => put(out, &[Fixed(b"recall"), named(file)]),
        Event::Revoke { file } => put(out, &[Fixed(b"revoke"), named(file)]),
        Event::Rebuild { file } => put(out, &[Fixed(b"rebuild"), named(file)]),
        Event::Audit { file } => put(out, &[Fixed(b"audit"), named(file)]),
        Event::Declare { drive } => put(out, &[Fixed(b"declare"), named(drive)]),
        Event::Stop { client } => put(out, &[Fixed(b"stop"), named(client)]),
        Event::Fail { drive } => put(out, &[Fixed(b"fail"), named(drive)]),
        Event::Crash { machine } => put(out, &[Fixed(b"crash"), machine_word(machine)]),
        Event::Reopen { machine } => put(out, &[Fixed(b"reopen"), machine_word(machine)]),
        _ => unreachable!(),
    }
}

// Adds the words of an event, each behind a space.
pub(crate) fn put_event(out: &mut Bytes, event: &Event) -> Result<(), Memory>
    ensures { OnOk result (out.new ≡ out.old ++ behind 32 (map word_of (event_parts event.now))) }
{
    match event_group(event) {
        Group::Setup => put_setup(out, event),
        Group::Traffic => put_traffic(out, event),
        Group::Upkeep => put_upkeep(out, event),
    }
}
