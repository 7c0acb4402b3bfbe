// The commands of a file's jobs.
ghost use Rattle.std.specs.Prelude.{◌≡◌, ◌<◌, ◌≤◌, ◌^◌, ◌/◌, length, IfOk};
ghost use Rattle.data_map.specs.Striping.{replicas};
ghost use Rattle.data_map.specs.declared.check.TheConstants.{MAX_COMPONENTS};
ghost use Rattle.server_rules.specs.Standing.{replica};
ghost use Rattle.server_rules.specs.Commands.{Writing, command, command_for, is_first, is_meant, label, own_capability, sent_to, to_all};
ghost use Rattle.stripe_repair.specs.Asks.{asked, meant};

use crate::replicas::{group_with, replica};
use data_map::DataMap;
use osd_capability::{CHECK_BYTES, Capability};
use osd_commands::{Action, Command};
use osd_lists::{Bytes, Memory, put_u32, put_u64};
use server_rules::{
    ALL_RIGHTS, Awaited, AwaitedCommands, FIRST_PARTITION, KEY_VERSION, Kept, LENGTH_ATTRIBUTE,
    NO_EXPIRY, SERVER_HOLDER, Target, WHOLE_OBJECT,
};
use std::alloc::Global;

/// What a job asks of an object, but for a WRITE.
#[derive(Clone, Copy, PartialEq, Eq)]
pub enum Ask {
    /// CREATE, with a label of the file, the component and the map.
    Create,
    /// SET TAG.
    Raise,
    /// READ of so many bytes from an offset on.
    Read { offset: u64, length: u64 },
    /// GET ATTR of the object's length.
    Measure,
}

/// Which of the present components are meant.
#[derive(Clone, Copy, PartialEq, Eq)]
pub enum Which {
    /// All of them.
    Every,
    /// The component of a number.
    One { component: u32 },
    /// The components of a group.
    Group { group: u32 },
    /// The first present replica of each position of a group.
    Firsts { group: u32 },
}

// What a command has beside its object and its payload.
#[derive(Clone, Copy)]
struct Fields {
    action: Action,
    offset: u64,
    length: u64,
    attribute: u32,
}

// How many bytes a label has.
const LABEL: usize = 36;

// The server's own capability: all rights on the whole object, for ever.
fn own_capability(kept: &Kept, to: Target) -> Capability
    ensures { result ≡ own_capability kept.now to.drive to.object }
{
    Capability {
        format: kept.format,
        key_version: KEY_VERSION,
        rights: ALL_RIGHTS,
        expiry: NO_EXPIRY,
        grant: 0,
        holder: SERVER_HOLDER,
        tag: kept.tag,
        partition: FIRST_PARTITION + u64::from(to.drive),
        object: to.object,
        range_start: 0,
        range_len: WHOLE_OBJECT,
    }
}

// A command of the server, not sealed.
fn command(kept: &Kept, to: Target, nonce: u64, fields: Fields, payload: Bytes) -> Command
    ensures { result ≡ command kept.now to.drive to.object nonce fields.action fields.offset fields.length
        fields.attribute payload }
{
    Command {
        action: fields.action,
        partition: FIRST_PARTITION + u64::from(to.drive),
        object: to.object,
        offset: fields.offset,
        length: fields.length,
        nonce,
        attribute: fields.attribute,
        capability: own_capability(kept, to),
        payload,
        check: [0; CHECK_BYTES],
    }
}

// What a CREATE carries: the file, the component and the map.
#[tactic(auto, unfolding(server_rules::specs::Commands::label))]
fn label(map: &DataMap, file: u32, component: u32) -> [u8; LABEL]
    ensures { result ≡ label map.now file component }
{
    let raw = map.raw();
    let mut out = [0u8; LABEL];
    put_u32(&mut out, 0, file);
    put_u32(&mut out, 4, component);
    put_u32(&mut out, 8, raw.comps);
    put_u64(&mut out, 12, raw.unit);
    put_u32(&mut out, 20, raw.width);
    put_u32(&mut out, 24, raw.depth);
    put_u32(&mut out, 28, raw.mirrors);
    put_u32(&mut out, 32, raw.algorithm);
    out
}

// The fields of a command that carries nothing.
fn plain(action: Action) -> Fields
    ensures { result ≡ record { action = action; offset = 0; length = 0; attribute = 0 } }
{
    Fields {
        action,
        offset: 0,
        length: 0,
        attribute: 0,
    }
}

// The command that asks it of a component's object.
fn command_for(
    alloc: Global,
    kept: &Kept,
    ask: Ask,
    to: Target,
    nonce: u64,
) -> Result<Command, Memory>
    ensures { IfOk result (λ c. c ≡ command_for kept.now (asked ask) to.component to.drive to.object nonce) }
{
    let none = Bytes::new(alloc);
    match ask {
        Ask::Create => {
            let payload = Bytes::copied(alloc, &label(&kept.map, kept.number, to.component))?;
            Ok(command(kept, to, nonce, plain(Action::Create), payload))
        }
        Ask::Raise => Ok(command(kept, to, nonce, plain(Action::SetTag), none)),
        Ask::Read { offset, length } => {
            let fields = Fields {
                offset,
                length,
                ..plain(Action::Read)
            };
            Ok(command(kept, to, nonce, fields, none))
        }
        Ask::Measure => {
            let fields = Fields {
                attribute: LENGTH_ATTRIBUTE,
                ..plain(Action::GetAttr)
            };
            Ok(command(kept, to, nonce, fields, none))
        }
    }
}

/// The command that asks it of a component's object, as it is awaited. It isn't sealed.
pub fn sent_to(
    alloc: Global,
    kept: &Kept,
    ask: Ask,
    to: Target,
    nonce: u64,
) -> Result<Awaited, Memory>
    ensures { IfOk result (λ a. a ≡ sent_to kept.now (asked ask) to.component to.drive to.object nonce) }
{
    Ok(Awaited {
        component: to.component,
        drive: to.drive,
        command: command_for(alloc, kept, ask, to, nonce)?,
    })
}

/// The WRITE of these bytes to a component's object, as it is awaited. It isn't sealed.
pub fn write_to(kept: &Kept, offset: u64, bytes: Bytes, to: Target, nonce: u64) -> Awaited
    ensures { result ≡ sent_to kept.now (Writing offset bytes) to.component to.drive to.object nonce }
{
    let fields = Fields {
        action: Action::Write,
        offset,
        length: bytes.len() as u64,
        attribute: 0,
    };
    Awaited {
        component: to.component,
        drive: to.drive,
        command: command(kept, to, nonce, fields, bytes),
    }
}

// Whether a component is the first present replica of its position.
fn is_first(kept: &Kept, component: u32) -> bool
    requires { length kept.now.components ≤ MAX_COMPONENTS }
    ensures { result ≡ is_first kept.now component
        (replica kept.now.map kept.now.components (component / replicas kept.now.map)) }
{
    let position = component / kept.map.replicas();
    match replica(&kept.map, kept.components.as_slice(), position) {
        Some(first) => first == component,
        None => false,
    }
}

/// Whether a component is meant, where it is present.
#[tactic(auto, unfolding(server_rules::specs::Commands::is_meant))]
pub fn is_meant(kept: &Kept, which: Which, component: u32) -> bool
    requires { length kept.now.components ≤ MAX_COMPONENTS }
    ensures { result ≡ is_meant kept.now (meant which) component }
{
    match which {
        Which::Every => true,
        Which::One { component: meant } => component == meant,
        Which::Group { group } => group_with(&kept.map, component) == group,
        Which::Firsts { group } => {
            group_with(&kept.map, component) == group && is_first(kept, component)
        }
    }
}

/// The same command to each present component that is meant, in order, with nonces that rise from `first` on.
#[tactic(auto, unfolding(server_rules::specs::Commands::to_each))]
pub fn to_all(
    alloc: Global,
    kept: &Kept,
    which: Which,
    ask: Ask,
    first: u64,
) -> Result<AwaitedCommands, Memory>
    requires few { length kept.now.components ≤ MAX_COMPONENTS }
    requires low { first < 2 ^ 63 }
    ensures { IfOk result (λ cs. cs ≡ to_all kept.now (meant which) (asked ask) first) }
{
    let mut out = AwaitedCommands::new(alloc);
    let mut nonce = first;
    let mut component = 0u32;
    for at in kept.components.as_slice() {
        if !at.missing && is_meant(kept, which, component) {
            let to = Target {
                component,
                drive: at.drive,
                object: at.object,
            };
            out.push(sent_to(alloc, kept, ask, to, nonce)?)?;
            nonce += 1;
        }
        component += 1;
    }
    Ok(out)
}
