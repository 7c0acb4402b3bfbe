// Commands to the drives, under a grant.
ghost use Rattle.std.specs.Prelude.{◌≡◌, ◌+◌, ◌<◌, ◌++◌, ◌∷◌, [], length, replicate, IfOk, OnOk};
ghost use Rattle.osd_capability.specs.declared.keys.CapKey.{CapKey as Key};
ghost use Rattle.osd_capability.specs.Keys.{format_of};
ghost use Rattle.client_rules.specs.Requests.{object_of};
ghost use Rattle.client_rules.specs.Commands.{no_capability, no_credential, credential_of, action_of, sealed, bare, awaited_for, nonce_at, numbered, read_commands, write_commands, counted};

use crate::pending::{PendingCommands, copied};
use client_rules::{Awaited, AwaitedCommands, Credential, Held, NONCES};
use layout_types::{DEVICE_ID_BYTES, ObjId};
use osd_capability::{CHECK_BYTES, CapKey, Capability, FORMAT_SHA1, FORMAT_SHA256, SHA1_TAG_BYTES};
use osd_commands::{Action, Command, seal};
use osd_lists::{Bytes, Memory};
use std::alloc::Global;
use stripe_plan::{Ask, Store};

/// The object of a component; of a number that no component has, one of zeros.
#[tactic(auto, unfolding(client_rules::specs::Requests::object_of))]
pub fn object_of(held: &Held, component: u32) -> ObjId
    ensures { result ≡ object_of held.now component }
{
    match held.components.as_slice().get(component as usize) {
        Some(listed) => listed.id,
        None => ObjId {
            oid_device_id: [0; DEVICE_ID_BYTES],
            oid_partition_id: 0,
            oid_object_id: 0,
        },
    }
}

// What stands for the credential of a component that has none. No plan asks such a component.
fn no_credential() -> Credential
    ensures { result ≡ no_credential }
{
    Credential {
        drive: 0,
        key: CapKey::One([0; SHA1_TAG_BYTES]),
        capability: Capability {
            format: FORMAT_SHA1,
            key_version: 0,
            rights: 0,
            expiry: 0,
            grant: 0,
            holder: 0,
            tag: 0,
            partition: 0,
            object: 0,
            range_start: 0,
            range_len: 0,
        },
    }
}

/// What opens the object of a component; where it is missing, a credential that opens nothing.
#[tactic(auto, unfolding(client_rules::specs::Commands::credential_of))]
pub fn credential_of(held: &Held, component: u32) -> Credential
    ensures { result ≡ credential_of held.now component }
{
    match held.components.as_slice().get(component as usize) {
        Some(listed) => match listed.credential {
            Some(credential) => credential,
            None => no_credential(),
        },
        None => no_credential(),
    }
}

// The format of the capabilities that a key belongs to.
fn format_of(key: &CapKey) -> u8
    ensures { result ≡ format_of key.now }
{
    match key {
        CapKey::One(_) => FORMAT_SHA1,
        CapKey::Two(_) => FORMAT_SHA256,
    }
}

// A command with the check value that its capability's key gives. No layout that is taken has a key of another
// format.
#[tactic(auto, unfolding(client_rules::specs::Commands::sealed))]
fn sealed(key: &CapKey, command: Command) -> Result<Command, Memory>
    ensures { IfOk result (λ c. c ≡ sealed key.now command) }
{
    let mut command = command;
    if format_of(key) != command.capability.format {
        return Err(Memory);
    }
    seal(&mut command, key);
    Ok(command)
}

// The nonce of the grant's next command behind so many. There are fewer than 4,294,967,296.
fn next_nonce(held: &Held, count: u64) -> Result<u64, Memory>
    ensures value { IfOk result (λ nonce. nonce ≡ nonce_at held.now (count + 1)) }
    ensures room { OnOk result (count + 1 < NONCES) }
{
    if count >= NONCES - 1 {
        return Err(Memory);
    }
    Ok(u64::from(held.number) * NONCES + (count + 1))
}

// READ or WRITE.
fn action_of(write: bool) -> Action
    ensures { result ≡ action_of write }
{
    if write { Action::Write } else { Action::Read }
}

// A command that is for these bytes of a component, the next behind so many.
#[tactic(auto, unfolding(client_rules::specs::Commands::command))]
fn awaited_for(held: &Held, write: bool, store: Store, count: u64) -> Result<Awaited, Memory>
    ensures value { IfOk result (λ a. a ≡ awaited_for held.now write store (nonce_at held.now (count + 1))) }
    ensures room { OnOk result (count + 1 < NONCES) }
{
    let nonce = next_nonce(held, count)?;
    let ask = store.ask;
    let object = object_of(held, ask.component);
    let credential = credential_of(held, ask.component);
    let bare = Command {
        action: action_of(write),
        partition: object.oid_partition_id,
        object: object.oid_object_id,
        offset: ask.offset,
        length: ask.length,
        nonce,
        attribute: 0,
        capability: credential.capability,
        payload: store.bytes,
        check: [0; CHECK_BYTES],
    };
    Ok(Awaited {
        write,
        ask,
        drive: credential.drive,
        command: sealed(&credential.key, bare)?,
    })
}

/// READs of these bytes, in this order, with the grant's next nonces.
///
/// # Errors
///
/// Want of memory; and a grant whose nonces are spent or whose key isn't of its capability's format, as none is that
/// the rules of a client take.
#[tactic(auto, unfolding(client_rules::specs::Commands::read_commands, client_rules::specs::Commands::numbered))]
pub fn read_commands(alloc: Global, held: &Held, asks: &[Ask]) -> Result<AwaitedCommands, Memory>
    ensures { IfOk result (λ sent. sent ≡ read_commands held.now asks.now) }
{
    let mut sent = AwaitedCommands::new(alloc);
    let mut count = held.count;
    for ask in asks {
        let store = Store {
            ask: *ask,
            bytes: Bytes::new(alloc),
        };
        sent.push(awaited_for(held, false, store, count)?)?;
        count += 1;
    }
    Ok(sent)
}

/// WRITEs of these bytes, in this order, with the grant's next nonces.
///
/// # Errors
///
/// As [`read_commands`].
#[tactic(auto, unfolding(client_rules::specs::Commands::write_commands, client_rules::specs::Commands::numbered))]
pub fn write_commands(
    alloc: Global,
    held: &Held,
    stores: Vec<Store>,
) -> Result<AwaitedCommands, Memory>
    ensures { IfOk result (λ sent. sent ≡ write_commands held.now stores.items) }
{
    let mut sent = AwaitedCommands::new(alloc);
    let mut count = held.count;
    for store in stores {
        sent.push(awaited_for(held, true, store, count)?)?;
        count += 1;
    }
    Ok(sent)
}

/// Awaits the replies of these commands too, which are sent behind all others: copies of them are kept.
///
/// # Errors
///
/// As [`PendingCommands::add`].
pub fn await_all(
    alloc: Global,
    pending: &mut PendingCommands,
    sent: &AwaitedCommands,
) -> Result<(), Memory>
    ensures { OnOk result (pending.new ≡ pending.old ++ sent.now) }
{
    for awaited in sent.as_slice() {
        pending.add(copied(alloc, awaited)?)?;
    }
    Ok(())
}

/// Counts the commands that were sent under a grant.
///
/// # Errors
///
/// A count above the greatest number.
pub fn count_sent(held: &mut Held, sent: &AwaitedCommands) -> Result<(), Memory>
    ensures { OnOk result (held.new ≡ counted held.old sent.now) }
{
    match held.count.checked_add(sent.len() as u64) {
        Some(count) => {
            held.count = count;
            Ok(())
        }
        None => Err(Memory),
    }
}
