// An exchange with a drive.
ghost use Rattle.std.specs.Prelude.{◌≡◌, ◌⊎◌, Option, IfOk, OnOk, OnErr};
ghost use Rattle.osd_lists.specs.declared.node.Node.TheVariants.{Drive};
ghost use Rattle.cluster_text.specs.Peers.{KeepsAddresses};
ghost use Rattle.osd_bytes.specs.Connections.{Traffic};
ghost use Rattle.osd_bytes.specs.Counts.{Faults};
ghost use Rattle.client_command.specs.Exchanges.{AskedFor, AskedTwice, AsksDrive, CutsAgain, CutsExchange, CutsFor};
ghost use Rattle.client_command.specs.Exchanges.{dealing, dealing_at, heard, late, timed_out};

use crate::notices::{Notice, Notices, take_step};
use osd_bytes::{Links, asked};
use osd_lists::{Bytes, Memory, Node, u64_at};
use std::alloc::Global;
use stripe_client::{ClientCore, Sends};

/// Where the nonce of a command stands.
pub const NONCE_AT: usize = 40;

// Where the nonce of a command ends.
const NONCE_END: usize = 48;

/// Gives the client the record that came from a node, if one did.
pub(crate) fn hear_reply(
    alloc: Global,
    core: &mut ClientCore,
    from: Node,
    came: Option<Bytes>,
    waiting: &mut Sends,
    notices: &mut Notices,
) -> Result<(), Memory>
    ensures { OnOk result ((told : Option Traffic) (faults : Faults) → dealing core.new waiting.new notices.new told faults
        ≡ heard (dealing core.old waiting.old notices.old told faults) from came) }
{
    match came {
        Some(bytes) => {
            let step = core.on_message(from, bytes.as_slice())?;
            take_step(alloc, step, waiting, notices)?;
            Ok(())
        }
        None => Ok(()),
    }
}

// The component whose reply to this command is still awaited.
fn late_component(core: &ClientCore, command: &[u8]) -> Option<u32>
    ensures { result ≡ late core.now command.now }
{
    if command.len() < NONCE_END {
        return None;
    }
    core.awaited(u64_at(command, NONCE_AT))
}

// Lets this component time out, if there is one.
fn time_out(
    alloc: Global,
    core: &mut ClientCore,
    component: Option<u32>,
    waiting: &mut Sends,
    notices: &mut Notices,
) -> Result<(), Memory>
    ensures { OnOk result ((told : Option Traffic) (faults : Faults) → dealing core.new waiting.new notices.new told faults
        ≡ timed_out (dealing core.old waiting.old notices.old told faults) component) }
{
    match component {
        Some(component) => {
            notices.push(Notice::TimedOut { component })?;
            let step = core.timeout(component)?;
            take_step(alloc, step, waiting, notices)?;
            Ok(())
        }
        None => Ok(()),
    }
}

// Asks a drive, and if no record comes, once more over a second connection.
fn asked_twice<L: Links>(
    alloc: Global,
    links: &mut L,
    drive: u32,
    command: &[u8],
) -> Result<Option<Bytes>, Memory>
    ensures came { IfOk result (AskedTwice (Drive drive) command.now (L.told links.old) (L.told links.new)
        (L.faults links.old) (L.faults links.new)) }
    ensures cuts { OnErr result (CutsExchange (Drive drive) command.now (L.told links.old) (L.told links.new)
        (L.faults links.old) (L.faults links.new)
        ⊎ CutsAgain (Drive drive) command.now (L.told links.old) (L.told links.new)
        (L.faults links.old) (L.faults links.new)) }
    ensures addresses { KeepsAddresses (L.standing links.old) (L.standing links.new) }
{
    // Here and below, arms in place of `?` or of the bare call are for the prover (docs/dev/PROVER_FORMS.md).
    match asked(alloc, links, Node::Drive(drive), command) {
        Ok(Some(record)) => Ok(Some(record)),
        Ok(None) => match asked(alloc, links, Node::Drive(drive), command) {
            Ok(came) => Ok(came),
            Err(e) => Err(e),
        },
        Err(e) => Err(e),
    }
}

// Asks a drive for the reply that a component awaits, if one does.
fn asked_for<L: Links>(
    alloc: Global,
    links: &mut L,
    component: Option<u32>,
    drive: u32,
    command: &[u8],
) -> Result<Option<Bytes>, Memory>
    ensures came { IfOk result (AskedFor component (Drive drive) command.now (L.told links.old) (L.told links.new)
        (L.faults links.old) (L.faults links.new)) }
    ensures cuts { OnErr result (CutsFor component (Drive drive) command.now (L.told links.old) (L.told links.new)
        (L.faults links.old) (L.faults links.new)) }
    ensures addresses { KeepsAddresses (L.standing links.old) (L.standing links.new) }
{
    match component {
        Some(_) => match asked_twice(alloc, links, drive, command) {
            Ok(came) => Ok(came),
            Err(e) => Err(e),
        },
        None => match asked(alloc, links, Node::Drive(drive), command) {
            Ok(came) => Ok(came),
            Err(e) => Err(e),
        },
    }
}

/// Sends a command to a drive, and gives the client the record that comes. If none comes and the command is awaited, it
/// is sent once more, so that a drive that was slow once isn't taken for lost; a drive that performed it gives the same
/// reply again, or says that it did. Its component times out exactly where the command is still awaited after that:
/// where no record came, or none that is the reply.
///
/// # Errors
///
/// Want of memory alone: the exchange was cut off, or there was none for what came of it.
pub(crate) fn exchange_with_drive<L: Links>(
    alloc: Global,
    core: &mut ClientCore,
    links: &mut L,
    drive: u32,
    command: &[u8],
    waiting: &mut Sends,
    notices: &mut Notices,
) -> Result<(), Memory>
    ensures asks { OnOk result (AsksDrive drive command.now
        (dealing_at L.Links links.old core.old waiting.old notices.old)
        (dealing_at L.Links links.new core.new waiting.new notices.new)) }
    ensures cuts { OnErr result (CutsFor (late core.old command.now) (Drive drive) command.now
        (L.told links.old) (L.told links.new) (L.faults links.old) (L.faults links.new)) }
    ensures addresses { KeepsAddresses (L.standing links.old) (L.standing links.new) }
{
    let awaited = late_component(core, command);
    let came = asked_for(alloc, links, awaited, drive, command)?;
    hear_reply(alloc, core, Node::Drive(drive), came, waiting, notices)?;
    let component = late_component(core, command);
    time_out(alloc, core, component, waiting, notices)?;
    Ok(())
}
