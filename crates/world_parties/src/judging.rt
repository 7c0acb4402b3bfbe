// What a drive makes of bytes, and of a least format.
ghost use Rattle.std.specs.Prelude.{◌≡◌, ◌⊎◌, false, Ok, IfOk, IsTrue, OnOk, OnErr, length};
ghost use Rattle.drive_store.specs.declared.record.TheConstants.{SECOND_FORMAT};
ghost use Rattle.drive_store.specs.Records.{raised};
ghost use Rattle.osd_commands.specs.Commands.{reading, allows};
ghost use Rattle.osd_drive.specs.Effects.{after_reading};
ghost use Rattle.world_history.specs.Drives.{verdict_on};
ghost use Rattle.drive_store.specs.Stores.{core_of};
ghost use Rattle.world_parties.specs.Backing.{IsOwnStore, Stands, StaysOr, emptied, is_resting, state_in};
ghost use Rattle.world_parties.specs.Drive.{IsMadeOf, JudgesAt};

use crate::backing::{Backing, DriveMake, new_core, placeholder, want_of};
use drive_store::{SECOND_FORMAT, StoredDrive};
use osd_commands::{Command, CommandErr, Reply, read_command};
use osd_disk::FaultlessDisk;
use osd_drive::{DriveCore, Verdict as DriveVerdict};
use osd_lists::Memory;
use scenario_text::Verdict;
use std::alloc::Global;
use std::mem;
use world_network::told_verdict;

/// What a drive made of bytes.
#[derive(Drop)]
pub struct Judged {
    /// The first fault, or `Perform`; `Format` where the bytes spell no command.
    pub verdict: Verdict,
    /// What it replies.
    pub reply: Reply,
}

// What a drive in memory alone makes of the command that the bytes spell.
fn judge_command(
    core: &mut DriveCore,
    alloc: Global,
    clock: u64,
    command: &Command,
    bytes: &[u8],
) -> Result<Judged, Memory>
    requires read { reading bytes.now ≡ Ok command.now }
    requires sized { IsTrue (allows command.now.action command.now.length (length command.now.payload)) }
    ensures judged { IfOk result (λ told. JudgesAt core.old clock (Ok command.now) core.new told) }
    ensures err { OnErr result (core.new ≡ core.old) }
{
    match core.judge(clock, command) {
        DriveVerdict::Perform => {
            let reply = core.perform(alloc, command)?;
            Ok(Judged {
                verdict: Verdict::Perform,
                reply,
            })
        }
        verdict => {
            let reply = core.handle(alloc, clock, bytes)?;
            Ok(Judged {
                verdict: told_verdict(verdict),
                reply,
            })
        }
    }
}

// What a drive in memory alone makes of bytes.
fn judge_core(
    core: &mut DriveCore,
    alloc: Global,
    clock: u64,
    bytes: &[u8],
) -> Result<Judged, Memory>
    ensures judged { IfOk result (λ told. JudgesAt core.old clock (reading bytes.now) core.new told) }
    ensures err { OnErr result (core.new ≡ core.old) }
{
    match read_command(alloc, bytes) {
        Ok(command) => judge_command(core, alloc, clock, &command, bytes),
        Err(CommandErr::Memory) => Err(Memory),
        Err(_) => {
            let reply = core.handle(alloc, clock, bytes)?;
            Ok(Judged {
                verdict: Verdict::Format,
                reply,
            })
        }
    }
}

// The verdict of a stored drive.
fn verdict_in(
    store: &StoredDrive<FaultlessDisk>,
    alloc: Global,
    clock: u64,
    bytes: &[u8],
) -> Result<Verdict, Memory>
    ensures { IfOk result (λ verdict. verdict ≡ verdict_on (core_of store.now) clock (reading bytes.now)) }
{
    match read_command(alloc, bytes) {
        Ok(command) => Ok(told_verdict(store.verdict(clock, &command))),
        Err(CommandErr::Memory) => Err(Memory),
        Err(_) => Ok(Verdict::Format),
    }
}

// What a stored drive makes of bytes. One whose disk wanted memory does nothing any more.
fn judge_store(
    store: &mut StoredDrive<FaultlessDisk>,
    alloc: Global,
    made: DriveMake,
    clock: u64,
    bytes: &[u8],
) -> Result<Judged, Memory>
    requires { IsOwnStore made store.old }
    ensures judged { IfOk result (λ told. JudgesAt (core_of store.old) clock (reading bytes.now) (core_of store.new) told) }
    ensures own { IsOwnStore made store.new }
    ensures err { OnErr result ((core_of store.new ≡ core_of store.old)
        ⊎ (core_of store.new ≡ after_reading (core_of store.old) clock (reading bytes.now))) }
{
    let _made = made;
    if store.is_over() {
        return Err(Memory);
    }
    let verdict = verdict_in(store, alloc, clock, bytes)?;
    match store.handle(alloc, clock, bytes) {
        Ok(reply) => Ok(Judged { verdict, reply }),
        Err(e) => Err(want_of(e)),
    }
}

/// What a drive makes of bytes: it performs the command that they spell if nothing stands against it.
///
/// # Errors
///
/// Want of memory alone. A drive in memory alone is as before then. A stored one may have performed the command; then it
/// does nothing any more.
#[tactic(auto, using(crate::proofs::Made::made_after))]
pub(crate) fn judge(
    backing: &mut Backing,
    alloc: Global,
    made: DriveMake,
    clock: u64,
    bytes: &[u8],
) -> Result<Judged, Memory>
    requires stands { Stands made backing.old }
    requires awake { is_resting backing.old ≡ false }
    ensures judged { IfOk result (λ told. JudgesAt (state_in made backing.old) clock (reading bytes.now)
        (state_in made backing.new) told) }
    ensures stands { Stands made backing.new }
    ensures err { OnErr result (StaysOr made (after_reading (state_in made backing.old) clock (reading bytes.now))
        (state_in made backing.old) (state_in made backing.new)) }
{
    match backing {
        Backing::Volatile { core } => judge_core(core, alloc, clock, bytes),
        Backing::Stored { store } => judge_store(store, alloc, made, clock, bytes),
        Backing::Resting { .. } => unreachable!(),
    }
}

// Raises the least format of a stored drive.
fn raise_store(
    store: &mut StoredDrive<FaultlessDisk>,
    alloc: Global,
    made: DriveMake,
) -> Result<(), Memory>
    requires { IsOwnStore made store.old }
    ensures ok { OnOk result (core_of store.new ≡ raised (core_of store.old) SECOND_FORMAT) }
    ensures own { IsOwnStore made store.new }
    ensures err { OnErr result ((core_of store.new ≡ core_of store.old)
        ⊎ (core_of store.new ≡ raised (core_of store.old) SECOND_FORMAT)) }
{
    let _made = made;
    if store.is_over() {
        return Err(Memory);
    }
    match store.raise_least(alloc, SECOND_FORMAT) {
        Ok(()) => Ok(()),
        Err(e) => Err(want_of(e)),
    }
}

// Raises the least format to the one that stores know.
#[tactic(auto, using(crate::proofs::Made::made_raised))]
fn raise_second(backing: &mut Backing, alloc: Global, made: DriveMake) -> Result<(), Memory>
    requires stands { Stands made backing.old }
    requires awake { is_resting backing.old ≡ false }
    ensures ok { OnOk result (state_in made backing.new ≡ raised (state_in made backing.old) SECOND_FORMAT) }
    ensures stands { Stands made backing.new }
    ensures err { OnErr result (StaysOr made (raised (state_in made backing.old) SECOND_FORMAT)
        (state_in made backing.old) (state_in made backing.new)) }
{
    match backing {
        Backing::Volatile { core } => {
            core.raise_least(SECOND_FORMAT);
            Ok(())
        }
        Backing::Stored { store } => raise_store(store, alloc, made),
        Backing::Resting { .. } => unreachable!(),
    }
}

// The drive without its store.
fn core_in(backing: Backing, made: DriveMake) -> DriveCore
    requires stands { Stands made backing }
    requires awake { is_resting backing ≡ false }
    ensures same { result ≡ state_in made backing }
    ensures made_of { IsMadeOf made result }
{
    let _made = made;
    match backing {
        Backing::Volatile { core } => core,
        Backing::Stored { store } => store.into_core(),
        Backing::Resting { .. } => unreachable!(),
    }
}

/// The least format of capabilities that the drive takes.
pub(crate) fn least_format(backing: &Backing, made: DriveMake) -> u8
    requires { is_resting backing.now ≡ false }
    ensures { result ≡ (state_in made backing.now).least }
{
    let _made = made;
    match backing {
        Backing::Volatile { core } => core.least_format(),
        Backing::Stored { store } => store.least_format(),
        Backing::Resting { .. } => unreachable!(),
    }
}

// Raises the least format to one that no store knows, and that no text names: the drive goes on in memory alone.
#[tactic(auto, using(crate::proofs::Made::made_raised))]
fn raise_alone(backing: &mut Backing, alloc: Global, made: DriveMake, format: u8)
    requires stands { Stands made backing.old }
    requires awake { is_resting backing.old ≡ false }
    ensures raised { state_in made backing.new ≡ raised (state_in made backing.old) format }
    ensures stands { Stands made backing.new }
{
    let mut core = core_in(mem::replace(backing, placeholder(alloc, made)), made);
    core.raise_least(format);
    *backing = Backing::Volatile { core };
}

/// The drive takes no more capabilities of a format below this one.
///
/// # Errors
///
/// As those of [`judge`].
pub(crate) fn raise_least(
    backing: &mut Backing,
    alloc: Global,
    made: DriveMake,
    format: u8,
) -> Result<(), Memory>
    requires stands { Stands made backing.old }
    requires awake { is_resting backing.old ≡ false }
    ensures ok { OnOk result (state_in made backing.new ≡ raised (state_in made backing.old) format) }
    ensures stands { Stands made backing.new }
    ensures err { OnErr result (StaysOr made (raised (state_in made backing.old) format)
        (state_in made backing.old) (state_in made backing.new)) }
{
    if least_format(backing, made) >= format {
        return Ok(());
    }
    if format == SECOND_FORMAT {
        return raise_second(backing, alloc, made);
    }
    raise_alone(backing, alloc, made, format);
    Ok(())
}

/// The drive has no objects any more, and no store.
///
/// # Errors
///
/// Want of memory alone; then nothing changes.
pub(crate) fn empty(backing: &mut Backing, alloc: Global, made: DriveMake) -> Result<(), Memory>
    requires stands { Stands made backing.old }
    requires awake { is_resting backing.old ≡ false }
    ensures ok { OnOk result (state_in made backing.new ≡ emptied (state_in made backing.old)) }
    ensures stands { Stands made backing.new }
    ensures err { OnErr result (backing.new ≡ backing.old) }
{
    let least = least_format(backing, made);
    let mut core = new_core(alloc, made)?;
    core.raise_least(least);
    *backing = Backing::Volatile { core };
    Ok(())
}
