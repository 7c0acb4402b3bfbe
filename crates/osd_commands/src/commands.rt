ghost use Rattle.std.specs.Prelude.{◌≡◌, ◌≤◌, ◌<◌, ◌++◌, drop, length, slice_range, replicate, IfOk, IfSome, Ok};
ghost use Rattle.std.specs.Int.{w64, from_be_bytes};
ghost use Rattle.osd_capability.specs.Layout.{spelling as capability_bytes};
ghost use Rattle.osd_commands.specs.declared.commands.Command.{Command as Cmd};
ghost use Rattle.osd_commands.specs.Commands.{fields, spelling, reading, stray, allows, is_sized, sized, command_at, check_at, check_len, with_payload, with_payload_in, NumbersFit, Fits, IsWhole, ReadsAs, BeginsNoOther};

use crate::actions::Action;
use osd_capability::{CHECK_BYTES, CapErr, Capability, FORMAT_SHA256, SHA1_TAG_BYTES};
use osd_lists::{
    Bytes, Memory, first_nonzero_in, put_at, put_u16, put_u32, put_u64, u16_at, u32_at, u64_at,
};
use std::alloc::Global;
use thiserror::Error;

/// `OSD2`.
const MAGIC: u32 = 0x4f53_4432;

/// The bytes of a command before its payload.
pub const BLOCK: usize = 256;

// The bytes before the capability.
const FIELDS: usize = 64;

// Where the capability ends.
const CAPABILITY_END: usize = 160;

// The bytes from there on: zeros, and the check value.
const TAIL: usize = 96;

// The most bytes before the check value: those of format 1.
const HEAD: usize = 236;

/// What a holder of a capability asks of a drive.
///
/// | place | size | field |
/// |---|---|---|
/// | 0 | 4 | `OSD2` |
/// | 4 | 2 | action |
/// | 8 | 8 | partition |
/// | 16 | 8 | object |
/// | 24 | 8 | offset |
/// | 32 | 8 | length |
/// | 40 | 8 | nonce |
/// | 48 | 4 | attribute |
/// | 56 | 4 | length of the payload |
/// | 64 | 96 | capability |
/// | 236, in format 2 224 | 20, in format 2 32 | check value |
/// | 256 | | payload |
///
/// The bytes between are 0. The payload of a WRITE has `length` bytes. A CREATE and a SET ATTR have
/// one of any length, and `length` 0. The others have none.
#[derive(Drop, PartialEq)]
pub struct Command {
    pub action: Action,
    /// The partition of the object.
    pub partition: u64,
    /// The number of the object.
    pub object: u64,
    /// The first byte to read or write. It means nothing in other actions.
    pub offset: u64,
    /// How many bytes to read or write.
    pub length: u64,
    /// A number by which a reply is known, and in order of which a holder's changes are made.
    pub nonce: u64,
    /// The number of the attribute to get or set. It means nothing in other actions.
    pub attribute: u32,
    pub capability: Capability,
    /// The bytes to write, the value of the attribute, or the label of a new object.
    pub payload: Bytes,
    /// The check value. In format 1 it has 20 bytes, and the last 12 of the 32 are 0.
    pub check: [u8; CHECK_BYTES],
}

/// The block of a command: all of it but its payload, as [`Command`] has it.
#[derive(Clone, Copy)]
pub struct CommandBlock {
    pub action: Action,
    pub partition: u64,
    pub object: u64,
    pub offset: u64,
    pub length: u64,
    pub nonce: u64,
    pub attribute: u32,
    pub capability: Capability,
    pub check: [u8; CHECK_BYTES],
}

/// Why bytes spell no command, or no reply. The first that applies is given, in this order.
#[derive(Clone, Copy, Debug, PartialEq, Eq, Error)]
pub enum CommandErr {
    /// The bytes end inside the block.
    #[error("the bytes end inside the block")]
    Short,
    /// The first four bytes are others.
    #[error("the first four bytes are others")]
    Magic,
    /// There is no action, or in a reply no verdict, of this number.
    #[error("{value} is no action and no verdict")]
    BadAction { value: u16 },
    /// The byte at this place, the first such, must be 0 and isn't.
    #[error("byte {at} is reserved")]
    Reserved { at: u32 },
    /// The capability is none.
    #[error("the capability is none")]
    BadCapability(CapErr),
    /// The payload, of this many bytes, isn't as long as is stated or the action allows.
    #[error("the payload has {bytes} bytes")]
    Length { bytes: u64 },
    /// There is no memory for the payload.
    #[error("no memory for the payload")]
    Memory,
}

impl From<CapErr> for CommandErr {
    ghost use Rattle.osd_commands.specs.declared.commands.CommandErr.TheVariants.{BadCapability};

    ghost from_gives = { λ cause e. e ≡ BadCapability cause };

    fn from(cause: CapErr) -> Self {
        CommandErr::BadCapability(cause)
    }
}

impl From<Memory> for CommandErr {
    ghost use Rattle.osd_commands.specs.declared.commands.CommandErr.TheVariants.{Memory};

    ghost from_gives = { λ _ e. e ≡ Memory };

    fn from(_: osd_lists::Memory) -> Self {
        CommandErr::Memory
    }
}

/// How many bytes the check value has in a format. An unknown format is taken as 1.
pub fn check_len(format: u8) -> usize
    ensures { result ≡ check_len format }
{
    if format == FORMAT_SHA256 {
        CHECK_BYTES
    } else {
        SHA1_TAG_BYTES
    }
}

// The block before the capability, with each field at its place in the table of [`Command`], which `docs/rules/DRIVE.md`
// ("The bytes of commands and replies") has too.
#[tactic(auto, unfolding(crate::specs::Commands::fields))]
fn fields_of(c: &Command) -> [u8; FIELDS]
    ensures written { result ≡ fields c.now }
    ensures fits { NumbersFit c.now }
{
    let mut out = [0u8; FIELDS];
    put_u32(&mut out, 0, MAGIC);
    put_u16(&mut out, 4, c.action.number());
    put_u64(&mut out, 8, c.partition);
    put_u64(&mut out, 16, c.object);
    put_u64(&mut out, 24, c.offset);
    put_u64(&mut out, 32, c.length);
    put_u64(&mut out, 40, c.nonce);
    put_u32(&mut out, 48, c.attribute);
    // The low four bytes: no command has a payload of 2^32 bytes or more.
    put_at(&mut out, 56, &c.payload.len().to_be_bytes()[4..]);
    out
}

/// The block before the check value, and zeros to 236 bytes.
pub fn head_of(c: &Command) -> [u8; HEAD]
    ensures written { result ≡ fields c.now ++ (capability_bytes c.now.capability ++ replicate 76 0) }
    ensures fits { IsWhole c.now → Fits c.now }
{
    let mut out = [0u8; HEAD];
    put_at(&mut out, 0, &fields_of(c));
    put_at(&mut out, FIELDS, &c.capability.to_bytes());
    out
}

/// The one spelling of a command.
///
/// It is read back where the command keeps what its type doesn't: format 1 or 2, a payload that the
/// action allows and that has less than 2^32 bytes, and zeros behind a check value of format 1.
pub fn write_command(alloc: Global, c: &Command) -> Result<Bytes, Memory>
    ensures spelled { IfOk result (λ bytes. bytes ≡ spelling c.now) }
    ensures read_back { IfOk result (λ bytes. IsWhole c.now → reading bytes ≡ Ok c.now) }
{
    let size = check_len(c.capability.format);
    let mut bytes = Bytes::with_capacity(alloc, BLOCK.saturating_add(c.payload.len()))?;
    bytes.extend_from_slice(&head_of(c)[..BLOCK - size])?;
    bytes.extend_from_slice(&c.check[..size])?;
    bytes.extend_from_slice(c.payload.as_slice())?;
    Ok(bytes)
}

// The first place that must be 0 and isn't.
#[tactic(auto, unfolding(crate::specs::Commands::stray))]
fn stray_in(bytes: &[u8]) -> Option<usize>
    requires { BLOCK ≤ length bytes.now }
    ensures found { result ≡ stray bytes.now }
    ensures bound { IfSome result (λ at. at < BLOCK) }
{
    first_nonzero_in(bytes, 6, 8)
        .or(first_nonzero_in(bytes, 52, 56))
        .or(first_nonzero_in(bytes, 60, FIELDS))
        .or(first_nonzero_in(bytes, CAPABILITY_END, BLOCK - check_len(bytes[FIELDS])))
}

// Whether an action may have a payload of this length.
fn allows_payload(action: Action, length: u64, payload: u64) -> bool
    ensures { result ≡ allows action length payload }
{
    match action {
        Action::Create | Action::SetAttr => length == 0,
        Action::Write => payload == length,
        Action::Read | Action::GetAttr | Action::SetTag => payload == 0,
    }
}

// Whether a payload is as long as is stated and the action allows.
fn is_sized(bytes: &[u8], action: Action, payload: u64) -> bool
    requires { BLOCK ≤ length bytes.now }
    ensures { result ≡ is_sized bytes.now action (from_be_bytes w64 (slice_range bytes.now 32 40)) payload }
{
    u64::from(u32_at(bytes, 56)) == payload && allows_payload(action, u64_at(bytes, 32), payload)
}

// The check value of a block, with zeros to 32 bytes.
fn check_at(bytes: &[u8], format: u8) -> [u8; CHECK_BYTES]
    requires { BLOCK ≤ length bytes.now }
    ensures { result ≡ check_at bytes.now format }
{
    let size = check_len(format);
    let mut check = [0u8; CHECK_BYTES];
    check[..size].copy_from_slice(&bytes[BLOCK - size..BLOCK]);
    check
}

// The block, if the payload has the right length, by the places of the table of [`Command`].
#[tactic(auto, unfolding(crate::specs::Commands::command_at))]
fn sized_block(
    bytes: &[u8],
    action: Action,
    capability: Capability,
) -> Result<CommandBlock, CommandErr>
    requires { BLOCK ≤ length bytes.now }
    ensures { sized bytes.now (command_at action capability bytes.now) ≡ with_payload_in (drop BLOCK bytes.now) result }
{
    let (_, payload) = bytes.split_at(BLOCK);
    let size = payload.len() as u64;
    if !is_sized(bytes, action, size) {
        return Err(CommandErr::Length { bytes: size });
    }
    Ok(CommandBlock {
        action,
        partition: u64_at(bytes, 8),
        object: u64_at(bytes, 16),
        offset: u64_at(bytes, 24),
        length: u64_at(bytes, 32),
        nonce: u64_at(bytes, 40),
        attribute: u32_at(bytes, 48),
        capability,
        check: check_at(bytes, capability.format),
    })
}

/// The block of the command that the bytes spell: the rest of them is the payload, which isn't copied. It takes no memory.
///
/// # Errors
///
/// As those of [`read_command`], but for `Memory`.
#[tactic(auto, unfolding(crate::specs::Commands::reading))]
pub fn read_block(bytes: &[u8]) -> Result<CommandBlock, CommandErr>
    ensures long { IfOk result (λ _. BLOCK ≤ length bytes.now) }
    ensures exact { reading bytes.now ≡ with_payload_in (drop BLOCK bytes.now) result }
{
    if bytes.len() < BLOCK {
        return Err(CommandErr::Short);
    }
    if u32_at(bytes, 0) != MAGIC {
        return Err(CommandErr::Magic);
    }
    let value = u16_at(bytes, 4);
    let Some(action) = Action::from_number(value) else {
        return Err(CommandErr::BadAction { value });
    };
    if let Some(at) = stray_in(bytes) {
        return Err(CommandErr::Reserved { at: at as u32 });
    }
    let capability = Capability::from_bytes(&bytes[FIELDS..CAPABILITY_END])?;
    sized_block(bytes, action, capability)
}

// A command of its block and its payload.
fn with_payload(block: &CommandBlock, payload: Bytes) -> Command
    ensures { result ≡ with_payload block.now payload }
{
    Command {
        action: block.action,
        partition: block.partition,
        object: block.object,
        offset: block.offset,
        length: block.length,
        nonce: block.nonce,
        attribute: block.attribute,
        capability: block.capability,
        payload,
        check: block.check,
    }
}

// The command, or the first refusal.
fn read(alloc: Global, bytes: &[u8]) -> Result<Command, CommandErr>
    ensures { ReadsAs result (reading bytes.now) }
{
    match read_block(bytes) {
        Ok(block) => {
            let (_, payload) = bytes.split_at(BLOCK);
            Ok(with_payload(&block, Bytes::copied(alloc, payload)?))
        }
        Err(refusal) => Err(refusal),
    }
}

/// The command that the bytes spell.
///
/// # Errors
///
/// The first of [`CommandErr`] that applies, in its order. A byte that must be 0 in format 1 alone
/// is judged as in format 1 where the capability's format is unknown.
pub fn read_command(alloc: Global, bytes: &[u8]) -> Result<Command, CommandErr>
    // What is read is spelled so.
    ensures found { IfOk result (λ c. Fits c × (bytes.now ≡ spelling c)) }
    // What is spelled so is read.
    ensures only { (c : Cmd) → Fits c → bytes.now ≡ spelling c → ReadsAs result (Ok c) }
    // No command's bytes begin another's.
    ensures alone { IfOk result (λ _. BeginsNoOther bytes.now) }
    // Which refusal it is.
    ensures exact { ReadsAs result (reading bytes.now) }
{
    read(alloc, bytes)
}
