ghost use Rattle.std.specs.Prelude.{◌≡◌, ◌≤◌, length, IfOk, Ok};
ghost use Rattle.osd_commands.specs.declared.replies.Reply.{Reply as Rep};
ghost use Rattle.osd_commands.specs.Commands.{ReadsAs};
ghost use Rattle.osd_commands.specs.Replies.{fields, spelling, reading, sized, reply_at, allows, is_sized, is_verdict, Fits, NumbersFit, IsWhole, BeginsNoOther};

use crate::actions::Action;
use crate::commands::CommandErr;
use osd_lists::{
    Bytes, Memory, first_nonzero_in, put_at, put_u16, put_u32, put_u64, u16_at, u32_at, u64_at,
};
use std::alloc::Global;

/// `OSDr`.
const MAGIC: u32 = 0x4f53_4472;

/// The bytes of a reply before its payload.
const BLOCK: usize = 40;

// The highest number of an action.
const LAST_ACTION: u16 = 6;

// The highest number of a verdict.
const LAST_VERDICT: u16 = 17;

// The verdict of a command that was performed before, which no reply has.
const PERFORMED_BEFORE: u16 = 15;

/// What a drive answers to a command.
///
/// | place | size | field |
/// |---|---|---|
/// | 0 | 4 | `OSDr` |
/// | 4 | 2 | action |
/// | 6 | 2 | verdict |
/// | 8 | 8 | object |
/// | 16 | 8 | nonce |
/// | 24 | 8 | detail |
/// | 32 | 4 | length of the payload |
/// | 36 | 4 | 0 |
/// | 40 | | payload |
#[derive(Drop, PartialEq)]
pub struct Reply {
    /// The number of the command's action, or 0 where the bytes spelled no command.
    pub action: u16,
    /// The number of the verdict: 0 where the command was performed. A command that was performed
    /// before is answered by its kept reply, so there is no 15.
    pub verdict: u16,
    /// The number of the object, or 0 where the bytes spelled no command.
    pub object: u64,
    /// The nonce of the command, or 0 where the bytes spelled none.
    pub nonce: u64,
    /// A number that depends on the action and the verdict.
    pub detail: u64,
    /// The bytes that a READ or GET ATTR got, and none in any other reply.
    pub payload: Bytes,
}

// The block before the payload, with each field at its place in the table of [`Reply`], which `docs/rules/DRIVE.md`
// ("The bytes of commands and replies") has too.
#[tactic(auto, unfolding(crate::specs::Replies::fields))]
fn fields_of(r: &Reply) -> [u8; BLOCK]
    ensures written { result ≡ fields r.now }
    ensures fits { NumbersFit r.now }
{
    let mut out = [0u8; BLOCK];
    put_u32(&mut out, 0, MAGIC);
    put_u16(&mut out, 4, r.action);
    put_u16(&mut out, 6, r.verdict);
    put_u64(&mut out, 8, r.object);
    put_u64(&mut out, 16, r.nonce);
    put_u64(&mut out, 24, r.detail);
    // The low four bytes: no reply has a payload of 2^32 bytes or more.
    put_at(&mut out, 32, &r.payload.len().to_be_bytes()[4..]);
    out
}

/// The one spelling of a reply.
///
/// It is read back where the reply keeps what its type doesn't: an action up to 6, a verdict up to
/// 17 that isn't 15, and a payload that such a reply may have, of less than 2^32 bytes.
pub fn write_reply(alloc: Global, r: &Reply) -> Result<Bytes, Memory>
    ensures spelled { IfOk result (λ bytes. bytes ≡ spelling r.now) }
    ensures read_back { IfOk result (λ bytes. IsWhole r.now → reading bytes ≡ Ok r.now) }
{
    let mut bytes = Bytes::with_capacity(alloc, BLOCK.saturating_add(r.payload.len()))?;
    bytes.extend_from_slice(&fields_of(r))?;
    bytes.extend_from_slice(r.payload.as_slice())?;
    Ok(bytes)
}

// Whether a reply may have this verdict.
fn is_verdict_of(verdict: u16) -> bool
    ensures { result ≡ is_verdict verdict }
{
    verdict <= LAST_VERDICT && verdict != PERFORMED_BEFORE
}

// Whether a reply may have a payload of this length.
fn allows_payload(action: u16, verdict: u16, payload: u64) -> bool
    ensures { result ≡ allows action verdict payload }
{
    payload == 0
        || (verdict == 0 && (action == Action::Read.number() || action == Action::GetAttr.number()))
}

// Whether a payload is as long as is stated and the reply allows.
fn is_sized(bytes: &[u8], action: u16, verdict: u16, payload: u64) -> bool
    requires { BLOCK ≤ length bytes.now }
    ensures { result ≡ is_sized bytes.now action verdict payload }
{
    u64::from(u32_at(bytes, 32)) == payload && allows_payload(action, verdict, payload)
}

// The reply, if its payload has the right length, by the places of the table of [`Reply`].
#[tactic(auto, unfolding(crate::specs::Replies::reply_at))]
fn sized_reply(alloc: Global, bytes: &[u8]) -> Result<Reply, CommandErr>
    requires { BLOCK ≤ length bytes.now }
    ensures { ReadsAs result (sized bytes.now (reply_at bytes.now)) }
{
    let (_, payload) = bytes.split_at(BLOCK);
    let size = payload.len() as u64;
    let action = u16_at(bytes, 4);
    let verdict = u16_at(bytes, 6);
    if !is_sized(bytes, action, verdict, size) {
        return Err(CommandErr::Length { bytes: size });
    }
    Ok(Reply {
        action,
        verdict,
        object: u64_at(bytes, 8),
        nonce: u64_at(bytes, 16),
        detail: u64_at(bytes, 24),
        payload: Bytes::copied(alloc, payload)?,
    })
}

// The reply, or the first refusal.
#[tactic(auto, unfolding(crate::specs::Replies::reading))]
fn read(alloc: Global, bytes: &[u8]) -> Result<Reply, CommandErr>
    ensures { ReadsAs result (reading bytes.now) }
{
    if bytes.len() < BLOCK {
        return Err(CommandErr::Short);
    }
    if u32_at(bytes, 0) != MAGIC {
        return Err(CommandErr::Magic);
    }
    let action = u16_at(bytes, 4);
    if action > LAST_ACTION {
        return Err(CommandErr::BadAction { value: action });
    }
    let verdict = u16_at(bytes, 6);
    if !is_verdict_of(verdict) {
        return Err(CommandErr::BadAction { value: verdict });
    }
    if let Some(at) = first_nonzero_in(bytes, 36, BLOCK) {
        return Err(CommandErr::Reserved { at: at as u32 });
    }
    sized_reply(alloc, bytes)
}

/// The reply that the bytes spell.
///
/// # Errors
///
/// The first of [`CommandErr`] that applies, in its order. `BadAction` has the number of the action
/// where that is above 6, else that of the verdict, which is 15 or above 17.
pub fn read_reply(alloc: Global, bytes: &[u8]) -> Result<Reply, CommandErr>
    // What is read is spelled so.
    ensures found { IfOk result (λ r. Fits r × (bytes.now ≡ spelling r)) }
    // What is spelled so is read.
    ensures only { (r : Rep) → Fits r → bytes.now ≡ spelling r → ReadsAs result (Ok r) }
    // No reply's bytes begin another's.
    ensures alone { IfOk result (λ _. BeginsNoOther bytes.now) }
    // Which refusal it is.
    ensures exact { ReadsAs result (reading bytes.now) }
{
    read(alloc, bytes)
}
