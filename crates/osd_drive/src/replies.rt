ghost use Rattle.std.specs.Prelude.{◌≡◌};
ghost use Rattle.osd_drive.specs.Effects.{reply_with, refused_reply, kept_reply, format_reply};

use crate::verdict::Verdict;
use osd_commands::{Command, Reply};
use osd_lists::Bytes;
use osd_objects::LaneEntry;
use std::alloc::Global;

/// The verdict's number in the reply to bytes that spell no command.
pub const FORMAT_VERDICT: u16 = 16;

/// The reply to a command that was performed.
pub fn reply_with(c: &Command, detail: u64, payload: Bytes) -> Reply
    ensures { result ≡ reply_with c.now detail payload }
{
    Reply {
        action: c.action.number(),
        verdict: 0,
        object: c.object,
        nonce: c.nonce,
        detail,
        payload,
    }
}

/// The reply to a command that isn't performed.
pub fn refused_reply(alloc: Global, c: &Command, verdict: Verdict) -> Reply
    ensures { result ≡ refused_reply c.now verdict }
{
    Reply {
        action: c.action.number(),
        verdict: verdict.number(),
        object: c.object,
        nonce: c.nonce,
        detail: verdict.detail(),
        payload: Bytes::new(alloc),
    }
}

/// The reply that a lane keeps.
pub fn kept_reply(alloc: Global, c: &Command, lane: Option<LaneEntry>) -> Reply
    ensures { result ≡ kept_reply c.now lane }
{
    match lane {
        Some(lane) => Reply {
            action: lane.action,
            verdict: 0,
            object: c.object,
            nonce: lane.nonce,
            detail: lane.detail,
            payload: Bytes::new(alloc),
        },
        None => refused_reply(alloc, c, Verdict::Again),
    }
}

/// The reply to bytes that spell no command.
pub fn format_reply(alloc: Global) -> Reply
    ensures { result ≡ format_reply }
{
    Reply {
        action: 0,
        verdict: FORMAT_VERDICT,
        object: 0,
        nonce: 0,
        detail: 0,
        payload: Bytes::new(alloc),
    }
}
