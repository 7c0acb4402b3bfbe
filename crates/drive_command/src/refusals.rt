// What a drive tells whoever watches it of the commands that it refuses.
ghost use Rattle.std.specs.Prelude.{◌≡◌, IfOk, string_bytes};
ghost use Rattle.drive_command.specs.Refusals.{is_later, is_told, refusal_line, verdict_word};

use osd_commands::Reply;
use osd_lists::Memory;
use std::alloc::Global;

// The word of a verdict, by its number in a reply.
#[tactic(auto, unfolding(crate::specs::Refusals::verdict_word))]
fn verdict_word(number: u16) -> &'static str
    ensures { result.now ≡ verdict_word number }
{
    match number {
        1 => "nokey",
        2 => "checkvalue",
        3 => "expired",
        4 => "rights",
        5 => "wrongobject",
        6 => "range",
        7 => "noobject",
        8 => "exists",
        9 => "tag",
        10 => "limit",
        11 => "nospace",
        12 => "lanefull",
        13 => "stale",
        14 => "attrfull",
        15 => "again",
        16 => "format",
        17 => "oldformat",
        _ => "perform",
    }
}

/// The line that tells of a refusal, without its end.
pub fn refusal_line(alloc: Global, drive: u32, reply: &Reply) -> Result<String, Memory>
    ensures { IfOk result (λ line. string_bytes line ≡ refusal_line drive reply.now) }
{
    let word = verdict_word(reply.verdict);
    let detail = reply.detail;
    let object = reply.object;
    let nonce = reply.nonce;
    Ok(format!(in alloc;
        "drive {drive} refused: {word} (detail {detail}, object {object}, nonce {nonce})"
    )?)
}

// Whether a time is in a later second than the newest line. It is if there was no line.
fn is_later(last: Option<u64>, time: u64) -> bool
    ensures { result ≡ is_later last time }
{
    match last {
        Some(last) => last < time,
        None => true,
    }
}

/// Whether a reply at this time is told of: it refuses its command, and no line was told in this second or a later one.
/// `last` is the second of the newest line.
pub fn is_told(last: Option<u64>, time: u64, reply: &Reply) -> bool
    ensures { result ≡ is_told last time reply.now }
{
    reply.verdict != 0 && is_later(last, time)
}
