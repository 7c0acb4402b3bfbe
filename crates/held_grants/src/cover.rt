// Which calls a grant is for.
ghost use Rattle.std.specs.Prelude.{◌≡◌, ◌&&◌, ◌||◌, ◌==◌, nat_le, ◌+◌};
ghost use Rattle.client_rules.specs.Grants.{clipped, contains, covers_write, covers_read, is_for, covers};
ghost use Rattle.held_grants.specs.Ranges.{IsInFile, AsksInFile};

use crate::calls::clipped;
use client_rules::{CallOp, Held, MAX_COUNT, Reach, is_write, span_of};
use stripe_plan::Span;

// Whether the range is inside the grant's bytes.
fn contains(reach: &Reach, range: Span) -> bool
    requires { IsInFile range }
    ensures { result ≡ contains reach.now range }
{
    reach.first <= range.offset && range.offset + range.length <= reach.end
}

// Whether the grant is for writing the range.
#[tactic(auto, unfolding(client_rules::specs::Grants::covers_write))]
fn covers_write(reach: &Reach, size: u64, range: Span) -> bool
    requires { IsInFile range }
    ensures { result ≡ covers_write reach.now size range }
{
    reach.rw && contains(reach, range) && (reach.extending || range.offset + range.length <= size)
}

// Whether the grant is for reading what the range has below the size.
#[tactic(auto, unfolding(client_rules::specs::Grants::covers_read))]
fn covers_read(reach: &Reach, size: u64, range: Span) -> bool
    requires { IsInFile range }
    ensures { result ≡ covers_read reach.now size range }
{
    let below = clipped(size, range);
    below.length == 0 || contains(reach, below)
}

/// Whether a grant of these bytes is for a call, where the file has that size. The call's range ends at most at
/// [`MAX_FILE_SIZE`](data_map::MAX_FILE_SIZE).
#[tactic(auto, unfolding(client_rules::specs::Grants::is_for))]
pub fn is_for(reach: &Reach, size: u64, op: &CallOp) -> bool
    requires { AsksInFile op.now }
    ensures { result ≡ is_for reach.now size op.now }
{
    if is_write(op) {
        covers_write(reach, size, span_of(op))
    } else {
        covers_read(reach, size, span_of(op))
    }
}

/// Whether a held grant covers a call: one under which more than [`MAX_COUNT`] commands were sent covers none. The
/// call's range ends at most at [`MAX_FILE_SIZE`](data_map::MAX_FILE_SIZE).
#[tactic(auto, unfolding(client_rules::specs::Grants::covers))]
pub fn covers(held: &Held, op: &CallOp) -> bool
    requires { AsksInFile op.now }
    ensures { result ≡ covers held.now op.now }
{
    held.count <= MAX_COUNT && is_for(&held.reach, held.size, op)
}
