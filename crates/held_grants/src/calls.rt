// What a call asks.
ghost use Rattle.std.specs.Prelude.{◌≡◌};
ghost use Rattle.client_rules.specs.Calls.{file_of, span_of};
ghost use Rattle.client_rules.specs.Grants.{clipped};
ghost use Rattle.client_rules.specs.Requests.{asked_span};
ghost use Rattle.held_grants.specs.Ranges.{IsInFile, AsksInFile};

use client_rules::{CallOp, span_of};
use data_map::MAX_FILE_SIZE;
use stripe_plan::Span;

/// The file of a call.
pub fn file_of(op: &CallOp) -> u32
    ensures { result ≡ file_of op.now }
{
    match op {
        CallOp::Write { file, .. } => *file,
        CallOp::Read { file, .. } => *file,
    }
}

/// A range as far as it lies below a size. The range ends at most at [`MAX_FILE_SIZE`].
pub fn clipped(size: u64, range: Span) -> Span
    requires { IsInFile range }
    ensures value { result ≡ clipped size range }
    ensures inside { IsInFile result }
{
    let end = (range.offset + range.length).min(size);
    Span {
        offset: range.offset,
        length: end.saturating_sub(range.offset),
    }
}

/// The range of the LAYOUTGET of a call (RFC 5661 18.43): at least one byte, and inside the greatest file. The
/// call's range ends at most at [`MAX_FILE_SIZE`].
pub fn asked_span(op: &CallOp) -> Span
    requires { AsksInFile op.now }
    ensures value { result ≡ asked_span op.now }
    ensures inside { IsInFile result }
{
    let range = span_of(op);
    Span {
        offset: range.offset.min(MAX_FILE_SIZE - 1),
        length: range.length.max(1),
    }
}
