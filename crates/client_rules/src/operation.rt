// What a call asks, read off it.
ghost use Rattle.std.specs.Prelude.{◌≡◌};
ghost use Rattle.client_rules.specs.Calls.{span_of, is_write};

use crate::calls::CallOp;
use stripe_plan::Span;

/// The range of a call, in bytes of its file.
pub fn span_of(op: &CallOp) -> Span
    ensures { result ≡ span_of op.now }
{
    match op {
        CallOp::Write { offset, bytes, .. } => Span {
            offset: *offset,
            length: bytes.len() as u64,
        },
        CallOp::Read { offset, length, .. } => Span {
            offset: *offset,
            length: *length,
        },
    }
}

/// Whether a call writes.
pub fn is_write(op: &CallOp) -> bool
    ensures { result ≡ is_write op.now }
{
    match op {
        CallOp::Write { .. } => true,
        CallOp::Read { .. } => false,
    }
}
