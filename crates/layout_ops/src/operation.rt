ghost use Rattle.std.specs.Prelude.{◌≡◌, ◌<◌, ◌^◌};
ghost use Rattle.layout_ops.specs.Enumerations.{operation_number, operation_of};
ghost use Rattle.layout_ops.specs.Grammar.{Gives, operation_in};

use crate::err::OpErr;
use crate::parts::read_u32;
use xdr_codec::Reader;

/// An operation that a client asks of the server (`nfs_opnum4`, RFC 5661 16.2.1).
#[derive(Clone, Copy, PartialEq, Eq)]
pub enum Operation {
    /// 49: the client commits what it wrote (RFC 5661 18.42).
    LayoutCommit,
    /// 50: the client asks for a layout (RFC 5661 18.43).
    LayoutGet,
    /// 51: the client gives layouts back (RFC 5661 18.44).
    LayoutReturn,
}

impl Operation {
    /// The number of the operation.
    pub fn number(self) -> u32
        ensures number { result ≡ operation_number self }
        ensures fits { result < 2 ^ 32 }
    {
        match self {
            Operation::LayoutCommit => 49,
            Operation::LayoutGet => 50,
            Operation::LayoutReturn => 51,
        }
    }

    /// The operation of a number, where there is one.
    pub fn from_number(number: u32) -> Option<Operation>
        ensures { result ≡ operation_of number }
    {
        match number {
            49 => Some(Operation::LayoutCommit),
            50 => Some(Operation::LayoutGet),
            51 => Some(Operation::LayoutReturn),
            _ => None,
        }
    }
}

#[tactic(auto, unfolding(crate::specs::Grammar::operation_in))]
pub(crate) fn read_operation(reader: &mut Reader<'_>) -> Result<Operation, OpErr>
    ensures { Gives (operation_in reader.old) result reader.new }
{
    let op = read_u32(reader)?;
    match Operation::from_number(op) {
        Some(operation) => Ok(operation),
        None => Err(OpErr::UnknownOp { op }),
    }
}
