ghost use Rattle.std.specs.Prelude.{◌≡◌};

use layout_types::LayoutErr;
use osd_lists::Memory;
use thiserror::Error;
use xdr_codec::XdrErr;

/// Why bytes spell no message.
#[derive(Clone, Copy, Debug, PartialEq, Eq, Error)]
pub enum OpErr {
    /// An item isn't well formed, or a number is none of its enumeration, for any cause but want of
    /// memory. Its place counts from the first byte of the message.
    #[error("{0}")]
    Layout(LayoutErr),
    /// A message of its kind can't carry the operation of this number.
    #[error("operation {op} can't stand here")]
    UnknownOp { op: u32 },
    /// The layout type is another than that of object-based storage,
    /// [`LAYOUT4_OSD2_OBJECTS`](crate::LAYOUT4_OSD2_OBJECTS).
    #[error("the layout type {value} isn't that of object-based storage")]
    WrongLayoutType { value: u32 },
    /// The return or the recall is of another kind than of one file's layouts, which is 1.
    #[error("the return or the recall is of the kind {value}, and not of a file")]
    WrongReturn { value: u32 },
    /// There was no memory.
    #[error("out of memory")]
    Memory,
}

impl From<LayoutErr> for OpErr {
    ghost use Rattle.layout_ops.specs.Refusals.{of_layout};

    ghost from_gives = { λ e o. o ≡ of_layout e };

    fn from(e: LayoutErr) -> Self {
        match e {
            LayoutErr::Memory => OpErr::Memory,
            LayoutErr::Xdr(_) | LayoutErr::BadEnum { .. } => OpErr::Layout(e),
        }
    }
}

impl From<XdrErr> for OpErr {
    ghost use Rattle.layout_types.specs.Refusals.{of_item};
    ghost use Rattle.layout_ops.specs.Refusals.{of_layout};

    ghost from_gives = { λ e o. o ≡ of_layout (of_item e) };

    fn from(e: XdrErr) -> Self {
        OpErr::from(LayoutErr::from(e))
    }
}

impl From<Memory> for OpErr {
    ghost use Rattle.layout_ops.specs.declared.err.OpErr.TheVariants.{Memory};

    ghost from_gives = { λ _ o. o ≡ Memory };

    fn from(_: Memory) -> Self {
        OpErr::Memory
    }
}
