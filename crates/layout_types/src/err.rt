ghost use Rattle.std.specs.Prelude.{◌≡◌};

use osd_lists::Memory;
use thiserror::Error;
use xdr_codec::XdrErr;

/// Why bytes spell no structure. `at` is a place in bytes, counted from the first byte of all.
#[derive(Clone, Copy, Debug, PartialEq, Eq, Error)]
pub enum LayoutErr {
    /// An item isn't well formed, for any cause but want of memory.
    #[error("{0}")]
    Xdr(XdrErr),
    /// The number at this place isn't one of its enumeration.
    #[error("the number {value} at byte {at} is none of its enumeration")]
    BadEnum { at: u64, value: u32 },
    /// There was no memory.
    #[error("out of memory")]
    Memory,
}

impl From<XdrErr> for LayoutErr {
    ghost use Rattle.layout_types.specs.Refusals.{of_item};

    ghost from_gives = { λ e l. l ≡ of_item e };

    fn from(e: XdrErr) -> Self {
        match e {
            XdrErr::Memory => LayoutErr::Memory,
            XdrErr::Short { .. }
            | XdrErr::Padding { .. }
            | XdrErr::BadBool { .. }
            | XdrErr::TooMany { .. }
            | XdrErr::Trailing { .. } => LayoutErr::Xdr(e),
        }
    }
}

impl From<Memory> for LayoutErr {
    ghost use Rattle.layout_types.specs.declared.err.LayoutErr.TheVariants.{Memory};

    ghost from_gives = { λ _ l. l ≡ Memory };

    fn from(_: Memory) -> Self {
        LayoutErr::Memory
    }
}
