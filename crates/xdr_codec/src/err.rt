ghost use Rattle.std.specs.Prelude.{◌≡◌};

use osd_lists::Memory;
use thiserror::Error;

/// Why an item couldn't be read. `at` is a place in bytes, counted from the first byte of all.
#[derive(Clone, Copy, Debug, PartialEq, Eq, Error)]
pub enum XdrErr {
    /// The item that begins at this place passes the end.
    #[error("the item at byte {at} passes the end")]
    Short { at: u64 },
    /// The padding byte at this place, the first such, isn't 0.
    #[error("the padding at byte {at} isn't zero")]
    Padding { at: u64 },
    /// The bool at this place is neither 0 nor 1.
    #[error("the bool at byte {at} is neither 0 nor 1")]
    BadBool { at: u64 },
    /// The length or the count at this place is above the largest one.
    #[error("the length at byte {at} is too large")]
    TooMany { at: u64 },
    /// Bytes follow from this place on.
    #[error("bytes follow at byte {at}")]
    Trailing { at: u64 },
    /// There was no memory.
    #[error("out of memory")]
    Memory,
}

impl From<Memory> for XdrErr {
    ghost use Rattle.xdr_codec.specs.declared.err.XdrErr.TheVariants.{Memory};

    ghost from_gives = { λ _ e. e ≡ Memory };

    fn from(_: Memory) -> Self {
        XdrErr::Memory
    }
}
