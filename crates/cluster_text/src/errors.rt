ghost use Rattle.std.specs.Prelude.{◌≡◌};
ghost use Rattle.cluster_text.specs.Kinds.{word_of};

use osd_lists::Memory;
use thiserror::Error;

/// What is wrong with a cluster text; of several kinds the first in this order.
#[derive(Clone, Copy, Debug, PartialEq, Eq, Error)]
pub enum ClusterKind {
    /// It is no TOML document.
    #[error("no TOML document")]
    Toml,
    /// A table has a key that isn't one of its own.
    #[error("an unknown key")]
    Unknown,
    /// A key is missing, or the drive that reads the text.
    #[error("a missing key or drive")]
    Missing,
    /// A value is of another type than its key asks for.
    #[error("a value of another type")]
    WrongType,
    /// A number or a text isn't in its range, or a map can't be used with these drives.
    #[error("a value out of its range")]
    Range,
    /// Two drives have one number or one address, or two files one number.
    #[error("a number or an address that stands twice")]
    Repeated,
}

impl ClusterKind {
    /// The word of an error line for the kind.
    pub fn word(self) -> &'static str
        ensures { result.now ≡ word_of self }
    {
        match self {
            ClusterKind::Toml => "toml",
            ClusterKind::Unknown => "unknown",
            ClusterKind::Missing => "missing",
            ClusterKind::WrongType => "type",
            ClusterKind::Range => "range",
            ClusterKind::Repeated => "repeated",
        }
    }
}

/// Why a cluster text wasn't read.
#[derive(Clone, Copy, Debug, PartialEq, Eq, Error)]
pub enum ClusterErr {
    /// The text is refused.
    #[error("the cluster text is refused")]
    Refused(ClusterKind),
    /// There was no memory.
    #[error("out of memory")]
    Memory,
}

impl From<Memory> for ClusterErr {
    ghost use Rattle.cluster_text.specs.declared.errors.ClusterErr.TheVariants.{Memory};

    ghost from_gives = { λ _ e. e ≡ Memory };

    fn from(_: Memory) -> Self {
        ClusterErr::Memory
    }
}
