// The codes, and why a stripe isn't repaired.
use thiserror::Error;

/// How a stripe's parity is computed.
#[derive(Clone, Copy, PartialEq, Eq)]
pub enum Code {
    /// No parity.
    Plain,
    /// One row of parity, the sum of the data (RAID 4 and 5).
    Xor,
    /// Two rows of parity, P and Q.
    PandQ,
}

impl Code {
    ghost use Rattle.std.specs.Prelude.{◌≡◌};
    ghost use Rattle.parity_code.specs.Codeword.{count_of};

    /// The number of parity rows, 0 to 2, which is also how many lost rows come back.
    pub fn count(&self) -> u32
        ensures { result ≡ count_of self.now }
    {
        match self {
            Code::Plain => 0,
            Code::Xor => 1,
            Code::PandQ => 2,
        }
    }
}

/// Why lost rows don't come back.
#[derive(Clone, Copy, Debug, PartialEq, Eq, Error)]
pub enum CodeErr {
    /// More rows are lost than the code has parity rows: this many.
    #[error("{lost} rows are lost, more than there is parity")]
    TooManyLost { lost: u32 },
}
