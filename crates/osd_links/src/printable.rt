ghost use Rattle.std.specs.Prelude.{◌≡◌};

use std::fmt;
use std::fmt::{Display, Formatter, Write};

/// Bytes as a person can read them: those of printable ASCII as they are, each other one as `\xNN`.
#[derive(Clone, Copy)]
pub struct Printable<'a> {
    bytes: &'a [u8],
}

impl<'a> Printable<'a> {
    /// The bytes, to be shown.
    pub fn new(bytes: &'a [u8]) -> Self
        ensures { result.bytes.now ≡ bytes.now }
    {
        Printable { bytes }
    }
}

impl<'a> Display for Printable<'a> {
    fn fmt<W: Write>(&self, f: &mut Formatter<W>) -> fmt::Result {
        for byte in self.bytes {
            if byte.is_ascii_graphic() || *byte == b' ' {
                f.write_char(char::from(*byte))?;
            } else {
                write!(f, "\\x{:02x}", byte)?;
            }
        }
        Ok(())
    }
}
