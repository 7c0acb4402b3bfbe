ghost use Rattle.std.specs.Prelude.{◌≡◌, ◌<◌, SomeIff};

use std::marker::Model;

/// The number of drives that a scenario can name.
pub const DRIVES: u32 = 64;

/// The number of clients that a scenario can name.
pub const CLIENTS: u32 = 16;

/// The number of files that a scenario can name.
pub const FILES: u32 = 64;

/// A name of one of `COUNT` things: a letter and a number, which contracts see as the number.
#[derive(Clone, Copy, PartialEq, Eq)]
pub struct Name<const LETTER: u8, const COUNT: u32> {
    number: u32,
}

/// The name of a drive, `d0` to `d63`.
pub type DriveName = Name<b'd', DRIVES>;

/// The name of a client, `c0` to `c15`.
pub type ClientName = Name<b'c', CLIENTS>;

/// The name of a file, `f0` to `f63`.
pub type FileName = Name<b'f', FILES>;

impl<const LETTER: u8, const COUNT: u32> Model for Name<LETTER, COUNT> {
    ghost use Rattle.std.specs.Prelude.{ℕ, ◌<◌};

    ghost Value = { ℕ };

    ghost view = { λ name. name.number };

    ghost invariant = { λ name. name.number < COUNT };

    ghost inverse = { λ number. record { number = number } };
}

impl<const LETTER: u8, const COUNT: u32> Name<LETTER, COUNT> {
    /// The name with that number, or `None` where it isn't below `COUNT`.
    pub fn new(number: u32) -> Option<Self>
        ensures { SomeIff result (number < COUNT) number }
    {
        if number < COUNT {
            Some(Name { number })
        } else {
            None
        }
    }

    /// The number, below `COUNT`.
    pub fn number(&self) -> u32
        ensures number { result ≡ self.now }
        ensures range { result < COUNT }
    {
        self.number
    }
}
