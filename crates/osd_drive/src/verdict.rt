ghost use Rattle.std.specs.Prelude.{◌≡◌};
ghost use Rattle.osd_drive.specs.Effects.{verdict_number, detail_of};

/// What a drive says to a command: that it performs it, or the first reason not to.
#[derive(Clone, Copy, PartialEq, Eq)]
pub enum Verdict {
    /// Nothing stands against it.
    Perform,
    /// The capability's format is less than the least that the drive takes.
    OldFormat,
    /// The drive has no key of the capability's version.
    NoKey,
    /// The check value is another than the one that the key gives.
    CheckValue,
    /// The drive's clock is past the capability's expiry.
    Expired,
    /// The capability lacks the right, or a SET ATTR names an attribute that is no user's.
    Rights,
    /// The capability is for another object, or the partition is another drive's.
    WrongObject,
    /// The range isn't inside the capability's.
    Range,
    /// There is no such object.
    NoObject,
    /// There is such an object, and the command would make it.
    Exists,
    /// The object has another tag, this one, than the capability.
    Tag { current: u32 },
    /// A length, the end of a range, a value, the tag or the number of objects would pass its limit.
    Limit,
    /// The object would get longer by more than these bytes, which are free.
    NoSpace { free: u64 },
    /// All lanes are other holders'.
    LaneFull,
    /// The holder's lane has a greater nonce, this one.
    Stale { last: u64 },
    /// The object has as many attributes as it may.
    AttrFull,
    /// The holder's lane has this nonce: the change was made, and its reply is given again.
    Again,
}

impl Verdict {
    /// The number of the verdict in a reply.
    pub fn number(self) -> u16
        ensures { result ≡ verdict_number self }
    {
        match self {
            Verdict::Perform => 0,
            Verdict::NoKey => 1,
            Verdict::CheckValue => 2,
            Verdict::Expired => 3,
            Verdict::Rights => 4,
            Verdict::WrongObject => 5,
            Verdict::Range => 6,
            Verdict::NoObject => 7,
            Verdict::Exists => 8,
            Verdict::Tag { .. } => 9,
            Verdict::Limit => 10,
            Verdict::NoSpace { .. } => 11,
            Verdict::LaneFull => 12,
            Verdict::Stale { .. } => 13,
            Verdict::AttrFull => 14,
            Verdict::Again => 15,
            Verdict::OldFormat => 17,
        }
    }

    /// The detail of the reply to a command that isn't performed.
    pub fn detail(self) -> u64
        ensures { result ≡ detail_of self }
    {
        match self {
            Verdict::Tag { current } => u64::from(current),
            Verdict::NoSpace { free } => free,
            Verdict::Stale { last } => last,
            _ => 0,
        }
    }
}
