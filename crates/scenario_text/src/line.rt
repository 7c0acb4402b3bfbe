use crate::event::Event;
use crate::names::{ClientName, DriveName, FileName};
use osd_lists::{Bytes, Numbers};

/// One end of a message.
#[derive(Clone, Copy, PartialEq, Eq)]
pub enum Party {
    Drive { drive: DriveName },
    Client { client: ClientName },
    Server,
}

/// What a drive makes of a command.
#[derive(Clone, Copy, PartialEq, Eq)]
pub enum Verdict {
    Perform,
    Again,
    NoKey,
    CheckValue,
    Expired,
    Rights,
    WrongObject,
    Range,
    NoObject,
    Exists,
    /// The capability's tag isn't the object's, which is `current`.
    Tag { current: u32 },
    Limit,
    /// The drive has `free` bytes left.
    NoSpace { free: u64 },
    LaneFull,
    /// The lane's last nonce is `last`.
    Stale { last: u64 },
    AttrFull,
    Format,
    OldFormat,
}

/// What became of a delivered message.
#[derive(Clone, Copy, PartialEq, Eq)]
pub enum Delivery {
    /// The receiver is a stopped client or a failed drive.
    Deaf,
    /// A client or the server took it.
    Taken,
    /// A drive judged it.
    Judged { verdict: Verdict },
}

/// What a call does.
#[derive(Clone, Copy, PartialEq, Eq)]
pub enum CallKind {
    Write,
    Read,
}

/// Why a client doesn't use a layout.
#[derive(Clone, Copy, PartialEq, Eq)]
pub enum LayoutFault {
    Unreadable,
    Index,
    Partial,
    Ssv,
    Map,
    Credential,
}

/// How a call ended that didn't do what it was called to do.
#[derive(Drop, PartialEq)]
pub enum Ending {
    NoFile,
    Held { client: ClientName },
    Fencing { component: u32 },
    Degraded { component: u32 },
    Spent,
    /// An answer of the server with another status (RFC 5661 15.1).
    Status { status: u32, detail: u32 },
    Refused { drive: DriveName, verdict: Verdict },
    Silent { component: u32 },
    /// The positions of a stripe that are lost, rising, at least one.
    Lost { positions: Numbers },
    BadLayout { why: LayoutFault },
    /// The call still waits for an answer.
    Pending,
}

/// How a call ended.
#[derive(Drop, PartialEq)]
pub enum Outcome {
    /// A write of `length` bytes is done.
    WriteOk { length: u64 },
    /// A read gave these bytes.
    ReadOk { bytes: Bytes },
    /// The call failed, or still waits.
    Failed { call: CallKind, ending: Ending },
}

/// Why a call was refused.
#[derive(Clone, Copy, PartialEq, Eq)]
pub enum Refusal {
    Busy,
    BadRange,
    SlotSpent,
}

/// Why numbers are no data map.
#[derive(Clone, Copy, PartialEq, Eq)]
pub enum MapFault {
    Unit,
    TooMany,
    TooFew,
    Multiple,
    Width,
    Depth,
}

/// What the server notes on a file.
#[derive(Drop, PartialEq)]
pub enum Note {
    /// Each object of the file was made or its component is missing.
    Ready,
    /// A fence is over, and `tag` is the new tag.
    Fenced {
        tag: u32,
    },
    /// A repair of so many stripes is over, which left `short` of them short.
    Repaired {
        stripes: u64,
        short: u64,
    },
    /// A component stands on that drive.
    Rebuilt {
        component: u32,
        drive: DriveName,
    },
    /// No drive could take a component.
    NoDrive {
        component: u32,
    },
    /// A component can't be decoded for the positions lost in that stripe, rising, at least one.
    Lost {
        component: u32,
        positions: Numbers,
    },
    /// A component became or stayed missing for want of space.
    NoSpace {
        component: u32,
    },
    /// An audit is over: stripes, short ones, bad ones, and the sum of the components' lengths.
    Audited {
        stripes: u64,
        short: u64,
        bad: u64,
        bytes: u64,
    },
    /// A job was refused while one waits for that component.
    Busy {
        component: u32,
    },
    /// A fence was refused on the greatest tag.
    Spent,
    /// A component became or stayed missing by a client's report.
    Reported {
        component: u32,
    },
    /// A file wasn't made, since there is one.
    Exists,
    /// A file wasn't made, since its numbers are no map.
    BadMap {
        why: MapFault,
    },
    /// A file wasn't made, since only so many drives are online.
    TooFew {
        online: u32,
    },
    /// A file wasn't made, since so many online drives can't spread it over zones.
    NoSpread {
        online: u32,
    },
}

/// A line of a transcript.
#[derive(Drop)]
pub enum Line {
    /// The event whose lines follow.
    Event {
        event: Event,
    },
    /// A message was sent.
    Message {
        message: u64,
        from: Party,
        to: Party,
        bytes: Bytes,
    },
    /// A message was delivered.
    Delivered {
        message: u64,
        delivery: Delivery,
    },
    /// An injected message was judged.
    Judged {
        drive: DriveName,
        verdict: Verdict,
    },
    /// A component timed out at a client.
    TimedOut {
        client: ClientName,
        component: u32,
    },
    /// A call ended.
    Ended {
        client: ClientName,
        outcome: Outcome,
    },
    /// A call was refused.
    Refused {
        client: ClientName,
        refusal: Refusal,
    },
    /// The server's note on a file.
    Note {
        file: FileName,
        note: Note,
    },
    /// The last line.
    Last {
        calm: bool,
        unguessed: bool,
    },
}
