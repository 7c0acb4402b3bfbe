use data_map::RawMap;
use osd_capability::DRIVE_KEY_BYTES;
use osd_lists::{Bytes, Sequence};
use server_rules::Grant;

/// A drive, new or as it is from now on.
#[derive(Clone, Copy)]
pub struct DriveEntry {
    pub number: u32,
    pub key: [u8; DRIVE_KEY_BYTES],
    /// In bytes.
    pub capacity: u64,
    pub online: bool,
}

/// Where a component of a new file stands.
#[derive(Clone, Copy)]
pub struct Placed {
    pub drive: u32,
    pub object: u64,
}

/// The components of a new file, in order.
pub type Places = Sequence<Placed>;

/// A new file.
#[derive(Drop)]
pub struct FileEntry {
    pub file: u32,
    pub map: RawMap,
    pub tag: u32,
    pub format: u32,
    pub components: Places,
}

/// The numbers that come next.
#[derive(Clone, Copy)]
pub struct Counters {
    /// Of a grant, 0 where none is left.
    pub next_grant: u32,
    pub next_object: u64,
    pub next_nonce: u64,
    pub next_recall: u64,
}

/// The last answer to a client.
#[derive(Drop)]
pub struct SlotEntry {
    pub client: u32,
    pub sequence: u32,
    /// The bytes of the answer, at most [`MAX_ANSWER`](crate::MAX_ANSWER).
    pub answer: Bytes,
}

/// What changes of a file.
#[derive(Clone, Copy)]
pub enum FileChange {
    /// 5: its size in bytes.
    Size {
        size: u64,
    },
    /// 6: a fence is under way, and ended its grants.
    FenceStarted,
    /// 7: the fence is over.
    Fenced {
        tag: u32,
        format: u32,
    },
    /// 8: the stripes of the ended grants are repaired.
    Repaired,
    /// 9: a component is missing.
    Missing {
        component: u32,
    },
    /// 10: a component stands there.
    Present {
        component: u32,
        drive: u32,
        object: u64,
    },
    /// 14: each component was made.
    Ready,
    /// 15: the format of its capabilities.
    Format {
        format: u32,
    },
    /// 17: its components are spread over zones.
    Zoned,
}

/// A change of what the server keeps. The numbers are the kinds in a record.
#[derive(Drop)]
pub enum Entry {
    /// 1: a drive is new, or has another key, capacity or state. It stays in its zone.
    Drive(DriveEntry),
    /// 2: a file is made.
    File(FileEntry),
    /// 3: a grant is issued.
    Grant(Grant),
    /// 4: a grant is given back.
    Return { grant: u32 },
    /// 5 to 10, 14, 15, 17: a file changes.
    Change { file: u32, change: FileChange },
    /// 11: the numbers that come next.
    Counters(Counters),
    /// 12: the last answer to a client.
    Slot(SlotEntry),
    /// 13: the least format that a fence leaves a file with.
    Format { format: u32 },
    /// 16: a drive is put into a zone.
    Zone { drive: u32, zone: u32 },
}

/// Entries, in the order of what they change.
pub type Entries = Sequence<Entry>;
