use osd_lists::Bytes;

/// A write or a read of a file, as its log keeps it.
#[derive(PartialEq, Drop)]
pub enum Entry {
    /// A write that started: its bytes, from `offset` on, and whether it was acknowledged.
    Write {
        offset: u64,
        bytes: Bytes,
        acknowledged: bool,
    },
    /// A read that started: the range that it asked, and its answer, if it had one.
    Read {
        offset: u64,
        length: u64,
        answer: Option<Bytes>,
    },
}
