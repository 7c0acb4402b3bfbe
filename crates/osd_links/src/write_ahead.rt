// What is written to a file ahead of what is asked for.
use osd_lists::Bytes;
use std::alloc::Global;
use std::fs::File;
use std::os::unix::fs::FileExt;

// How many zeros are written at once.
const ZEROS: usize = 1 << 18;

// A write of so many bytes takes so long that twice as many would cost more than the file's growth.
const LONG: usize = 1 << 15;

/// Zeros behind the end of a file that grows by short writes. Those that follow write over the zeros: so a sync has their bytes
/// to write, and not a new size of the file.
///
/// It has to forget what it knows if another file comes.
#[derive(Drop)]
pub(crate) struct WriteAhead {
    alloc: Global,
    // The file has bytes up to this place, if not further.
    end: u64,
}

impl WriteAhead {
    /// Nothing is known of the file.
    pub(crate) fn new(alloc: Global) -> Self {
        WriteAhead { alloc, end: 0 }
    }

    /// Forgets where the file ends.
    pub(crate) fn forget(&mut self) {
        self.end = 0;
    }

    /// Writes zeros behind so many bytes that were written at a place, if the file ends with them. Behind bytes at the file's
    /// start there are none: so what a crash leaves of a log that was being made stays short.
    ///
    /// If it fails, later syncs take longer, and that is all.
    pub(crate) fn follow(&mut self, file: &File, at: u64, len: usize) {
        let end = at.saturating_add(len as u64);
        if at == 0 || len >= LONG || end <= self.end {
            return;
        }
        let Ok(metadata) = file.metadata() else {
            return;
        };
        if metadata.len() > end {
            self.end = metadata.len();
            return;
        }
        let mut zeros = Bytes::new(self.alloc);
        if zeros.grow(ZEROS).is_err() {
            return;
        }
        if let Ok(count) = file.write_at(zeros.as_slice(), end) {
            self.end = end.saturating_add(count as u64);
        }
    }
}
