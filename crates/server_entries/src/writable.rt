ghost use Rattle.std.specs.Prelude.{IsTrue};
ghost use Rattle.server_entries.specs.Spelling.{EntryWritable, FileWritable, RecordWritable};

use crate::entry::{Entry, FileEntry};
use crate::fields::MAX_ANSWER;
use crate::record::Record;
use data_map::{RAID_0, RAID_PQ};
use layout_types::MAX_MEMBERS;

// The entry of a file may be written.
fn is_file_writable(file: &FileEntry) -> bool
    ensures { IsTrue result → FileWritable file.now }
{
    RAID_0 <= file.map.algorithm
        && file.map.algorithm <= RAID_PQ
        && file.components.len() <= MAX_MEMBERS as usize
}

// The entry may be written.
fn is_entry_writable(entry: &Entry) -> bool
    ensures { IsTrue result → EntryWritable entry.now }
{
    match entry {
        Entry::File(file) => is_file_writable(file),
        Entry::Slot(slot) => slot.answer.len() <= MAX_ANSWER as usize,
        Entry::Drive(_)
        | Entry::Grant(_)
        | Entry::Return { .. }
        | Entry::Change { .. }
        | Entry::Counters(_)
        | Entry::Format { .. }
        | Entry::Zone { .. } => true,
    }
}

/// Whether a record may be written: it has at most 1,024 entries, of which each has a spelling.
pub fn is_writable(whole: &Record) -> bool
    ensures { IsTrue result → RecordWritable whole.now }
{
    let entries = whole.entries.as_slice();
    entries.len() <= MAX_MEMBERS as usize && entries.iter().all(|entry| is_entry_writable(entry))
}
