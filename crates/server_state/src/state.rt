ghost use Rattle.std.specs.Prelude.{◌≡◌, []};
ghost use Rattle.server_rules.specs.Making.{new_server};
ghost use Rattle.server_state.specs.States.{server_of, IsGood};

use crate::counts::DriveCounts;
use crate::index::ReplyIndex;
use crate::slots::Slots;
use file_jobs::FileState;
use osd_capability::FORMAT_SHA1;
use osd_lists::Sequence;
use server_rules::{Drive, FIRST_OBJECT};
use std::alloc::Global;
use std::collections::BTreeMap;

/// The files of the server by their numbers.
pub type Files = BTreeMap<u32, FileState>;

/// The drives of the server, in order of their numbers.
pub type Drives = Sequence<Drive>;

/// What the server has.
#[derive(Drop)]
pub struct State {
    pub files: Files,
    /// Which file awaits which reply.
    pub replies: ReplyIndex,
    /// How many present components of the files stand on each drive.
    pub counts: DriveCounts,
    pub slots: Slots,
    pub drives: Drives,
    /// The number of the next grant, above 4,294,967,295 where none is left.
    pub next_grant: u64,
    /// The number of the next object.
    pub next_object: u64,
    /// The nonce of the next command.
    pub next_nonce: u64,
    /// The count of the next recall.
    pub next_recall: u64,
    /// The least format that a fence leaves a file with, 1 or 2.
    pub format: u8,
}

impl State {
    /// The state of a server without files and drives, which takes no memory.
    pub fn new(alloc: Global) -> Self
        ensures value { server_of result ≡ new_server [] }
        ensures good { IsGood result }
    {
        State {
            files: Files::new(alloc),
            replies: ReplyIndex::new(alloc),
            counts: DriveCounts::new(),
            slots: Slots::new(alloc),
            drives: Drives::new(alloc),
            next_grant: 1,
            next_object: FIRST_OBJECT,
            next_nonce: 1,
            next_recall: 1,
            format: FORMAT_SHA1,
        }
    }
}
