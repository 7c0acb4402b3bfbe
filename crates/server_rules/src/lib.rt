//! The rules of the metadata server, as definitions.
//!
//! The state of the server and its messages are plain structs and enums here. What a step does with
//! them is a total function in `specs/`; `specs/History.antt` puts the parts together. The code of the
//! server is proved equal to these functions, and the laws are proved of them.
#![tactic(auto)]

mod files;
mod grants;
mod jobs;
mod laws;
mod limits;
mod notes;
mod requests;
mod server;

pub use files::{Component, Components, File, Kept, Phase};
pub use grants::{Grant, Grants, Stripes};
pub use jobs::{
    Awaited, AwaitedCommands, Heard, Job, JobKind, Measured, Piece, Tally, Target, Todo, Work,
};
pub use laws::{
    asked_grants_hold_their_bytes, conflicts_are_exact, each_step_changes_one_file,
    each_step_is_safe, every_run_is_safe, files_are_put, other_requests_change_nothing,
    repeats_are_answered_alike, requests_are_carried_out_in_order, slots_are_kept,
};
pub use limits::{
    ALL_RIGHTS, COUNTERS_END, EXISTS, FIRST_OBJECT, FIRST_PARTITION, GREATEST_GRANT,
    GREATEST_SEQUENCE, GREATEST_TAG, KEY_VERSION, LEASE, LENGTH_ATTRIBUTE, LOSS_TAKEN, MAX_CLIENT,
    MAX_FILE_COMPONENTS, MAX_OBJECT_LENGTH, MAX_PIECE, NO_COMPONENT, NO_EXPIRY, NO_SPACE,
    OLD_FORMAT, OTHER_TAG, PERFORMED, READ_RIGHTS, RECALL_NUMBERS, SERVER_HOLDER, WHOLE_FILE,
    WHOLE_OBJECT, WRITE_RIGHTS,
};
pub use notes::{Mended, Note, NoteKind};
pub use requests::{ClientRequest, RequestArgs};
pub use server::{Drive, Effects, Outgoing, Refusal, Server, Slot};
