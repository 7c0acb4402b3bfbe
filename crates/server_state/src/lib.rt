//! What the metadata server has, and the step of a client's request.
//!
//! [`State`] has the files with their jobs, the slots of clients, the drives and the counters. Beside it stand two
//! indexes: [`DriveCounts`], how many present components of files stand on each drive, and [`ReplyIndex`], which file
//! awaits a drive's reply. [`on_request`] carries LAYOUTGET, LAYOUTCOMMIT and LAYOUTRETURN out at a
//! [`FileState`](file_jobs::FileState), where a fence may start. What each does is a rule of `server_rules`: the file,
//! what is sent and noted, the recalls and the answer.
#![tactic(auto)]

mod admission;
mod answers;
mod at_file;
mod awaited;
mod counts;
mod file_requests;
mod index;
mod layout_commit;
mod layout_get;
mod layout_return;
mod lists;
mod outcome;
mod requests;
mod slots;
mod state;
mod step;
mod step_end;

pub use admission::on_request;
pub use answers::{answer_to, send_answer};
pub use at_file::{Served, serve_in};
pub use awaited::{lowest, waits};
pub use counts::DriveCounts;
pub use index::ReplyIndex;
pub use lists::{list, list_all, unlist};
pub use outcome::{Asking, Outcome};
pub use requests::carry_out;
pub use slots::{KeptAnswer, Slots, keep, slot_of};
pub use state::{Drives, Files, State};
pub use step::{Notes, Repairs, Step};
pub use step_end::{finish_step, no_effects, only_sends};
