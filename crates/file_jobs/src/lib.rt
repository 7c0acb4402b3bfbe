//! A file of the metadata server and its job, in the middle of a step.
//!
//! A [`FileState`] is what the server has of a file: what is kept of it, and the job that runs on it. Each
//! function here is one part of the rules of `server_rules`, and its contract is the equation with them. What
//! a step sends and notes goes into [`Effects`](server_rules::Effects).
#![tactic(auto)]

mod audit;
mod awaited;
mod components;
mod drive_replies;
mod effects;
mod ended_grants;
mod fences;
mod job;
mod lost_drives;
mod next_job;
mod next_stage;
mod places;
mod ranges;
mod rebuild;
mod repair;
mod replies;
mod whole_files;

pub use awaited::{Gone, answered_by, forget, renew};
pub use components::{any_on, lose, lose_on};
pub use drive_replies::on_reply;
pub use effects::{copy_of, note, rest};
pub use job::{FileState, RunningJob, Turn, Work};
pub use lost_drives::declare;
pub use places::{pick, place_missing};
pub use ranges::{count_stripes, merged};
pub use whole_files::{begin, make, revoke};
