//! What the code keeps to see whether a run is calm, and the moments of its history.
//!
//! `world_history` says by its moments whether a history is calm, each with the whole server; `world_calm` keeps less.
//! Here is proved that this stands for the moments, step by step: files, log, marks and the flag.
//! `specs/Following.antt` says what a step must give for it; and each move of a world gives it, by the laws of the
//! book, by what the messages of a step tell, and by the laws of files: a step of the server changes components as
//! its notes tell, but for those that it rebuilds, and those on a drive that is declared. So what `world_watch`
//! keeps stands for what is read off the lines, event by event.
#![tactic(auto)]

mod laws;

pub use laws::{
    begin_is_seen, calm_is_followed, calm_is_kept, files_are_kept, log_is_kept, marks_are_kept,
    moves_follow, moves_give, moves_show_files, sightings_are_the_worlds, steps_tell, watch_begins,
    writes_are_marked,
};
