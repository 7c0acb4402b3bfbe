//! Laws of every history of a world, whatever a scenario names: what a move is, jobs, grants and drives, and fences.
//!
//! # Moves
//!
//! What a move of a world is, once for all laws: a step of one party, with what that party tells and sends.
//!
//! A law over moves, over steps of the server or over turns of a client gives what is so in each case, and walks
//! nothing. What a record of cases asks is proved of every move, step or turn in this crate alone.
//!
//! # Jobs
//!
//! Laws of the jobs of the metadata server, over every step of it.
//!
//! # Grants, and what drives perform
//!
//! Laws of every history of a world, whatever a scenario names.
//!
//! The world, its moves and its histories are those of `world_history`, and what a party does is its rules'. Here is
//! what follows from them at each moment: of grants, and of what drives perform; that the server that is read off
//! the lines is the world's, whatever drives a placer named; and what the server gives clients, and what of it
//! drives perform.
//!
//! # Fences
//!
//! Laws of fencing: where a fence is over, each object has the new tag.
//!
//! A history is that of `world_history`. Under the server's own holder drives perform commands of the server alone:
//! a client's commands carry the capabilities of the server's answers, so their holder is the client's number,
//! however wide the other numbers of an answer are; and so it is of what a stranger injects under such a capability.
//! So a fence that is over has raised the tags of all objects, wherever nothing is forged.
#![tactic(auto)]

mod fencing_laws;
mod history_laws;
mod job_laws;
mod move_laws;

pub use fencing_laws::{
    fences_end, holder_is_server, holders_are_own, reached_refuses, unforged_are_fenced,
};
pub use history_laws::{
    book_is_read, commands_are_issued, drives_are_read, files_are_read, grants_are_counted,
    grants_are_safe, histories_are_safe, parties_run, performed_touches_its_own, placed_is_chosen,
    ranges_are_apart, replies_tell, server_moves, step_is_read, unforged_are_issued,
    unguessed_are_unforged, verdicts_are_answered,
};
pub use job_laws::{
    each_run_numbers, each_step_counts, each_step_numbers, each_step_owns, fences_wait,
};
pub use move_laws::moves_are_steps;
