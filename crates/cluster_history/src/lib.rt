//! What is so of every run of a cluster: drives, clients and the metadata server, each by its rules, one step after
//! the other, over a network that may lose, delay, reorder and repeat messages.
//!
//! `specs/State.antt` says what a cluster is, `specs/Steps.antt` which steps there are and where each may be,
//! `specs/Deeds.antt` and `specs/History.antt` what each comes to and which lines tell of it. The laws are in
//! `specs/Laws.antt`.
#![tactic(auto)]

mod laws;

pub use laws::{
    calm_runs_are_right, each_run_has_a_history, each_run_is_of_scenario, each_run_is_sound,
    lossless_runs_are_calm, lossless_runs_are_right, unhit_runs_are_unguessed,
};
