//! The simulation of the files of a world by the machine of a file (`fence_law`), and the headline that follows from it.
//!
//! Definitions, in `specs/`: the headline in the words of the lines (`Claim`); the relation between a machine and a file
//! of a world (`Relation`, with the files before it); the events of the machine in each move of a world (`Events`), and
//! in the creation of a file (`Creation`); when a machine shows what the lines say (`Showing`); and what is to be shown
//! of all these (`Simulation`). Proved is that the headline follows from it and two further statements (`Conclusion`);
//! `headline_law` proves those.
#![tactic(auto)]

mod laws;

pub use laws::{runs_give_the_headline, simulation_gives_runs};
