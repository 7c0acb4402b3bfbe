//! The headline: every answered read of a calm and unguessed history gives what was acknowledged, and every stripe
//! that isn't disturbed is whole (`file_simulation`).
//!
//! # The relation between the world and the machine of a file
//!
//! `relation_law` states what each part of the relation is behind a move. Here each part is proved: what was sent and
//! what reads were shown (`Sent`, `Reads`, `Asked`, `Found`), replies to WRITEs (`Client`), what a repair owes and
//! has done (`Owe`, `Done`), the rows that it reads (`Rows`), the targets of rebuilds (`Target`), and what there is
//! of a file when it is made (`Birth`, `Born`).
//!
//! # Events and runs
//!
//! The events of each move can happen in the machine (`Client`, `Drive`, `Server`), and keep a run of it calm
//! (`Calm`). Behind the lines of a move all its events have happened (`Lines`).
//!
//! # What the lines show
//!
//! The log of a file is that of the machine's entries (`Entries`, `NotLogged`), what disturbs a column has its mark
//! (`Marks`), and the components are as the lines show them (`Shown`).
//!
//! # The conclusion
//!
//! `Joining` joins the parts of one move, and `CutsJoined` those of a cut inside a move, with files that are made
//! (`Creation`) and room for what a move uses (`Room`). `Whole` gives both the laws of histories. No audit finds a
//! bad stripe then (`Audit`), and right behind a repair that left nothing short none is disturbed (`Mended`).
#![tactic(auto)]

mod headline_laws;
mod world_laws;

pub use headline_laws::{audits_find_none, each_file_is_created, headline_holds, moves_go_on};
pub use world_laws::{
    each_object_is_used, histories_are_lawful, machine_is_lawful, none_is_logged,
    repairs_leave_none,
};
