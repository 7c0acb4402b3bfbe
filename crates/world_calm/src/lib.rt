//! Whether a run is calm: at no moment of it a stripe with parity is torn and short.
//!
//! `world_history` defines it over the lines of a history. Here it is kept up step by step: the writes that were
//! started, the components as the moments show them, and the stripes in which WRITEs of unfinished writes were
//! performed. Only what a step touches is looked at. `specs/Seeing.antt` says how a step goes on with what is kept.
#![tactic(auto)]

mod calls;
mod calm;
mod files;
mod looking;
mod marks;
mod reading;
mod view;

pub use calm::{Calm, Performed};
pub use view::KeptFiles;
