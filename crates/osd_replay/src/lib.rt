//! Runs the commands of the program over any source and sink: scenarios of files striped over object
//! drives are replayed, and the structures of their layouts (RFC 5664) shown and checked.
#![tactic(auto)]

mod carry_out;
mod command;
mod generate;
mod generator;
mod inspect;
mod placing;
mod put_line;
mod replay;
mod shown;
mod status;
mod stop;
mod top_call;

pub use placing::fewest_first;
pub use status::{Quantity, ScenarioKind, Status};
pub use stop::{Stop, stopped};
pub use top_call::run;
