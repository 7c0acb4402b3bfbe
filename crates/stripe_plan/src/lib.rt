//! Plans of reads and writes over striped files: which bytes of which components a call reads or writes, what it
//! writes there, and what a read gives.
//!
//! A file's bytes lie in stripes. A stripe has units of data and of parity, each in a position of its group, and each
//! position has replicas. A column is one byte of each unit. What a call needs of a stripe is stated by definitions in
//! specs/, over the formulas of `data_map` and the codewords of `parity_code`; nothing here sends anything.
#![tactic(auto)]

mod laid_bytes;
mod left;
mod lost;
mod needed;
mod new_parity;
mod outs;
mod parity_change;
mod plan;
mod plans;
mod read_answer;
mod requests;
mod row_index;
mod rows;
mod touched;
mod whole;
mod write;

pub use lost::{check_readable, check_writable, is_out, positions_out, source};
pub use needed::is_degraded;
pub use outs::apply_and_encode;
pub use plan::{
    Aim, Ask, Asks, Column, Columns, Fetched, Interval, Intervals, Out, Part, Piece, Pieces,
    PlanErr, Span, Store, Stretch, Writes,
};
pub use plans::{plan_gather, plan_read, plan_scatter, plan_stores};
pub use read_answer::assemble;
pub use requests::asks;
pub use rows::code_of;
pub use touched::{holds_whole, own_columns, touched_columns, touched_stripes};
