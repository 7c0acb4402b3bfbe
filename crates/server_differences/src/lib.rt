//! What a step changes of what a metadata server keeps, as entries; and whether a copy is what it keeps.
//!
//! [`differences`] has the entries that make what is kept now of what was kept before. [`is_mirror`] tells whether a state
//! without jobs stands for what a server keeps.
#![tactic(auto)]

mod file_differences;
mod sameness;
mod state_differences;

pub use sameness::is_mirror;
pub use state_differences::differences;
