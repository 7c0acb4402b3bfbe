//! The server that the entries of a journal lead to.
//!
//! [`apply`] takes an entry into a state that the entries before it led to, or tells that nothing can be made of it.
#![tactic(auto)]

mod application;
mod changes;
mod drives;
mod grants;
mod in_use;
mod new_files;
mod numbers;
mod slots;

pub use application::{apply, apply_all};
