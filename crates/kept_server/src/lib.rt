//! The metadata server, with the entries of what each call changes of what it keeps.
//!
//! [`KeptServer`] does what a [`ServerCore`](layout_server::ServerCore) does. After each call it has the entries that make
//! what is kept then of what was kept before. It is made of entries again by a [`Restoration`].
#![tactic(auto)]

mod restoration;
mod server;

pub use restoration::{Restoration, RestoreErr, restore};
pub use server::KeptServer;
