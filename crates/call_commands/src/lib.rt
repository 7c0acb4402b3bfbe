//! The commands of one call of a client: how they are made under a grant, and how those whose replies are awaited, and
//! the writes that wait for their turn, are kept.
//!
//! A reply finds its command by the nonce, and a component its next write by its number, whatever else is awaited. The
//! commands and the lists are those of `client_rules`.
#![tactic(auto)]

mod commands;
mod having;
mod ordering;
mod pending;
mod queue;

pub use commands::{
    await_all, count_sent, credential_of, object_of, read_commands, write_commands,
};
pub use having::{before, had, had_positions, missing_of, out_of, timed_with};
pub use ordering::in_order;
pub use pending::PendingCommands;
pub use queue::WriteQueue;
