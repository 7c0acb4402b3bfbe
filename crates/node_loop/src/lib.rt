//! A party among nodes over many connections, and the loop that serves them without threads.
//!
//! It has the trait [`Party`] of what takes the records of nodes and gives messages to nodes, and [`serve_nodes`]. Messages to a
//! drive go out on a kept connection, which is opened if there is none; messages to others go out on the connection on which they
//! spoke last. None waits for another's answer.
#![tactic(auto)]

mod board;
mod hearing;
mod party;
mod peer;
mod posting;
mod resending;
mod serving;
mod ways;

pub use party::{Message, Messages, Party};
pub use serving::serve_nodes;
