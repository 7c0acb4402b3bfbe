//! The world of a scenario: drives, clients, the metadata server, and the network between them.
//!
//! [`World`] carries out the events of a scenario one after another and appends the lines of each. An event is one move
//! after another, each the action of one party; `world_history` defines them all, and what a lawful history is.
//! [`WorldServer`] is the metadata server as a party of a world: it says what is told and what is sent.
#![tactic(auto)]

mod acts;
mod beginning;
mod by_client;
mod by_server;
mod changing;
mod delivering;
mod following;
mod machine;
mod making;
mod moving;
mod parties;
mod posting;
mod refusing;
mod restarting;
mod rules;
mod server;
mod world;

pub use server::WorldServer;
pub use world::World;
pub use world_history::{Summary, WorldErr};
pub use world_network::Lines;
