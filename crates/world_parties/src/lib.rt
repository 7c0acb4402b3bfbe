//! The drives and the clients of a world.
//!
//! [`WorldDrive`] is an object drive with a clock, which may have failed or be down: it judges the bytes that are delivered to it
//! or injected, and says the verdict as a transcript has it. One that is stored has a store on a disk in memory, and a crash
//! leaves it that disk alone. [`WorldClient`] is a client of striped files, which may have
//! been stopped: it takes calls, messages and timeouts, and says what it tells and sends. [`WorldDrives`] and
//! [`WorldClients`] have them by number, and do for one of them what an event or a delivery asks.
#![tactic(auto)]

mod backing;
mod client;
mod client_laws;
mod clients;
mod drive;
mod drive_laws;
mod drives;
mod judging;
mod posting;

pub use client::WorldClient;
pub use client_laws::clients_are_the_worlds;
pub use clients::WorldClients;
pub use drive::WorldDrive;
pub use drive_laws::drives_are_the_worlds;
pub use drives::WorldDrives;
pub use judging::Judged;
