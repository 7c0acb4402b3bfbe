//! What a world keeps beside its parties to end a transcript: whether the run is calm and unguessed, and what it
//! comes to in numbers.
//!
//! A run is unguessed if each injected message that a drive's key opens was sent to that drive before ([`Guesses`]). Its
//! numbers are its calls, those that ended in ok, and the bytes that were read ([`Tally`]).
#![tactic(auto)]

mod guess_laws;
mod guesses;
mod laws;
mod lines;
mod sightings;
mod steps;
mod tally;
mod watch;

pub use guess_laws::guesses_are_read;
pub use guesses::Guesses;
pub use laws::watch_is_read;
pub use sightings::Sightings;
pub use tally::Tally;
pub use watch::Watch;
pub use world_calm::KeptFiles;
