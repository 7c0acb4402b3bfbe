//! A history in which nothing is lost is calm.
//!
//! `specs/Lossless.antt` says what that is: no drive fails or is declared, and no line tells that a component becomes missing.
//! Then each stripe has all of its components at each moment, so it isn't short.
#![tactic(auto)]

mod laws;

pub use laws::lossless_is_calm;
